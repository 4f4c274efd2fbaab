#![tactic(auto)]

// The tests of an order alone foretell it: the statements in specs/, their theorems in proofs/. There is no code here.

#![tactic(auto)]

// Which rate an order takes: the statements in specs/, their theorems in proofs/. There is no code here.

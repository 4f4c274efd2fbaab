#![tactic(auto)]

// Under our table orders, the reference value and text are what document 01's five flags make of them: the statements in specs/,
// their theorems in proofs/. There is no code here.

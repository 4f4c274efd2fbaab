// The statement on a whole list of calls (demand 3) in specs/, and its theorem in proofs/. There is no code here.
#![tactic(auto)]

#![tactic(auto)]

// Definitions over lists and indices, and their laws, which other crates cite. There is no code here.

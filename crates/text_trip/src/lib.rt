#![tactic(auto)]

// Both round trips of a text in any well-made form, as theorems on its definitions.

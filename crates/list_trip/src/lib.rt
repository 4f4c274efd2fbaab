#![tactic(auto)]

// The round trips of the list text: theorems on the definitions, so no code. The statements are in specs/Trips.antt.

// Locating chunks by metadata lookups that locate chunks, over any pages: definitions and theorems
// only, in specs/. The crate `store` has the code.
#![tactic(auto)]

// What an order of keys is, and which orders there are: definitions and theorems only, in specs/ and
// proofs/. The three answers of a comparison are std's `Ordering`.
#![tactic(auto)]

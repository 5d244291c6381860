// The small herds of 01, as theorems about the definitions: see proofs/. There is no code.
#![tactic(auto)]

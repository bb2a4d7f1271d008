// What every call keeps of a station: theorems alone, in proofs/, about the definitions of the crates below.
#![tactic(auto)]

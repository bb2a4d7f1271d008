// The customer's demands and the paper's sums, as theorems over the crates' definitions. There is no code here: specs/ has
// what is claimed, proofs/ that it holds.
#![tactic(auto)]

// The ledger of demand 3, over a run's history: definitions in specs/ and theorems in proofs/.
#![tactic(auto)]

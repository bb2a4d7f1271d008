// Why a structure of a map stayed dark: each name is the true one. Definitions in specs/ and theorems in proofs/.
#![tactic(auto)]

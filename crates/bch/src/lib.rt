// The code of G.987.3, Annex A: BCH(63, 12, 2) with a parity bit behind it, and the check values of its 63 places.
#![tactic(auto)]

pub mod remainders;

// The structures of G.987.3 that stand in front of a downstream frame's payload, in the XGTC header: HLend (clause 8.1.1) and
// the allocation structure (8.1.2). Fields are read from a true word alone, and both structures can be written.
#![tactic(auto)]

pub mod allocation;
pub mod hlend;

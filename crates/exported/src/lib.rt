// No code: theorems alone. A run of the calls that C and Rust link is a run of the engine, so that what the demands say of the engine
// holds of what goes into the stick.
#![tactic(auto)]

// Runs the documents' vectors and prints what was computed.
#![tactic(auto)]

mod headers;
mod macs;

use std::io;

fn main(rt: HostRuntime) -> io::Result<()> {
    headers::run(&rt)?;
    macs::run(&rt)
}

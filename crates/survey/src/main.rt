//! For planners: reads a sheet in hex from the standard input and says all that is wrong with it.
#![tactic(auto)]

mod report;
mod words;

use report::report;
use std::io;
use text::input::read_input;

// Each program has these lines: a function for them could promise nothing of what is read and printed outside.
fn main(rt: HostRuntime) -> io::Result<()> {
    let heap = rt.alloc();
    let input = read_input(heap, rt.stdin())?;
    rt.print(report(heap, input.as_slice())?)
}

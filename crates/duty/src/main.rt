//! Reads a duty from the standard input and prints its record.
#![tactic(auto)]

mod record;

use record::listing;
use std::io;
use text::input::read_input;

// Each program has these lines: a function for them could promise nothing of what is read and printed outside.
fn main(rt: HostRuntime) -> io::Result<()> {
    let heap = rt.alloc();
    let input = read_input(heap, rt.stdin())?;
    rt.print(listing(heap, input.as_slice())?)
}

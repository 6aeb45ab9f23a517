//! A block over wires: thirty-two lines, each with a field at either end.
ghost use Rattle.std.specs.Prelude.{◌≡◌};
ghost use Rattle.block.specs.Meaning.{fresh_block};
ghost use Rattle.block.specs.WirePairs.{wire_meaning};

use crate::consents::Consents;
use crate::line::Line;

pub type WirePair = Consents<Line>;

impl Consents<Line> {
    /// Nothing is out, and the line is whole.
    pub fn new() -> Self
        ensures { wire_meaning result.lines result.tokens result.whole ≡ fresh_block 32 }
    {
        Self::at_home(32)
    }
}

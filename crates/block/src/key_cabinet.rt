//! A block of keys: one to thirty-two hooks at the station, and a lock in the signal box for each key.
ghost use Rattle.std.specs.Prelude.{◌≡◌};
ghost use Rattle.block.specs.Meaning.{fresh_block};
ghost use Rattle.block.specs.KeyCabinets.{cabinet_meaning, nearest};

use crate::consents::Consents;
use crate::key::Key;

pub type KeyCabinet = Consents<Key>;

impl Consents<Key> {
    /// Every key is on its hook, and the line is whole. Fewer hooks than 1 count as 1, and more than 32 as 32.
    pub fn new(hooks: usize) -> Self
        ensures { cabinet_meaning result.lines result.tokens result.whole ≡ fresh_block (nearest hooks) }
    {
        Self::at_home(hooks.clamp(1, 32))
    }
}

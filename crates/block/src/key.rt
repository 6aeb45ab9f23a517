//! A key of a cabinet: it hangs on its hook, or sits in its lock in the signal box.
ghost use Rattle.block.specs.KeyCabinets.{in_box};

use crate::token::Token;

#[derive(Clone, Copy, Debug, PartialEq, Eq)]
pub enum Key {
    OnHook,
    InBoxLock,
}

impl Token for Key {
    ghost out = { in_box };

    ghost FEWEST = { 1 };

    const FEWEST: usize = 1;

    fn home() -> Key {
        Key::OnHook
    }

    fn away() -> Key {
        Key::InBoxLock
    }

    fn is_out(&self) -> bool {
        *self == Key::InBoxLock
    }
}

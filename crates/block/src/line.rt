//! One line of a wire pair: a field at the station and one in the signal box.
ghost use Rattle.std.specs.Prelude.{◌≡◌};
ghost use Rattle.block.specs.Fields.{is_locked, opposite};

use crate::token::Token;

#[derive(Clone, Copy, Debug, PartialEq, Eq)]
enum Field {
    Locked,
    Free,
}

/// One of its fields is locked, and the other is free.
#[derive(Clone, Copy, Debug, PartialEq, Eq)]
pub struct Line {
    station: Field,
    signal_box: Field,
    ghost one: { signal_box ≡ opposite station },
}

impl Token for Line {
    ghost out = { λ l. is_locked l.station };

    ghost FEWEST = { 32 };

    const FEWEST: usize = 32;

    fn home() -> Line {
        Line {
            station: Field::Free,
            signal_box: Field::Locked,
        }
    }

    fn away() -> Line {
        Line {
            station: Field::Locked,
            signal_box: Field::Free,
        }
    }

    fn is_out(&self) -> bool {
        self.station == Field::Locked
    }
}

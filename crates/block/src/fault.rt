//! Why a block refuses.
ghost use Rattle.std.specs.Prelude.{◌≡◌};
ghost use Rattle.block.specs.Faults.{fault_number};

#[derive(Clone, Copy, Debug, PartialEq, Eq)]
pub enum BlockFault {
    /// The line is cut.
    LineCut = 31,
    /// The route's consent is out already.
    AlreadyOut = 32,
    /// The consent of a hostile route is out.
    HostileOut = 33,
    /// The route's consent is at home.
    NotOut = 34,
    /// The line is whole.
    LineWhole = 35,
    /// The block has no line for the route.
    BeyondLines = 36,
}

impl BlockFault {
    /// The number that is returned for it.
    pub fn number(self) -> u8
        ensures { result ≡ fault_number self }
    {
        self as u8
    }
}

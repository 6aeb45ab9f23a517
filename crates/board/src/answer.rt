//! What a call is answered: accepted, or refused by one of the layers, for a reason and at a place.
ghost use Rattle.std.specs.Prelude.{◌≡◌};
ghost use Rattle.board.specs.Answers.{answer_number, answer_place, checked, frame_number, from_block, from_sheet, number_of_fault, refusal};

use block::fault::BlockFault;
use sheet::fault::{Flaw, SheetFault};

/// Why the frame itself refuses.
#[derive(Clone, Copy, Debug, PartialEq, Eq)]
pub enum FrameFault {
    /// No call has that letter.
    UnknownCall = 10,
    /// The plan has no such number, or there is no plan.
    NoSuchNumber = 11,
    /// A plan is loaded already.
    AlreadyLoaded = 12,
    /// The block has fewer lines than the plan has routes.
    TooFewLines = 13,
    /// A consent is out.
    ConsentOut = 14,
    /// The point is trailed.
    PointTrailed = 15,
    /// A set route demands the point.
    PointLocked = 16,
    /// The point is coupled already.
    PointCoupled = 17,
    /// The route lever is not normal.
    LeverThrown = 18,
    /// The route's consent is at home.
    ConsentHome = 19,
    /// The point is in the other position.
    PointElsewhere = 20,
    /// The route is not set.
    RouteNotSet = 21,
    /// The route's field is held.
    FieldHeld = 22,
    /// The consent has had its train.
    ConsentSpent = 23,
    /// The signal lever is pulled.
    SignalPulled = 24,
    /// No route of the signal is set.
    NoSetRoute = 25,
    /// The route's field is open.
    FieldOpen = 26,
    /// The signal lever is normal.
    SignalNormal = 27,
    /// No train is awaited.
    NoTrainAwaited = 28,
    /// The train has not run yet.
    TrainNotRun = 29,
    /// The route is still set.
    RouteStillSet = 30,
}

impl FrameFault {
    fn number(self) -> u8
        ensures { result ≡ frame_number self }
    {
        self as u8
    }

    /// Its refusal, at a place.
    pub fn at(self, place: usize) -> Refusal
        ensures { result ≡ refusal self place }
    {
        Refusal {
            fault: Fault::Frame(self),
            place,
        }
    }
}

/// Which layer refuses, and why.
#[derive(Clone, Copy, Debug, PartialEq, Eq)]
pub enum Fault {
    Sheet(Flaw),
    Frame(FrameFault),
    Block(BlockFault),
}

impl Fault {
    /// The number that is returned for it.
    pub fn number(self) -> u8
        ensures { result ≡ number_of_fault self }
    {
        match self {
            Fault::Sheet(flaw) => flaw.number(),
            Fault::Frame(fault) => fault.number(),
            Fault::Block(fault) => fault.number(),
        }
    }
}

/// A refusal, with its fault and its place.
#[derive(Clone, Copy, Debug, PartialEq, Eq)]
pub struct Refusal {
    pub fault: Fault,
    pub place: usize,
}

/// What a refused sheet is answered.
impl From<SheetFault> for Refusal {
    ghost from_gives = { λ x r. r ≡ from_sheet x };

    fn from(fault: SheetFault) -> Refusal {
        Refusal {
            fault: Fault::Sheet(fault.flaw),
            place: fault.place,
        }
    }
}

/// What a call is answered.
pub type Answer = Result<(), Refusal>;

/// 0 where the call is accepted, else the number of the fault.
pub fn number(answer: Answer) -> u8
    ensures { result ≡ answer_number answer }
{
    match answer {
        Ok(()) => 0,
        Err(refusal) => refusal.fault.number(),
    }
}

/// 0 where the call is accepted, else the place of the refusal.
pub fn place(answer: Answer) -> usize
    ensures { result ≡ answer_place answer }
{
    match answer {
        Ok(()) => 0,
        Err(refusal) => refusal.place,
    }
}

/// Accepted where a test passes, else refused.
// Fault and place stand apart, so that a call reads as the rules do: test, fault, place.
pub fn check(passes: bool, fault: FrameFault, place: usize) -> Answer
    ensures { result ≡ checked passes fault place }
{
    if passes { Ok(()) } else { Err(fault.at(place)) }
}

/// What a call is answered that the block has answered so.
// No `From`, since a place comes with what the block said.
pub fn from_block(said: Result<(), BlockFault>, place: usize) -> Answer
    ensures { result ≡ from_block said place }
{
    said.map_err(|fault| Refusal {
        fault: Fault::Block(fault),
        place,
    })
}

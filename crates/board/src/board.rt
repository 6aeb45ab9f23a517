//! What stands on the board, and what one part of it can be asked and told.
ghost use Rattle.std.specs.Prelude.{◌≡◌};
ghost use Rattle.board.specs.Boards.{coupled_again, dropped, fails, fresh, hinders, is_clear, is_held, is_pulled, is_trailed, other_way, released, thrown, toward, trailed_here};

pub use sheet::layout::Position;
use sheet::layout::Side;

/// Whether a point moves with its lever.
#[derive(Clone, Copy, Debug, PartialEq, Eq)]
pub enum Coupling {
    Coupled,
    Trailed,
}

/// A point: its lever's position, and whether it moves with it.
#[derive(Clone, Copy, Debug, PartialEq, Eq)]
pub struct Point {
    pub position: Position,
    pub coupling: Coupling,
}

impl Point {
    pub(crate) fn is_trailed(&self) -> bool
        ensures { result ≡ is_trailed self.now }
    {
        self.coupling == Coupling::Trailed
    }

    // Whether it keeps a route that demands this of it from being set.
    pub(crate) fn hinders(&self, demand: Option<Position>) -> bool
        ensures { result ≡ hinders demand self.now }
    {
        demand.is_some_and(|wanted| self.is_trailed() || self.position != wanted)
    }

    // Whether it is trailed under a route that demands this of it.
    pub(crate) fn fails(&self, demand: Option<Position>) -> bool
        ensures { result ≡ fails demand self.now }
    {
        demand.is_some() && self.is_trailed()
    }

    pub(crate) fn throw(&mut self)
        ensures { self.new ≡ other_way self.old }
    {
        self.position = match self.position {
            Position::Plus => Position::Minus,
            Position::Minus => Position::Plus,
        };
    }

    pub(crate) fn trail(&mut self)
        ensures { self.new ≡ trailed_here self.old }
    {
        self.coupling = Coupling::Trailed;
    }

    pub(crate) fn recouple(&mut self)
        ensures { self.new ≡ coupled_again self.old }
    {
        self.coupling = Coupling::Coupled;
    }
}

/// A route lever.
// An enum of its own, and not Option<Side>: a host that asks for a lever would be answered an option in an option.
#[derive(Clone, Copy, Debug, PartialEq, Eq)]
pub enum Lever {
    Normal,
    Up,
    Down,
}

impl Lever {
    pub(crate) fn is_thrown(self, side: Side) -> bool
        ensures { result ≡ thrown self side }
    {
        self == Lever::from(side)
    }
}

/// A lever that is thrown to a side.
impl From<Side> for Lever {
    ghost from_gives = { λ side lever. lever ≡ toward side };

    fn from(side: Side) -> Lever {
        match side {
            Side::Up => Lever::Up,
            Side::Down => Lever::Down,
        }
    }
}

/// How far a route's field has come under its consent.
#[derive(Clone, Copy, Debug, PartialEq, Eq)]
pub enum Stage {
    Open,
    Held,
    /// Held, and its signal has been pulled.
    Cleared,
    /// Held, and its train has run.
    Run,
    /// Open again after its train has run.
    Spent,
}

impl Stage {
    pub(crate) fn is_held(self) -> bool
        ensures { result ≡ is_held self }
    {
        matches!(self, Stage::Held | Stage::Cleared | Stage::Run)
    }

    // The stage of a field that is released.
    pub(crate) fn released(self) -> Stage
        ensures { result ≡ released self }
    {
        match self {
            Stage::Open | Stage::Held | Stage::Cleared => Stage::Open,
            Stage::Run | Stage::Spent => Stage::Spent,
        }
    }
}

/// A signal lever: normal, or pulled with the arm at clear or fallen.
// An enum of its own, as `Lever` is.
#[derive(Clone, Copy, Debug, PartialEq, Eq)]
pub enum Arm {
    Normal,
    Clear,
    Fallen,
}

impl Arm {
    pub(crate) fn is_pulled(self) -> bool
        ensures { result ≡ is_pulled self }
    {
        self != Arm::Normal
    }

    pub fn is_clear(self) -> bool
        ensures { result ≡ is_clear self }
    {
        self == Arm::Clear
    }

    // An arm at clear falls.
    pub(crate) fn dropped(self) -> Arm
        ensures { result ≡ dropped self }
    {
        match self {
            Arm::Clear | Arm::Fallen => Arm::Fallen,
            Arm::Normal => Arm::Normal,
        }
    }
}

/// All that moves, as many of each as a plan can have.
// Arrays with room for the most, since the field crates have no heap.
#[derive(Clone, Copy, Debug, PartialEq, Eq)]
pub struct Board {
    pub points: [Point; 32],
    pub levers: [Lever; 16],
    /// By route.
    pub fields: [Stage; 32],
    pub signals: [Arm; 32],
}

impl Board {
    /// Points plus and coupled, levers normal, fields open.
    pub fn new() -> Board
        ensures { result ≡ fresh }
    {
        Board {
            points: [Point {
                position: Position::Plus,
                coupling: Coupling::Coupled,
            }; 32],
            levers: [Lever::Normal; 16],
            fields: [Stage::Open; 32],
            signals: [Arm::Normal; 32],
        }
    }
}

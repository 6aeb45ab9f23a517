//! What a plan says: how many there are of each thing, and what each route asks. An enum's numbers are its codes in a sheet.
ghost use Rattle.std.specs.Prelude.{◌≡◌, ◌≤◌, take};

/// Which way a route lever is thrown.
#[derive(Clone, Copy, Debug, PartialEq, Eq)]
pub enum Side {
    Up = 0,
    Down = 1,
}

/// Who frees a route that is held: the station, or the train that has run.
#[derive(Clone, Copy, Debug, PartialEq, Eq)]
pub enum Release {
    Station = 0,
    Train = 1,
}

/// The two positions of a point.
#[derive(Clone, Copy, Debug, PartialEq, Eq)]
pub enum Position {
    Plus = 1,
    Minus = 2,
}

// Room for the most points and routes that there can be, since the field crates have no heap.
#[derive(Clone, Copy, Debug, PartialEq, Eq)]
pub struct Route {
    pub lever: usize,
    pub side: Side,
    pub signal: usize,
    pub release: Release,
    /// By point: the position that is demanded of it, if any is.
    pub demands: [Option<Position>; 32],
    /// By route: whether the sheet names the pair hostile, at the lower of the two.
    pub named: [bool; 32],
}

/// A route that asks nothing: what stands in the places that a plan does not use.
pub(crate) const NO_ROUTE: Route = Route {
    lever: 0,
    side: Side::Up,
    signal: 0,
    release: Release::Station,
    demands: [None; 32],
    named: [false; 32],
};

#[derive(Clone, Copy, Debug, PartialEq, Eq)]
pub struct Counts {
    pub points: usize,
    pub signals: usize,
    pub levers: usize,
    pub routes: usize,
}

// Room for the most routes, and the counts beside it, since the field crates have no heap. That the counts are few is asked where it is
// needed and kept by a plan, since the definitions build layouts of any counts.
#[derive(Clone, Copy, Debug, PartialEq, Eq)]
pub struct Layout {
    pub counts: Counts,
    pub routes: [Route; 32],
}

impl Layout {
    // The routes that the plan has.
    pub(crate) fn routes(&self) -> &[Route]
        requires { self.now.counts.routes ≤ 32 }
        ensures { result.now ≡ take self.now.counts.routes self.now.routes }
    {
        &self.routes[..self.counts.routes]
    }
}

//! A set of routes, of the thirty-two that a plan can number.
ghost use Rattle.std.specs.Prelude.{◌≡◌, length};
ghost use Rattle.basics.specs.RouteSets.{member};

// Thirty-two truth values and no set of numbers, since the field crates have no heap.
#[derive(Clone, Copy, Debug, PartialEq, Eq)]
pub struct RouteSet {
    members: [bool; 32],
    ghost sized: { length members ≡ 32 },
}

/// The set of the routes at whose places `members` is true.
impl From<[bool; 32]> for RouteSet {
    ghost from_gives = { λ members set. set.members ≡ members };

    fn from(members: [bool; 32]) -> RouteSet {
        RouteSet { members }
    }
}

impl RouteSet {
    /// Whether a route is in the set; one past the last never is.
    pub fn has(&self, route: usize) -> bool
        ensures { result ≡ member self.now.members route }
    {
        self.members.get(route).copied().unwrap_or(false)
    }
}

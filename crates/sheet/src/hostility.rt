//! Which routes are hostile to one another.
ghost use Rattle.std.specs.Prelude.{◌≡◌, ◌<◌, ◌≤◌, false};
ghost use Rattle.sheet.specs.Hostility.{are_hostile, clashing, hostiles_of, opponents, opposed};

use crate::coded::Coded;
use crate::layout::{Position, Route};
use crate::plan::Plan;
use basics::route_set::RouteSet;
use std::array;

// By the codes, 0 for nothing, 1 for plus and 2 for minus: only plus and minus make 3. To test `a` first changes no answer and saves
// time, since `a` is one route's against all others. A comparison of the options also branches on `b`, and took twice as long.
fn are_opposed(a: Option<Position>, b: Option<Position>) -> bool
    ensures { result ≡ opposed a b }
{
    a.is_some() && a.code() + b.code() == 3
}

// Whether two routes demand one of the first points in both positions.
fn clash(a: &Route, b: &Route, points: usize) -> bool
    requires { points ≤ 32 }
    ensures { result ≡ clashing a.now b.now points }
{
    a.demands[..points]
        .iter()
        .zip(&b.demands[..points])
        .any(|(a, b)| are_opposed(*a, *b))
}

impl Plan {
    // Whether two routes are hostile, if they are two routes of the plan.
    fn oppose(&self, r: usize, q: usize) -> bool
        requires first { r < 32 }
        requires second { q < 32 }
        ensures { result ≡ opponents self.now.layout r q }
    {
        let a = &self.layout.routes[r];
        let b = &self.layout.routes[q];
        a.lever == b.lever
            || a.signal == b.signal
            || (a.named[q] | b.named[r])
            || clash(a, b, self.layout.counts.points)
    }

    // Apart from `hostile`, so that a wrong one is refused where it stands.
    fn are_hostile(&self, r: usize, q: usize) -> bool
        ensures value { result ≡ are_hostile self.now.layout r q }
        ensures symmetric { result ≡ are_hostile self.now.layout q r }
        ensures other { r ≡ q → result ≡ false }
    {
        let routes = self.layout.counts.routes;
        if r >= routes || q >= routes || r == q {
            return false;
        }
        self.oppose(r, q)
    }

    fn hostile_members(&self, r: usize) -> [bool; 32]
        ensures { result ≡ hostiles_of self.now.layout r }
    {
        array::from_fn(|q| self.are_hostile(r, q))
    }

    /// Whether two routes are hostile: the same both ways, and never of a route with itself or with a number that the plan lacks.
    pub fn hostile(&self, r: usize, q: usize) -> bool
        ensures value { result ≡ are_hostile self.now.layout r q }
        ensures symmetric { result ≡ are_hostile self.now.layout q r }
        ensures other { r ≡ q → result ≡ false }
    {
        self.are_hostile(r, q)
    }

    /// All routes that are hostile to a route.
    pub fn hostile_set(&self, r: usize) -> RouteSet
        ensures { result.members ≡ hostiles_of self.now.layout r }
    {
        RouteSet::from(self.hostile_members(r))
    }
}

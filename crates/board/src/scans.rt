//! What is looked up on a board under a plan.
ghost use Rattle.std.specs.Prelude.{◌≡◌, ◌<◌, IfSome};
ghost use Rattle.board.specs.Boards.{arm_at, claims, dropped, fell, is_set, route_of, serves, with_arm, with_signals};
ghost use Rattle.board.specs.Calls.{failure_of, is_locked, obstacle_of, set_route_of};

use crate::board::Board;
use sheet::layout::Route;
use sheet::plan::Plan;

// That a point is one of thirty-two is asked where a row of points is read; each call has tested it.
impl Board {
    /// Whether a route is set: its lever is thrown to its side. A number that the plan lacks is not.
    pub fn is_set(&self, plan: &Plan, r: usize) -> bool
        ensures { result ≡ is_set plan.now.layout self.now r }
    {
        plan.route(r)
            .is_some_and(|route| self.levers[route.lever].is_thrown(route.side))
    }

    // Whether a route is set and demands a point.
    fn claims(&self, plan: &Plan, p: usize, r: usize) -> bool
        requires { p < 32 }
        ensures { result ≡ claims plan.now.layout self.now p r }
    {
        self.is_set(plan, r)
            && plan
                .route(r)
                .is_some_and(|route| route.demands[p].is_some())
    }

    // Whether a set route demands a point.
    pub(crate) fn is_locked(&self, plan: &Plan, p: usize) -> bool
        requires { p < 32 }
        ensures { result ≡ is_locked plan.now.layout self.now p }
    {
        (0..plan.counts().routes).any(|r| self.claims(plan, p, r))
    }

    // Whether a route is set and has a signal.
    fn serves(&self, plan: &Plan, g: usize, r: usize) -> bool
        ensures { result ≡ serves plan.now.layout self.now g r }
    {
        self.is_set(plan, r) && plan.route(r).is_some_and(|route| route.signal == g)
    }

    // The set route of a signal.
    pub(crate) fn set_route_of(&self, plan: &Plan, g: usize) -> Option<usize>
        ensures value { result ≡ set_route_of plan.now.layout self.now g }
        ensures within { IfSome result (λ r. r < plan.now.layout.counts.routes) }
    {
        (0..plan.counts().routes).find(|&r| self.serves(plan, g, r))
    }

    // The lowest point that keeps a route from being set.
    // It and `failure` differ in one test: a function that took the test would have a longer contract than the two chains.
    pub(crate) fn obstacle(&self, plan: &Plan, route: &Route) -> Option<usize>
        ensures value { result ≡ obstacle_of plan.now.layout self.now route.now }
        ensures within { IfSome result (λ p. p < 32) }
    {
        (0..plan.counts().points).find(|&p| self.points[p].hinders(route.demands[p]))
    }

    // The lowest trailed point that a route demands.
    pub(crate) fn failure(&self, plan: &Plan, route: &Route) -> Option<usize>
        ensures { result ≡ failure_of plan.now.layout self.now route.now }
    {
        (0..plan.counts().points).find(|&p| self.points[p].fails(route.demands[p]))
    }

    // Drops the arm of a route's signal, if it is at clear.
    pub(crate) fn drop_arm(&mut self, plan: &Plan, r: usize)
        requires { r < plan.now.layout.counts.routes }
        ensures { self.new ≡ with_arm self.old (route_of plan.now.layout r).signal (dropped (arm_at self.old (route_of plan.now.layout r).signal)) }
    {
        let route = plan.route(r).unwrap();
        self.signals[route.signal] = self.signals[route.signal].dropped();
    }

    // Drops each arm at clear whose set route demands a point. A loop, since each step changes the board that the next one
    // asks.
    pub(crate) fn drop_arms(&mut self, plan: &Plan, p: usize)
        requires { p < 32 }
        ensures { self.new ≡ with_signals self.old (fell plan.now.layout self.old p plan.now.layout.counts.routes) }
    {
        let routes = plan.counts().routes;
        for r in 0..routes {
            if self.claims(plan, p, r) {
                self.drop_arm(plan, r);
            }
        }
    }
}

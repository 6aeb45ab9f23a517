//! The calls of the board: each tests what the rules say, in their order, and changes the board where no test refuses it.
ghost use Rattle.std.specs.Prelude.{◌≡◌};
ghost use Rattle.board.specs.Answers.{settled};
ghost use Rattle.board.specs.Calls.{contact_answer, contact_changed, hold_answer, hold_changed, normal_answer, normal_changed, pull_answer, pull_changed, recouple_answer, recouple_changed, release_answer, release_changed, restore_answer, restore_changed, set_answer, set_changed, throw_answer, throw_changed, trail_answer, trail_changed};

use crate::answer::{Answer, FrameFault, check, from_block};
use crate::board::{Arm, Board, Lever, Stage};
use block::fault::BlockFault;
use sheet::layout::Release;
use sheet::plan::Plan;

// Each call is told the plan: a struct of a plan and a board would have to promise at every call that its plan stays.
impl Board {
    /// Puts a point into its other position.
    pub fn throw(&mut self, plan: &Plan, p: usize) -> Answer
        ensures answer { result ≡ throw_answer plan.now.layout self.old p }
        ensures after { self.new ≡ settled result (throw_changed plan.now.layout self.old p) self.old }
    {
        check(p < plan.counts().points, FrameFault::NoSuchNumber, p)?;
        check(!self.points[p].is_trailed(), FrameFault::PointTrailed, p)?;
        check(!self.is_locked(plan, p), FrameFault::PointLocked, p)?;
        self.points[p].throw();
        Ok(())
    }

    /// Trails a point: each arm at clear whose set route demands it falls.
    pub fn trail(&mut self, plan: &Plan, p: usize) -> Answer
        ensures answer { result ≡ trail_answer plan.now.layout self.old p }
        ensures after { self.new ≡ settled result (trail_changed plan.now.layout self.old p) self.old }
    {
        check(p < plan.counts().points, FrameFault::NoSuchNumber, p)?;
        check(!self.points[p].is_trailed(), FrameFault::PointTrailed, p)?;
        self.drop_arms(plan, p);
        self.points[p].trail();
        Ok(())
    }

    /// Couples a trailed point again.
    pub fn recouple(&mut self, plan: &Plan, p: usize) -> Answer
        ensures answer { result ≡ recouple_answer plan.now.layout self.old p }
        ensures after { self.new ≡ settled result (recouple_changed plan.now.layout self.old p) self.old }
    {
        check(p < plan.counts().points, FrameFault::NoSuchNumber, p)?;
        check(self.points[p].is_trailed(), FrameFault::PointCoupled, p)?;
        self.points[p].recouple();
        Ok(())
    }

    /// Throws a route's lever to its side; `out` says whether its consent is out.
    pub fn set(&mut self, plan: &Plan, out: bool, r: usize) -> Answer
        ensures answer { result ≡ set_answer plan.now.layout self.old out r }
        ensures after { self.new ≡ settled result (set_changed plan.now.layout self.old r) self.old }
    {
        // No `ok_or`, by which the whole route, that is lent on below, would be copied once more.
        let Some(route) = plan.route(r) else {
            return Err(FrameFault::NoSuchNumber.at(r));
        };
        let lever = self.levers[route.lever];
        check(lever == Lever::Normal, FrameFault::LeverThrown, r)?;
        check(out, FrameFault::ConsentHome, r)?;
        if let Some(p) = self.obstacle(plan, &route) {
            let fault = if self.points[p].is_trailed() {
                FrameFault::PointTrailed
            } else {
                FrameFault::PointElsewhere
            };
            return Err(fault.at(p));
        }
        self.levers[route.lever] = Lever::from(route.side);
        Ok(())
    }

    /// Holds the field of a set route.
    pub fn hold(&mut self, plan: &Plan, r: usize) -> Answer
        ensures answer { result ≡ hold_answer plan.now.layout self.old r }
        ensures after { self.new ≡ settled result (hold_changed plan.now.layout self.old r) self.old }
    {
        check(r < plan.counts().routes, FrameFault::NoSuchNumber, r)?;
        check(self.is_set(plan, r), FrameFault::RouteNotSet, r)?;
        check(!self.fields[r].is_held(), FrameFault::FieldHeld, r)?;
        check(self.fields[r] != Stage::Spent, FrameFault::ConsentSpent, r)?;
        self.fields[r] = Stage::Held;
        Ok(())
    }

    /// Pulls a signal lever for the signal's set route.
    pub fn pull(&mut self, plan: &Plan, g: usize) -> Answer
        ensures answer { result ≡ pull_answer plan.now.layout self.old g }
        ensures after { self.new ≡ settled result (pull_changed plan.now.layout self.old g) self.old }
    {
        check(g < plan.counts().signals, FrameFault::NoSuchNumber, g)?;
        check(!self.signals[g].is_pulled(), FrameFault::SignalPulled, g)?;
        let r = self
            .set_route_of(plan, g)
            .ok_or(FrameFault::NoSetRoute.at(g))?;
        check(self.fields[r].is_held(), FrameFault::FieldOpen, g)?;
        check(self.fields[r] != Stage::Run, FrameFault::ConsentSpent, g)?;
        let route = plan.route(r).unwrap();
        if let Some(p) = self.failure(plan, &route) {
            return Err(FrameFault::PointTrailed.at(p));
        }
        self.signals[g] = Arm::Clear;
        self.fields[r] = Stage::Cleared;
        Ok(())
    }

    /// Puts a signal lever back to normal.
    pub fn restore(&mut self, plan: &Plan, g: usize) -> Answer
        ensures answer { result ≡ restore_answer plan.now.layout self.old g }
        ensures after { self.new ≡ settled result (restore_changed plan.now.layout self.old g) self.old }
    {
        check(g < plan.counts().signals, FrameFault::NoSuchNumber, g)?;
        check(self.signals[g].is_pulled(), FrameFault::SignalNormal, g)?;
        self.signals[g] = Arm::Normal;
        Ok(())
    }

    /// The last axle has left the isolated rail of a route: its train has run, and its arm falls if it is at clear.
    pub fn contact(&mut self, plan: &Plan, r: usize) -> Answer
        ensures answer { result ≡ contact_answer plan.now.layout self.old r }
        ensures after { self.new ≡ settled result (contact_changed plan.now.layout self.old r) self.old }
    {
        check(r < plan.counts().routes, FrameFault::NoSuchNumber, r)?;
        let stage = self.fields[r];
        check(stage == Stage::Cleared, FrameFault::NoTrainAwaited, r)?;
        self.fields[r] = Stage::Run;
        self.drop_arm(plan, r);
        Ok(())
    }

    /// Releases a route's field; `whole` says whether the block's line is whole.
    pub fn release(&mut self, plan: &Plan, whole: bool, r: usize) -> Answer
        ensures answer { result ≡ release_answer plan.now.layout self.old whole r }
        ensures after { self.new ≡ settled result (release_changed plan.now.layout self.old r) self.old }
    {
        let route = plan.route(r).ok_or(FrameFault::NoSuchNumber.at(r))?;
        check(self.fields[r].is_held(), FrameFault::FieldOpen, r)?;
        let arm = self.signals[route.signal];
        check(!arm.is_pulled(), FrameFault::SignalPulled, r)?;
        match route.release {
            Release::Train => check(self.fields[r] == Stage::Run, FrameFault::TrainNotRun, r)?,
            Release::Station if !whole => from_block(Err(BlockFault::LineCut), r)?,
            Release::Station => {}
        }
        self.fields[r] = self.fields[r].released();
        Ok(())
    }

    /// Puts the lever of a set route back to normal.
    pub fn normal(&mut self, plan: &Plan, r: usize) -> Answer
        ensures answer { result ≡ normal_answer plan.now.layout self.old r }
        ensures after { self.new ≡ settled result (normal_changed plan.now.layout self.old r) self.old }
    {
        let route = plan.route(r).ok_or(FrameFault::NoSuchNumber.at(r))?;
        check(self.is_set(plan, r), FrameFault::RouteNotSet, r)?;
        check(!self.fields[r].is_held(), FrameFault::FieldHeld, r)?;
        self.levers[route.lever] = Lever::Normal;
        Ok(())
    }
}

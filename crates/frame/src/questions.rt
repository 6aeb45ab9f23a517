//! What a host asks of a frame that switches solenoids and lamps. A number that the plan lacks has nothing to show.
ghost use Rattle.std.specs.Prelude.{◌≡◌};
ghost use Rattle.block.specs.Meaning.{is_out};
ghost use Rattle.board.specs.Boards.{is_set, is_signalled};
ghost use Rattle.frame.specs.Questions.{arm_shown, field_shown, is_loaded, lever_shown, point_shown};
ghost use Rattle.frame.specs.Views.{view};

use crate::frame::Frame;
use block::interface::Block;
use board::board::{Arm, Lever, Point, Stage};

// `point`, `lever`, `field` and `arm` differ in the row that is asked: each is the library's `get`.
impl<B: Block> Frame<B> {
    /// Whether a plan is loaded.
    pub fn is_loaded(&self) -> bool
        ensures { result ≡ is_loaded (view B.meaning self.now) }
    {
        self.plan.counts().routes > 0
    }

    /// How a point stands.
    pub fn point(&self, p: usize) -> Option<Point>
        ensures { result ≡ point_shown (view B.meaning self.now) p }
    {
        let points = self.plan.counts().points;
        self.board.points[..points].get(p).copied()
    }

    /// How a route lever stands.
    pub fn lever(&self, v: usize) -> Option<Lever>
        ensures { result ≡ lever_shown (view B.meaning self.now) v }
    {
        let levers = self.plan.counts().levers;
        self.board.levers[..levers].get(v).copied()
    }

    /// How far a route's field has come.
    pub fn field(&self, r: usize) -> Option<Stage>
        ensures { result ≡ field_shown (view B.meaning self.now) r }
    {
        let routes = self.plan.counts().routes;
        self.board.fields[..routes].get(r).copied()
    }

    /// How a signal lever and its arm stand.
    pub fn arm(&self, g: usize) -> Option<Arm>
        ensures { result ≡ arm_shown (view B.meaning self.now) g }
    {
        let signals = self.plan.counts().signals;
        self.board.signals[..signals].get(g).copied()
    }

    /// Whether a route is set.
    pub fn is_set(&self, r: usize) -> bool
        ensures { result ≡ is_set self.now.plan.layout self.now.board r }
    {
        self.board.is_set(&self.plan, r)
    }

    /// Whether a route is set and its signal's arm is at clear.
    pub fn is_signalled(&self, r: usize) -> bool
        ensures { result ≡ is_signalled self.now.plan.layout self.now.board r }
    {
        self.is_set(r)
            && self
                .plan
                .route(r)
                .is_some_and(|route| self.board.signals[route.signal].is_clear())
    }

    /// Whether a route's consent is out.
    pub fn is_out(&self, r: usize) -> bool
        ensures { result ≡ is_out (B.meaning self.now.block) r }
    {
        self.block.is_out(r)
    }

    /// Whether the block's line is whole.
    pub fn is_whole(&self) -> bool
        ensures { result ≡ (B.meaning self.now.block).whole }
    {
        self.block.is_whole()
    }
}

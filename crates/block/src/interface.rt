//! What every make of block answers and does.
ghost use Rattle.std.specs.Prelude.{◌≡◌};
ghost use Rattle.block.specs.Meaning.{Meaning, WellFormed, any_out, is_out};
ghost use Rattle.block.specs.Calls.{cut_after, cut_answer, give_after, give_answer, mend_after, mend_answer, return_after, return_answer};

use crate::fault::BlockFault;
use crate::scan::any_below;
use basics::route_set::RouteSet;

/// A block: each route's consent is at home or out, and the line is whole or cut. A make of it is neither `Copy` nor
/// `Clone`, so that only its holder can work it.
pub trait Block {
    ghost meaning: { Self → Meaning };

    /// How many lines there are: routes are numbered below it.
    fn lines(&self) -> usize
        ensures { result ≡ (meaning self.now).lines };

    /// Whether a route's consent is out; a route beyond the lines is not.
    fn is_out(&self, route: usize) -> bool
        ensures { result ≡ is_out (meaning self.now) route };

    fn is_whole(&self) -> bool
        ensures { result ≡ (meaning self.now).whole };

    /// Whether the consent of any route of a set is out.
    #[tactic(auto, unfolding(crate::specs::Meaning::any_out))]
    fn any_out(&self, routes: &RouteSet) -> bool
        ensures { result ≡ any_out (meaning self.now) routes.now.members }
    {
        any_below(self.lines(), |route| routes.has(route) & self.is_out(route))
    }

    /// What a give would be answered.
    fn may_give(&self, route: usize, hostile: &RouteSet) -> Result<(), BlockFault>
        ensures { result ≡ give_answer (meaning self.now) route hostile.now.members }
    {
        if route >= self.lines() {
            return Err(BlockFault::BeyondLines);
        }
        if !self.is_whole() {
            return Err(BlockFault::LineCut);
        }
        if self.is_out(route) {
            return Err(BlockFault::AlreadyOut);
        }
        if self.any_out(hostile) {
            return Err(BlockFault::HostileOut);
        }
        Ok(())
    }

    /// What a return would be answered.
    // Its first two tests are those of a give, said again so that each call has its list.
    fn may_take_back(&self, route: usize) -> Result<(), BlockFault>
        ensures { result ≡ return_answer (meaning self.now) route }
    {
        if route >= self.lines() {
            return Err(BlockFault::BeyondLines);
        }
        if !self.is_whole() {
            return Err(BlockFault::LineCut);
        }
        if !self.is_out(route) {
            return Err(BlockFault::NotOut);
        }
        Ok(())
    }

    /// Gives a route's consent, unless that of a hostile route is out.
    fn give(&mut self, route: usize, hostile: &RouteSet) -> Result<(), BlockFault>
        ensures answer { result ≡ give_answer (meaning self.old) route hostile.now.members }
        ensures after { meaning self.new ≡ give_after (meaning self.old) route hostile.now.members };

    /// Returns a route's consent.
    fn take_back(&mut self, route: usize) -> Result<(), BlockFault>
        ensures answer { result ≡ return_answer (meaning self.old) route }
        ensures after { meaning self.new ≡ return_after (meaning self.old) route };

    fn cut(&mut self) -> Result<(), BlockFault>
        ensures answer { result ≡ cut_answer (meaning self.old) }
        ensures after { meaning self.new ≡ cut_after (meaning self.old) };

    fn mend(&mut self) -> Result<(), BlockFault>
        ensures answer { result ≡ mend_answer (meaning self.old) }
        ensures after { meaning self.new ≡ mend_after (meaning self.old) };

    ghost formed: { (b : Self) → WellFormed (meaning b) };
}

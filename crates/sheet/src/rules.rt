//! The rules of a whole plan, tested once all of its fields are read.
ghost use Rattle.std.specs.Prelude.{◌≡◌, ◌<◌, ◌≤◌};
ghost use Rattle.sheet.specs.Decode.{accepted, judged, refuse, ruled};
ghost use Rattle.sheet.specs.Rules.{breaks, extent_of, flaw_of, lowest_broken, shared};

use crate::fault::{Flaw, SheetFault};
use crate::layout::Layout;

/// Each is asked of one route, lever or signal at a time. A value and no closure, since a sheet's survey and what is said of
/// it speak of each rule by name.
#[derive(Clone, Copy)]
pub(crate) enum PlanRule {
    OneRouteASide,
    LeversServe,
    SignalsServe,
}

impl PlanRule {
    pub(crate) fn flaw(self) -> Flaw
        ensures { result ≡ flaw_of self }
    {
        match self {
            PlanRule::OneRouteASide => Flaw::SharedLever,
            PlanRule::LeversServe => Flaw::IdleLever,
            PlanRule::SignalsServe => Flaw::IdleSignal,
        }
    }

    // How many routes, levers or signals it is asked of.
    pub(crate) fn extent(self, layout: &Layout) -> usize
        ensures { result ≡ extent_of layout.now self }
    {
        match self {
            PlanRule::OneRouteASide => layout.counts.routes,
            PlanRule::LeversServe => layout.counts.levers,
            PlanRule::SignalsServe => layout.counts.signals,
        }
    }

    // Whether there is a route, lever or signal `k` and it breaks it.
    pub(crate) fn is_broken(self, layout: &Layout, k: usize) -> bool
        requires { layout.now.counts.routes ≤ 32 }
        ensures { result ≡ breaks layout.now self k }
    {
        let routes = layout.routes();
        k < self.extent(layout)
            && match self {
                PlanRule::OneRouteASide => shares_lever(layout, k),
                PlanRule::LeversServe => !routes.iter().any(|route| route.lever == k),
                PlanRule::SignalsServe => !routes.iter().any(|route| route.signal == k),
            }
    }

    // The lowest route, lever or signal that breaks it.
    fn first_broken(self, layout: &Layout) -> Option<usize>
        requires { layout.now.counts.routes ≤ 32 }
        ensures { result ≡ lowest_broken layout.now self }
    {
        (0..self.extent(layout)).find(|k| self.is_broken(layout, *k))
    }

    fn test(self, layout: &Layout) -> Result<(), SheetFault>
        requires { layout.now.counts.routes ≤ 32 }
        ensures { judged layout.now result ≡ refuse self (lowest_broken layout.now self) (accepted layout.now) }
    {
        self.first_broken(layout)
            .map_or(Ok(()), |place| Err(self.flaw().at(place)))
    }
}

// Whether a lower route has the lever and the side of route `r`.
fn shares_lever(layout: &Layout, r: usize) -> bool
    requires { r < 32 }
    ensures { result ≡ shared layout.now r }
{
    let route = &layout.routes[r];
    layout.routes[..r].iter().any(|lower| (lower.lever, lower.side) == (route.lever, route.side))
}

// The rules in their order.
pub(crate) fn judge(layout: &Layout) -> Result<(), SheetFault>
    requires { layout.now.counts.routes ≤ 32 }
    ensures { judged layout.now result ≡ ruled layout.now }
{
    PlanRule::OneRouteASide.test(layout)?;
    PlanRule::LeversServe.test(layout)?;
    PlanRule::SignalsServe.test(layout)
}

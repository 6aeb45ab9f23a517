//! What a plan can be asked.
ghost use Rattle.std.specs.Prelude.{◌≡◌};
ghost use Rattle.sheet.specs.Layouts.{blank_layout};
ghost use Rattle.sheet.specs.Plans.{route_given};

use crate::layout::{Counts, Layout, NO_ROUTE, Route};
use crate::plan::Plan;

impl Plan {
    /// The plan with nothing in it.
    pub fn blank() -> Plan
        ensures { result.layout ≡ blank_layout }
    {
        Plan {
            layout: Layout {
                counts: Counts {
                    points: 0,
                    signals: 0,
                    levers: 0,
                    routes: 0,
                },
                routes: [NO_ROUTE; 32],
            },
        }
    }

    /// How many there are of each thing.
    pub fn counts(&self) -> Counts
        ensures { result ≡ self.now.layout.counts }
    {
        self.layout.counts
    }

    /// The route of that number, if there is one.
    pub fn route(&self, r: usize) -> Option<Route>
        ensures { result ≡ route_given self.now.layout r }
    {
        self.layout.routes().get(r).copied()
    }
}

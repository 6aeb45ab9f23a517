//! A plan: blank, or one that has passed every rule of the sheet.
ghost use Rattle.sheet.specs.Valid.{Apart, Bare, Few, LeversServed, SignalsServed, Sound, Within};

use crate::layout::Layout;

/// Only a sheet makes one, or `Plan::blank`; the ghost fields say what every plan keeps.
#[derive(Clone, Copy)]
pub struct Plan {
    pub(crate) layout: Layout,
    ghost few: { Few layout.counts },
    ghost bare: { Bare layout },
    ghost within: { Within layout },
    ghost apart: { Apart layout },
    ghost levers_served: { LeversServed layout },
    ghost signals_served: { SignalsServed layout },
    ghost sound: { Sound layout },
}

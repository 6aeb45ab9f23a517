//! From a sheet's bytes to its plan.
ghost use Rattle.std.specs.Prelude.{◌≡◌, ◌-◌, ◌*◌, ◌<◌, ◌≤◌, IfOk};
ghost use Rattle.sheet.specs.Bits.{Reads};
ghost use Rattle.sheet.specs.Decode.{decode, drawn};
ghost use Rattle.sheet.specs.Encode.{sheet_of};
ghost use Rattle.sheet.specs.Fields.{counts_at, layout_at, route_at, routes_at, row_at};
ghost use Rattle.sheet.specs.Plans.{answered};
ghost use Rattle.sheet.specs.Valid.{Few, Valid, Within, WithinTo};

use crate::bits::BitReader;
use crate::coded::Coded;
use crate::fault::SheetFault;
use crate::layout::{Counts, Layout, NO_ROUTE, Route};
use crate::plan::Plan;
use crate::rules::judge;
use std::ops::Range;

fn counts(bits: &mut BitReader) -> Result<Counts, SheetFault>
    requires { bits.old.at ≤ 4 }
    ensures read { Reads bits.old result bits.new counts_at 23 }
    ensures within { IfOk result (λ c. Few c × (0 < c.routes)) }
{
    let points = bits.count(6, 0, 32)?;
    let signals = bits.count(6, 1, 32)?;
    let levers = bits.count(5, 1, 16)?;
    let routes = bits.count(6, 1, 32)?;
    Ok(Counts {
        points,
        signals,
        levers,
        routes,
    })
}

// A row with a code at each of some places, and a blank at the others.
fn row<T: Coded>(
    bits: &mut BitReader,
    blank: T,
    places: Range<usize>,
) -> Result<[T; 32], SheetFault>
    requires near { bits.old.at ≤ 3900 }
    requires places { (places.start ≤ places.end) × (places.end ≤ 32) }
    ensures { Reads bits.old result bits.new (row_at T.WIDTH T.value_of blank places.start places.end) (T.WIDTH * (places.end - places.start)) }
{
    // Room for the most places, as in a `Route`.
    let mut row = [blank; 32];
    // By number: no proof is made of a loop over `&mut row[places]` for any `T`.
    for k in places.start..places.end {
        row[k] = bits.coded()?;
    }
    Ok(row)
}

fn route(bits: &mut BitReader, counts: Counts, r: usize) -> Result<Route, SheetFault>
    requires near { bits.old.at ≤ 3800 }
    requires few { Few counts }
    requires here { r < counts.routes }
    ensures read { Reads bits.old result bits.new (route_at counts r) 107 }
    ensures within { IfOk result (λ y. (y.lever < counts.levers) × (y.signal < counts.signals)) }
{
    let lever = bits.number(4, counts.levers)?;
    let side = bits.coded()?;
    let signal = bits.number(5, counts.signals)?;
    let release = bits.coded()?;
    let demands = row(bits, None, 0..counts.points)?;
    let named = row(bits, false, r + 1..counts.routes)?;
    Ok(Route {
        lever,
        side,
        signal,
        release,
        demands,
        named,
    })
}

fn routes(bits: &mut BitReader, counts: Counts) -> Result<[Route; 32], SheetFault>
    requires near { bits.old.at ≤ 27 }
    requires few { Few counts }
    ensures read { Reads bits.old result bits.new (routes_at counts) 3424 }
    ensures within { IfOk result (WithinTo counts.routes counts) }
{
    // Room for the most routes, as in a `Layout`.
    let mut rows = [NO_ROUTE; 32];
    let front = &mut rows[..counts.routes];
    for (k, place) in front.iter_mut().enumerate() {
        *place = route(bits, counts, k)?;
    }
    Ok(rows)
}

pub(crate) fn layout(bits: &mut BitReader) -> Result<Layout, SheetFault>
    requires { bits.old.at ≡ 0 }
    ensures read { Reads bits.old result bits.new layout_at 3458 }
    ensures within { IfOk result (λ l. Few l.counts × (0 < l.counts.routes) × Within l) }
{
    bits.edition()?;
    let counts = counts(bits)?;
    let routes = routes(bits, counts)?;
    bits.filling()?;
    Ok(Layout { counts, routes })
}

// What a sheet says once it has passed the rules.
fn valid_layout(sheet: &[u8]) -> Result<Layout, SheetFault>
    ensures outcome { drawn result ≡ decode sheet.now }
    ensures valid { IfOk result Valid }
    ensures again { IfOk result (λ l. sheet_of l ≡ sheet.now) }
{
    let mut bits = BitReader::new(sheet);
    let layout = layout(&mut bits)?;
    judge(&layout)?;
    Ok(layout)
}

// Apart from `read`, so that a wrong one is refused where it stands.
fn valid_plan(sheet: &[u8]) -> Result<Plan, SheetFault>
    ensures outcome { answered result ≡ decode sheet.now }
    ensures again { IfOk result (λ p. sheet_of p.layout ≡ sheet.now) }
{
    let layout = valid_layout(sheet)?;
    Ok(Plan { layout })
}

/// The plan that a sheet says, or its first fault; the sheet of that plan is this sheet, bit for bit.
pub fn read(sheet: &[u8]) -> Result<Plan, SheetFault>
    ensures outcome { answered result ≡ decode sheet.now }
    ensures again { IfOk result (λ p. sheet_of p.layout ≡ sheet.now) }
    ensures kept { sheet.exit.now ≡ sheet.entry.now }
{
    valid_plan(sheet)
}

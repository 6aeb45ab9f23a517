//! A fault in plain words.
ghost use Rattle.std.specs.Prelude.{◌≡◌, ◌<◌, Some};
ghost use Rattle.std.specs.Option.{option_map};
ghost use Rattle.survey.specs.Words.{counted_by, fault_line, fault_lines, holding, meaning_of, part_of, route_holding, spot_of};

use sheet::fault::{Flaw, SheetFault};
use std::fmt;

// A function, as `Flaw` is another crate's and can have no Display of this one.
fn meaning(flaw: Flaw) -> &'static str
    ensures { result.now ≡ meaning_of flaw }
{
    match flaw {
        Flaw::EndsInside => "the sheet ends inside the field that begins here",
        Flaw::WrongEdition => "the edition is not 1",
        Flaw::CountOutside =>
            "this count is outside its limits (points 0 to 32, signals 1 to 32, route levers 1 to 16, routes 1 to 32)",
        Flaw::NumberTooHigh => "a route names a lever or a signal here that the plan has not",
        Flaw::BadPointCode => "this point has the code 3 (nothing is 0, plus is 1, minus is 2)",
        Flaw::BadFilling =>
            "the sheet is over here: only zeros may follow, and only up to a whole byte",
        Flaw::SharedLever => "a lower route has the same lever and side",
        Flaw::IdleLever | Flaw::IdleSignal => "no route uses it",
        Flaw::BlankPlan => "a blank plan has no sheet",
        Flaw::NoRoom => "the buffer is too short",
    }
}

// What a fault's place counts, where that is not bits. A function, as `meaning` is.
fn counted(flaw: Flaw) -> Option<&'static str>
    ensures { option_map (λ x. x.now) result ≡ counted_by flaw }
{
    match flaw {
        Flaw::SharedLever => Some("route"),
        Flaw::IdleLever => Some("route lever"),
        Flaw::IdleSignal => Some("signal"),
        _ => None,
    }
}

// The route whose fields have a bit, of the counts of points and routes.
fn route_at(points: usize, routes: usize, bit: usize) -> Option<usize>
    requires { (points < 64) × (routes < 64) }
    ensures { result ≡ holding points routes bit routes 0 27 }
{
    // A loop, since a route's fields end at a running sum, which `scan` would keep in a closure.
    let mut end = 27;
    for r in 0..routes {
        end += 11 + 2 * points + (routes - (r + 1));
        if bit < end {
            return Some(r);
        }
    }
    None
}

fn route_holding(sheet: &[u8], bit: usize) -> Option<usize>
    ensures { result ≡ route_holding sheet.now bit }
{
    let [a, b, c, d, ..] = sheet else {
        return None;
    };
    let points = usize::from(*a % 16) * 4 + usize::from(*b / 64);
    let routes = usize::from(*c % 8) * 8 + usize::from(*d / 32);
    route_at(points, routes, bit)
}

/// A bit of a sheet, shown as the part of the sheet that it stands in.
#[derive(Drop)]
struct Part<'a> {
    sheet: &'a [u8],
    bit: usize,
}

impl fmt::Display for Part<'_> {
    ghost output = { λ part. Some (part_of part.sheet.now part.bit) };

    #[tactic(auto, unfolding(crate::specs::Words::part_of))]
    fn fmt<W: fmt::Write>(&self, f: &mut fmt::Formatter<W>) -> fmt::Result {
        if self.bit < 27 {
            return write!(f, "in the head");
        }
        match route_holding(self.sheet, self.bit) {
            Some(route) => write!(f, "in route {route}"),
            None => write!(f, "after the last route"),
        }
    }
}

/// Where a fault stands: the route, lever or signal, or a bit with its byte and its part of the sheet.
#[derive(Drop)]
struct Spot<'a> {
    sheet: &'a [u8],
    fault: SheetFault,
}

impl fmt::Display for Spot<'_> {
    ghost output = { λ spot. Some (spot_of spot.sheet.now spot.fault) };

    fn fmt<W: fmt::Write>(&self, f: &mut fmt::Formatter<W>) -> fmt::Result {
        let place = self.fault.place;
        if let Some(thing) = counted(self.fault.flaw) {
            return write!(f, "{thing} {place}");
        }
        let byte = place / 8;
        let bit = place % 8;
        let part = Part {
            sheet: self.sheet,
            bit: place,
        };
        write!(
            f,
            "bit {place} (byte {byte}, bit {bit} from its top, {part})"
        )
    }
}

/// The line of a report for a fault of a sheet.
#[derive(Drop)]
struct FaultLine<'a>(Spot<'a>);

impl fmt::Display for FaultLine<'_> {
    ghost output = { λ line. Some (fault_line line.0.sheet.now line.0.fault) };

    fn fmt<W: fmt::Write>(&self, f: &mut fmt::Formatter<W>) -> fmt::Result {
        let Spot { fault, .. } = &self.0;
        let number = fault.flaw.number();
        let meaning = meaning(fault.flaw);
        writeln!(f, "fault {number} at {}: {meaning}", self.0)
    }
}

/// A line for each fault of a sheet.
#[derive(Drop)]
pub(crate) struct FaultLines<'s, 'f> {
    pub sheet: &'s [u8],
    pub faults: &'f [SheetFault],
}

impl fmt::Display for FaultLines<'_, '_> {
    ghost output = { λ lines. Some (fault_lines lines.sheet.now lines.faults.now) };

    fn fmt<W: fmt::Write>(&self, f: &mut fmt::Formatter<W>) -> fmt::Result {
        for fault in self.faults {
            let spot = Spot {
                sheet: self.sheet,
                fault: *fault,
            };
            write!(f, "{}", FaultLine(spot))?;
        }
        Ok(())
    }
}

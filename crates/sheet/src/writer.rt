//! From a plan to the bytes of its sheet.
ghost use Rattle.std.specs.Prelude.{◌≡◌, ◌+◌, ◌-◌, ◌*◌, ◌/◌, ◌<◌, ◌≤◌, length, take, replicate, IfOk};
ghost use Rattle.sheet.specs.Decode.{accepted, decode};
ghost use Rattle.sheet.specs.Encode.{encode, filled, head_bits, route_bits, routes_bits, sheet_of, size_of};
ghost use Rattle.sheet.specs.Valid.{Few};
ghost use Rattle.sheet.specs.Writing.{HasRoom, Wrote, writing, written};

use crate::bit_writer::BitWriter;
use crate::fault::{Flaw, SheetFault};
use crate::layout::{Counts, Layout, Route};
use crate::plan::Plan;

fn put_head(w: &mut BitWriter, counts: Counts)
    requires start { w.old.at ≡ 0 }
    requires room { HasRoom w.old 27 }
    ensures { Wrote w.old w.new (head_bits counts) }
{
    w.put(4, 1);
    w.put(6, counts.points);
    w.put(6, counts.signals);
    w.put(5, counts.levers);
    w.put(6, counts.routes);
}

fn put_route(w: &mut BitWriter, counts: Counts, route: &Route, r: usize)
    requires few { Few counts }
    requires here { r < counts.routes }
    requires room { HasRoom w.old (length (route_bits counts route.now r)) }
    ensures { Wrote w.old w.new (route_bits counts route.now r) }
{
    w.put(4, route.lever);
    w.put_coded(route.side);
    w.put(5, route.signal);
    w.put_coded(route.release);
    w.put_row(&route.demands[..counts.points]);
    // For each higher route, whether the pair is named hostile.
    w.put_row(&route.named[r + 1..counts.routes]);
}

fn put_routes(w: &mut BitWriter, layout: &Layout)
    requires few { Few layout.now.counts }
    requires room { HasRoom w.old (length (routes_bits layout.now)) }
    ensures { Wrote w.old w.new (routes_bits layout.now) }
{
    for (r, route) in layout.routes[..layout.counts.routes].iter().enumerate() {
        put_route(w, layout.counts, route, r);
    }
}

// Zeros up to a whole byte.
fn put_filling(w: &mut BitWriter)
    requires room { (w.old.at + 7) / 8 ≤ length w.old.out.now }
    requires near { w.old.at ≤ 3990 }
    ensures { Wrote w.old w.new (replicate ((w.old.at + 7) / 8 * 8 - w.old.at) 0) }
{
    let end = (w.at + 7) / 8 * 8;
    w.put(end - w.at, 0);
}

fn put_sheet(w: &mut BitWriter, layout: &Layout)
    requires start { w.old.at ≡ 0 }
    requires few { Few layout.now.counts }
    requires room { (length (encode layout.now) + 7) / 8 ≤ length w.old.out.now }
    requires near { length (encode layout.now) ≤ 3990 }
    ensures { Wrote w.old w.new (filled (encode layout.now)) }
{
    put_head(w, layout.counts);
    put_routes(w, layout);
    put_filling(w);
}

// How many bits a plan's sheet has before the filling.
fn size(counts: Counts) -> usize
    requires { Few counts }
    ensures value { result ≡ size_of counts }
    ensures small { result ≤ 2923 }
{
    let n = counts.routes;
    27 + 11 * n + 2 * n * counts.points + n * n.saturating_sub(1) / 2
}

impl Plan {
    // The same in whole bytes. Apart from `sheet_len`, as `write_sheet` is from `write`, so that a wrong one is refused where it stands.
    fn sheet_bytes(&self) -> usize
        ensures formula { result ≡ (size_of self.now.layout.counts + 7) / 8 }
        ensures whole { result ≡ length (sheet_of self.now.layout) }
    {
        (size(self.layout.counts) + 7) / 8
    }

    // The sheet into the front of a buffer, if it fits.
    fn write_sheet(&self, out: &mut [u8]) -> Result<usize, SheetFault>
        ensures written { written result out.new ≡ writing self.now.layout out.old }
        ensures back { IfOk result (λ n. decode (take n out.new) ≡ accepted self.now.layout) }
    {
        if self.layout.counts.routes == 0 {
            return Err(Flaw::BlankPlan.at(0));
        }
        let bytes = self.sheet_bytes();
        if out.len() < bytes {
            return Err(Flaw::NoRoom.at(0));
        }
        let mut w = BitWriter { out, at: 0 };
        put_sheet(&mut w, &self.layout);
        Ok(bytes)
    }

    /// How many bytes the plan's sheet has.
    pub fn sheet_len(&self) -> usize
        ensures formula { result ≡ (size_of self.now.layout.counts + 7) / 8 }
        ensures whole { result ≡ length (sheet_of self.now.layout) }
    {
        self.sheet_bytes()
    }

    /// Writes the plan's sheet to the front of a buffer and answers its length in bytes; read again, it is this plan.
    /// A blank plan and a buffer that is too short are refused, and leave the buffer as it was.
    pub fn write(&self, buffer: &mut [u8]) -> Result<usize, SheetFault>
        ensures written { written result buffer.new ≡ writing self.now.layout buffer.old }
        ensures back { IfOk result (λ n. decode (take n buffer.new) ≡ accepted self.now.layout) }
    {
        self.write_sheet(buffer)
    }
}

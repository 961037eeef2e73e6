// A datagram, written into a lent row of bytes.
#![tactic(auto)]

ghost use Rattle.std.specs.Prelude.{◌≡◌, ◌+◌, ◌*◌, ◌≤◌, ◌<◌, [], length, take};
ghost use Rattle.varint.specs.Laid.{Laid, Room};
ghost use Rattle.types.specs.Wire.{delimited};
ghost use Rattle.gossips.specs.Gossip.{gossip_bytes_of};
ghost use Rattle.incoming.specs.Encode.{other_bytes, gossip_fields, encode};
ghost use Rattle.outgoing.specs.Outgoing.{open_of, addresses_of, head_of, headed_of, written_of, row_after, Sends};

use address::Address;
use model::Refusal;
use types::{Action, Gossip, Optional};

// How many bytes were written; or why none was.
#[derive(Clone, Copy)]
pub enum Writing {
    Whole(usize),
    Refused(Refusal),
}

// An action taken apart.
#[derive(Clone, Copy)]
pub struct Opened {
    pub kind: u64,
    pub from: Address,
    pub other: Optional,
}

fn parts_of(a: Action) -> Opened
    ensures { result ≡ open_of a }
{
    match a {
        Action::Ping { from, requested_by } => Opened {
            kind: 1,
            from,
            other: requested_by,
        },
        Action::PingReq { from, suspect } => {
            let other = Optional::Given(suspect);
            Opened {
                kind: 2,
                from,
                other,
            }
        }
        Action::Ack { from, forward_to } => Opened {
            kind: 3,
            from,
            other: forward_to,
        },
    }
}

fn wide(n: u64) -> usize
    ensures { result ≡ n }
{
    n as usize
}

// How many bytes the other address takes.
fn other_len(o: Optional) -> usize
    ensures { (result ≡ length (other_bytes o)) × (result ≤ 129) }
{
    match o {
        Optional::Absent => 0,
        Optional::Given(b) => 2 + wide(address::text_len(b)),
    }
}

// How many bytes the first gossip records of a row take.
fn gossips_len(row: [Gossip; 64], n: usize) -> usize
    requires { n ≤ 64 }
    ensures { (result ≡ length (gossip_fields (take n row))) × (result ≤ 129 * n) }
{
    let mut sum: usize = 0;
    let mut i: usize = 0;
    while i < n {
        let g = row[i];
        sum += 2 + wide(gossips::len(g));
        i += 1;
    }
    sum
}

fn write_other(out: &mut [u8], at: usize, o: Optional) -> usize
    requires { Room out.old at (other_bytes o) }
    ensures { Laid out.old at (other_bytes o) out.new result }
{
    match o {
        Optional::Absent => at,
        Optional::Given(b) => events::write_text(out, at, 2, b),
    }
}

fn write_gossip(out: &mut [u8], at: usize, g: Gossip) -> usize
    requires { Room out.old at (delimited 3 (gossip_bytes_of g)) }
    ensures { Laid out.old at (delimited 3 (gossip_bytes_of g)) out.new result }
{
    let count = varint::write(out, at, 26);
    let start = varint::write(out, count, gossips::len(g));
    gossips::write(out, start, g)
}

fn write_gossips(out: &mut [u8], at: usize, row: [Gossip; 64], n: usize) -> usize
    requires { (n ≤ 64) × Room out.old at (gossip_fields (take n row)) }
    ensures { Laid out.old at (gossip_fields (take n row)) out.new result }
{
    let mut next = at;
    let mut i: usize = 0;
    while i < n {
        let g = row[i];
        next = write_gossip(out, next, g);
        i += 1;
    }
    next
}

fn write_addresses(out: &mut [u8], at: usize, from: Address, o: Optional) -> usize
    requires { Room out.old at (addresses_of from o) }
    ensures { Laid out.old at (addresses_of from o) out.new result }
{
    let second = events::write_text(out, at, 1, from);
    write_other(out, second, o)
}

// What stands before the records of a datagram, if there is room for it and for the `rest` bytes that they take.
fn write_head(out: &mut [u8], a: Action, rest: usize) -> Writing
    requires { rest ≤ 8256 }
    ensures { (result ≡ headed_of (head_of a rest) rest out.old) × (out.new ≡ row_after (headed_of (head_of a rest) rest out.old) (head_of a rest) out.old) }
{
    let o = parts_of(a);
    let other = o.other;
    let inside = 2 + wide(address::text_len(o.from)) + other_len(other) + rest;
    let head = 1 + wide(types::varint_len(inside as u64));
    if out.len() < head + inside {
        return Writing::Refused(Refusal::NoRoom);
    }
    let count = varint::write(out, 0, o.kind * 8 + 2);
    let start = varint::write(out, count, inside as u64);
    let end = write_addresses(out, start, o.from, other);
    Writing::Whole(end)
}

// The datagram of an action and the first gossip records of a row, if there is room for all of it.
fn write(out: &mut [u8], a: Action, row: [Gossip; 64], n: usize) -> Writing
    requires { n ≤ 64 }
    ensures { (result ≡ written_of (encode a (take n row)) out.old) × (out.new ≡ row_after (written_of (encode a (take n row)) out.old) (encode a (take n row)) out.old) }
{
    let head = write_head(out, a, gossips_len(row, n));
    match head {
        Writing::Refused(refusal) => Writing::Refused(refusal),
        Writing::Whole(at) => {
            let end = write_gossips(out, at, row, n);
            Writing::Whole(end)
        },
    }
}

// An action without records, written: 5, then 12. No row is handed over for it, since that would take longer than the writing.
pub fn send_bare(out: &mut [u8], action: Action) -> Writing
    ensures { Sends action [] 0 out.old result out.new }
{
    if !ranges::valid_action(action) {
        return Writing::Refused(Refusal::AddressRange);
    }
    write_head(out, action, 0)
}

// An action and n records, of which the first 64 stand in a row, written: 4, 5, then 12.
pub fn send(out: &mut [u8], action: Action, row: [Gossip; 64], n: usize) -> Writing
    ensures { Sends action row n out.old result out.new }
{
    if 64 < n {
        return Writing::Refused(Refusal::ManyRecords);
    }
    if n == 0 {
        return send_bare(out, action);
    }
    if !ranges::valid_action(action) {
        return Writing::Refused(Refusal::AddressRange);
    }
    if !ranges::valid_rows(row, n) {
        return Writing::Refused(Refusal::AddressRange);
    }
    write(out, action, row, n)
}

// A whole datagram: one of three actions, by its field number.
#![tactic(auto)]

pub mod bare;

ghost use Rattle.std.specs.Prelude.{◌≡◌, ◌+◌, ◌^◌, ◌≤◌, ◌<◌, length, replicate};
ghost use Rattle.types.specs.Views.{no_gossip};
ghost use Rattle.incoming.specs.Datagram.{action_of, judge_of, unspoken as unspoken_of, resumed_at, malformed_of, Decodes, told_of, given_of, Takes};

use actions::Small;
use address::Address;
use fields::{Field, Next};
use iptext::Text;
use model::Refusal;
use types::{Action, Event, Gossip, Optional};

// What a datagram says: where it is malformed, which is its length if an action or an address is missing or not canonical; or an action.
#[derive(Clone, Copy)]
pub enum Decoded {
    Malformed(usize),
    Whole(Action),
}

// The action, the first of its gossip, and how much there is: 65 for more than 64.
#[derive(Clone, Copy)]
pub struct Datagram {
    pub answer: Decoded,
    pub count: usize,
    pub row: [Gossip; 65],
}

// What a host is told of a datagram: its action with the count of its records, where it is malformed, or another refusal.
#[derive(Clone, Copy)]
pub enum Reading {
    Whole { action: Action, count: usize },
    Malformed(usize),
    Refused(Refusal),
}

// The same with the records that the host is given.
#[derive(Clone, Copy)]
pub struct Taken {
    pub count: usize,
    pub row: [Gossip; 65],
    pub answer: Reading,
}

// An action whose addresses are all there, or not.
#[derive(Clone, Copy)]
pub enum Made {
    Missing,
    Whole(Action),
}

// The texts of an action that has no other field, its sender's first; or it is longer.
#[derive(Clone, Copy)]
pub enum Texts {
    Longer,
    Both { from: Text, other: Text },
}

// What a datagram says that is one action without records; or it is longer.
#[derive(Clone, Copy)]
pub enum Brief {
    Longer,
    Told(Decoded),
}

impl Brief {
    // Of such a datagram: three keys and counts, and two texts of at most 47 bytes.
    pub const LONGEST: usize = 100;
}

// The action of a kind. A ping's and an ack's other address may be missing.
fn action_of(kind: u64, from: Address, other: Text) -> Made
    ensures { result ≡ action_of kind from other }
{
    match other {
        Text::Malformed => Made::Missing,
        Text::Empty => match kind {
            1 => Made::Whole(Action::Ping {
                from,
                requested_by: Optional::Absent,
            }),
            2 => Made::Missing,
            _ => Made::Whole(Action::Ack {
                from,
                forward_to: Optional::Absent,
            }),
        },
        Text::Given(b) => match kind {
            1 => Made::Whole(Action::Ping {
                from,
                requested_by: Optional::Given(b),
            }),
            2 => Made::Whole(Action::PingReq { from, suspect: b }),
            _ => Made::Whole(Action::Ack {
                from,
                forward_to: Optional::Given(b),
            }),
        },
    }
}

// What the fields of a whole datagram of some length come to.
pub fn judged(kind: u64, s: Small, len: usize) -> Decoded
    ensures { result ≡ judge_of kind s.from s.other s.bad len }
{
    if kind == 0 {
        return Decoded::Malformed(len);
    }
    let first = s.from;
    let other = s.other;
    match first {
        Text::Empty => Decoded::Malformed(len),
        Text::Malformed => Decoded::Malformed(len),
        Text::Given(from) => match action_of(kind, from, other) {
            Made::Missing => Decoded::Malformed(len),
            Made::Whole(action) => {
                if s.bad {
                    return Decoded::Malformed(len);
                }
                Decoded::Whole(action)
            }
        },
    }
}

// Nothing is said yet.
fn unspoken() -> Small
    ensures { result ≡ unspoken_of }
{
    Small {
        from: Text::Empty,
        other: Text::Empty,
        bad: false,
        count: 0,
    }
}

// An action of the kind that is held is merged into it; one of another kind takes its place.
fn resumed(kind: u64, s: Small, number: u64) -> Small
    ensures { result ≡ resumed_at kind s number }
{
    if kind == number {
        return s;
    }
    unspoken()
}

// A row of no gossip.
fn blank() -> [Gossip; 65]
    ensures { result ≡ replicate 65 no_gossip }
{
    let nothing = Gossip {
        event: Event::Nothing,
    };
    [nothing; 65]
}

// Reading stopped at a place.
fn malformed(place: usize, row: [Gossip; 65]) -> Datagram
    ensures { result ≡ malformed_of place row }
{
    Datagram {
        answer: Decoded::Malformed(place),
        count: 0,
        row,
    }
}

// A datagram, read.
fn decode(bytes: &[u8]) -> Datagram
    ensures { Decodes bytes.now result }
{
    let mut row = blank();
    let mut small = unspoken();
    let mut kind: u64 = 0;
    let mut at: usize = 0;
    while at < bytes.len() {
        let rest = &bytes[at..];
        let Next::Found(f) = fields::first(rest) else {
            return malformed(at, row);
        };
        let size = f.size;
        let number = f.number;
        if 3 < number {
            at += size;
            continue;
        }
        if f.wire != 2 {
            return malformed(at, row);
        }
        let head = f.head;
        let acted = actions::merge(
            &rest[head..size],
            at + head,
            resumed(kind, small, number),
            row,
        );
        if acted.stopped {
            return malformed(acted.place, row);
        }
        small = acted.small;
        row = acted.row;
        kind = number;
        at += size;
    }
    Datagram {
        answer: judged(kind, small, bytes.len()),
        count: small.count,
        row,
    }
}

// 11, then 4 if there are more than 64 records.
fn told(d: Decoded, count: usize) -> Reading
    ensures { result ≡ told_of d count }
{
    match d {
        Decoded::Malformed(place) => Reading::Malformed(place),
        Decoded::Whole(action) => {
            if 64 < count {
                return Reading::Refused(Refusal::ManyRecords);
            }
            Reading::Whole { action, count }
        }
    }
}

// How many records a host is given: none of what is refused.
fn given(r: Reading) -> usize
    ensures { result ≡ given_of r }
{
    match r {
        Reading::Whole { action, count } => count,
        Reading::Malformed(place) => 0,
        Reading::Refused(refusal) => 0,
    }
}

// What a host is told that lends some places for records: 3 if they are fewer than 64, then 11, then 4.
pub fn read(bytes: &[u8], places: usize) -> Taken
    ensures { Takes bytes.now places result }
{
    if places < 64 {
        return Taken {
            count: 0,
            row: blank(),
            answer: Reading::Refused(Refusal::ShortRow),
        };
    }
    match bare::read(bytes) {
        Brief::Told(decoded) => {
            return Taken {
                count: 0,
                row: blank(),
                answer: told(decoded, 0),
            };
        }
        Brief::Longer => {}
    }
    let d = decode(bytes);
    let decoded = d.answer;
    let row = d.row;
    let answer = told(decoded, d.count);
    Taken {
        count: given(answer),
        row,
        answer,
    }
}

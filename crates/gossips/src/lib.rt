// A gossip record's message: one of four events, by its field number, or none.
#![tactic(auto)]

ghost use Rattle.std.specs.Prelude.{◌≡◌, ◌+◌, ◌^◌, ◌≤◌, ◌<◌, length};
ghost use Rattle.fields.specs.Walk.{walk};
ghost use Rattle.fields.specs.FieldLaws.{Lies};
ghost use Rattle.varint.specs.Laid.{Laid, Room};
ghost use Rattle.events.specs.Event.{unsaid as unsaid_of};
ghost use Rattle.gossips.specs.Gossip.{started as started_at, gossip_step, as_read, unheld, settled, made as made_of, gossip_bytes_of};

use address::Address;
use events::{Merged, Said};
use fields::{Field, Next};
use iptext::Text;
use types::{Event, Gossip};

// The event held so far: its kind, 0 for none, and what its fields say.
#[derive(Clone, Copy)]
pub struct Held {
    pub kind: u64,
    pub said: Said,
}

// Where reading stopped, or what was read.
#[derive(Clone, Copy)]
pub enum GossipRead {
    Stopped(usize),
    Read(Held),
}

// A gossip whose addresses are all there and canonical, or not.
#[derive(Clone, Copy)]
pub enum Settled {
    Missing,
    Whole(Gossip),
}

fn unsaid() -> Said
    ensures { result ≡ unsaid_of }
{
    Said {
        from: Text::Empty,
        subject: Text::Empty,
        number: 0,
    }
}

// An event of the kind that is held is merged into it; one of another kind takes its place.
fn started(h: Held, kind: u64) -> Said
    ensures { result ≡ started_at h kind }
{
    if h.kind == kind {
        let said = h.said;
        return said;
    }
    unsaid()
}

// One field of a gossip.
fn step(h: Held, place: usize, bytes: &[u8], f: Field) -> GossipRead
    requires { Lies (length bytes.now) f × (place + length bytes.now < 2 ^ 64) }
    ensures { result ≡ as_read (gossip_step h place bytes.now f) }
{
    let kind = f.number;
    if 4 < kind {
        return GossipRead::Read(h);
    }
    if f.wire != 2 {
        return GossipRead::Stopped(place);
    }
    let head = f.head;
    let size = f.size;
    match events::merge(&bytes[head..size], place + head, started(h, kind)) {
        Merged::Stopped(p) => GossipRead::Stopped(p),
        Merged::Read(said) => GossipRead::Read(Held { kind, said }),
    }
}

// A gossip's bytes, from a place of the input on.
pub fn read(bytes: &[u8], place: usize) -> GossipRead
    requires { place + length bytes.now < 2 ^ 64 }
    ensures { result ≡ as_read (walk gossip_step place bytes.now unheld) }
{
    let mut held = Held {
        kind: 0,
        said: unsaid(),
    };
    let mut at: usize = 0;
    while at < bytes.len() {
        let rest = &bytes[at..];
        let Next::Found(f) = fields::first(rest) else {
            return GossipRead::Stopped(place + at);
        };
        let size = f.size;
        match step(held, place + at, rest, f) {
            GossipRead::Stopped(p) => {
                return GossipRead::Stopped(p);
            }
            GossipRead::Read(next) => {
                held = next;
                at += size;
            }
        }
    }
    GossipRead::Read(held)
}

// The event of a kind.
fn made(kind: u64, from: Address, subject: Address, number: u64) -> Event
    ensures { result ≡ made_of kind from subject number }
{
    match kind {
        1 => Event::Joined {
            from,
            subject,
            number,
        },
        2 => Event::Recovered {
            from,
            subject,
            number,
        },
        3 => Event::Suspected {
            from,
            subject,
            number,
        },
        _ => Event::Deceased {
            from,
            subject,
            number,
        },
    }
}

// The gossip that was read, if its event's addresses are there and canonical.
pub fn settle(h: Held) -> Settled
    ensures { result ≡ settled h }
{
    if h.kind == 0 {
        return Settled::Whole(Gossip {
            event: Event::Nothing,
        });
    }
    let said = h.said;
    let first = said.from;
    let second = said.subject;
    match first {
        Text::Empty => Settled::Missing,
        Text::Malformed => Settled::Missing,
        Text::Given(from) => match second {
            Text::Empty => Settled::Missing,
            Text::Malformed => Settled::Missing,
            Text::Given(subject) => {
                let event = made(h.kind, from, subject, said.number);
                Settled::Whole(Gossip { event })
            }
        },
    }
}

// A gossip's bytes, written from a place on; the place past them.
pub fn write(out: &mut [u8], at: usize, g: Gossip) -> usize
    requires { Room out.old at (gossip_bytes_of g) }
    ensures { Laid out.old at (gossip_bytes_of g) out.new result }
{
    let e = g.event;
    let p = types::parts_of(e);
    if p.kind == 0 {
        return at;
    }
    let count = varint::write(out, at, p.kind * 8 + 2);
    let start = varint::write(out, count, types::size_of(g) - 2);
    events::write(out, start, p.from, p.subject, p.number)
}

// How many bytes a gossip takes.
pub fn len(g: Gossip) -> u64
    ensures { (result ≡ length (gossip_bytes_of g)) × (result < 128) }
{
    let e = g.event;
    let p = types::parts_of(e);
    if p.kind == 0 {
        return 0;
    }
    types::size_of(g)
}

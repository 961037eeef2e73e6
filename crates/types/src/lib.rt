// Events, gossip and actions, and how many bytes a gossip takes on the wire.
#![tactic(auto)]

ghost use Rattle.std.specs.Prelude.{◌≡◌, ◌≤◌};
ghost use Rattle.address.specs.Here.{here};
ghost use Rattle.model.specs.Words.{parts_of, same_gossip};
ghost use Rattle.model.specs.Size.{varint_length, size_of_number, size_over, size_of};
ghost use Rattle.model.specs.Sound.{valid_gossip};
ghost use Rattle.types.specs.Views.{to_event, to_gossip, from_parts, no_gossip, Right, measured_at};

use address::Address;
use model::both;

// Nothing comes first: it is the event of an unused place.
#[derive(Clone, Copy)]
pub enum Event {
    Nothing,
    Joined {
        from: Address,
        subject: Address,
        number: u64,
    },
    Recovered {
        from: Address,
        subject: Address,
        number: u64,
    },
    Suspected {
        from: Address,
        subject: Address,
        number: u64,
    },
    Deceased {
        from: Address,
        subject: Address,
        number: u64,
    },
}

#[derive(Clone, Copy)]
pub struct Gossip {
    pub event: Event,
}

impl Gossip {
    // A gossip of no event, as in an unused place.
    pub fn none() -> Gossip
        ensures { result ≡ no_gossip }
    {
        Gossip {
            event: Event::Nothing,
        }
    }
}

// An address that may be absent.
#[derive(Clone, Copy)]
pub enum Optional {
    Absent,
    Given(Address),
}

#[derive(Clone, Copy)]
pub enum Action {
    Ping {
        from: Address,
        requested_by: Optional,
    },
    PingReq {
        from: Address,
        suspect: Address,
    },
    Ack {
        from: Address,
        forward_to: Optional,
    },
}

impl Action {
    pub fn new_ping(from: Address, requested_by: Optional) -> Action
        ensures { result ≡ Action.Ping from requested_by }
    {
        Action::Ping { from, requested_by }
    }

    pub fn new_ping_req(from: Address, suspect: Address) -> Action
        ensures { result ≡ Action.PingReq from suspect }
    {
        Action::PingReq { from, suspect }
    }

    pub fn new_ack(from: Address, forward_to: Optional) -> Action
        ensures { result ≡ Action.Ack from forward_to }
    {
        Action::Ack { from, forward_to }
    }
}

impl Event {
    pub fn new_node_joined(from: Address, new_member: Address, number: u64) -> Event
        ensures { result ≡ Event.Joined from new_member number }
    {
        Event::Joined {
            from,
            subject: new_member,
            number,
        }
    }

    pub fn new_node_suspected(from: Address, suspect: Address, number: u64) -> Event
        ensures { result ≡ Event.Suspected from suspect number }
    {
        Event::Suspected {
            from,
            subject: suspect,
            number,
        }
    }

    pub fn new_node_recovered(from: Address, recovered: Address, number: u64) -> Event
        ensures { result ≡ Event.Recovered from recovered number }
    {
        Event::Recovered {
            from,
            subject: recovered,
            number,
        }
    }

    pub fn new_node_deceased(from: Address, deceased: Address, number: u64) -> Event
        ensures { result ≡ Event.Deceased from deceased number }
    {
        Event::Deceased {
            from,
            subject: deceased,
            number,
        }
    }
}

// An event taken apart: its kind, 0 for none, and what it holds.
#[derive(Clone, Copy)]
pub struct Parts {
    pub kind: u64,
    pub from: Address,
    pub subject: Address,
    pub number: u64,
}

impl Parts {
    fn of(kind: u64, from: Address, subject: Address, number: u64) -> Parts
        ensures { result ≡ record { kind = kind; from = from; subject = subject; number = number } }
    {
        Parts {
            kind,
            from,
            subject,
            number,
        }
    }
}

// An event is matched once, here; whatever compares or measures events works on the parts.
pub fn parts_of(e: Event) -> Parts
    ensures { result ≡ from_parts (parts_of here (to_event e)) }
{
    let blank = address::blank();
    match e {
        Event::Nothing => Parts::of(0, blank, blank, 0),
        Event::Joined {
            from,
            subject,
            number,
        } => Parts::of(1, from, subject, number),
        Event::Recovered {
            from,
            subject,
            number,
        } => Parts::of(2, from, subject, number),
        Event::Suspected {
            from,
            subject,
            number,
        } => Parts::of(3, from, subject, number),
        Event::Deceased {
            from,
            subject,
            number,
        } => Parts::of(4, from, subject, number),
    }
}

// Are two gossips equal?
pub fn same_gossip(a: Gossip, b: Gossip) -> bool
    ensures { result ≡ same_gossip here (to_gossip a) (to_gossip b) }
{
    let x = a.event;
    let y = b.event;
    let p = parts_of(x);
    let q = parts_of(y);
    let from = address::same(p.from, q.from);
    let subject = address::same(p.subject, q.subject);
    both(
        both(both(p.kind == q.kind, from), subject),
        p.number == q.number,
    )
}

// The bytes of a number as a varint, seven bits a byte: a number of 64 bits has at most ten.
pub fn varint_len(n: u64) -> u64
    ensures { (result ≡ varint_length n) × (result ≤ 10) }
{
    let mut rest = n;
    let mut len = 1;
    while len < 10 {
        if rest < 128 {
            return len;
        }
        rest = rest / 128;
        len += 1;
    }
    10
}

// What a number takes as a field: nothing at 0, else its tag and its varint.
fn number_size(n: u64) -> u64
    ensures { (result ≡ size_of_number n) × (result ≤ 11) }
{
    if n == 0 {
        return 0;
    }
    1 + varint_len(n)
}

// An address and the length of its text: where many events are from one address, that is measured once.
#[derive(Clone, Copy)]
pub struct Measured {
    pub addr: Address,
    pub chars: u64,
}

impl Measured {
    pub fn of(addr: Address) -> Measured
        ensures { result ≡ measured_at addr }
    {
        Measured {
            addr,
            chars: address::text_len(addr),
        }
    }

    // The length of any address's text.
    pub fn text_len(self, a: Address) -> u64
        requires { Right self }
        ensures { (result ≡ here.chars a) × (result ≤ 47) }
    {
        if address::same(a, self.addr) {
            return self.chars;
        }
        address::text_len(a)
    }
}

// The bytes of an event on the wire, by the lengths of its two texts.
pub fn size_over(from: u64, subject: u64, number: u64) -> u64
    requires { (from ≤ 47) × (subject ≤ 47) }
    ensures { (result ≡ size_over from subject number) × (result ≤ 111) }
{
    2 + (2 + from) + (2 + subject) + number_size(number)
}

// The bytes of a gossip on the wire; one of no event has none.
pub fn size_of(g: Gossip) -> u64
    ensures { (result ≡ size_of here (to_gossip g)) × (result ≤ 111) }
{
    let e = g.event;
    let p = parts_of(e);
    if p.kind == 0 {
        return 0;
    }
    let from = address::text_len(p.from);
    let subject = address::text_len(p.subject);
    size_over(from, subject, p.number)
}

// Are a gossip's addresses in range? One of no event holds none.
pub fn valid_gossip(g: Gossip) -> bool
    ensures { result ≡ valid_gossip here (to_gossip g) }
{
    let e = g.event;
    let p = parts_of(e);
    if p.kind == 0 {
        return true;
    }
    let from = address::in_range(p.from);
    let subject = address::in_range(p.subject);
    both(from, subject)
}

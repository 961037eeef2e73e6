// The message of an action: from = 1, the other address = 2, gossip = 3. All three actions have these fields.
#![tactic(auto)]

ghost use Rattle.std.specs.Prelude.{◌≡◌, ◌+◌, ◌^◌, ◌≤◌, ◌<◌, min, length};
ghost use Rattle.fields.specs.Walk.{walk};
ghost use Rattle.fields.specs.FieldLaws.{Lies};
ghost use Rattle.actions.specs.declared.Piece.TheVariants.{News};
ghost use Rattle.actions.specs.Action.{piece_at, as_piece, first_piece, unmoved_of, turn_of, action_step, Shows, Acts};

use events::TextField;
use fields::{Field, Next};
use gossips::{GossipRead, Settled};
use iptext::Text;
use types::{Event, Gossip};

// What the fields of an action say so far, without its gossip: whether a gossip was spoiled, and how many there are, 65 for more than 64.
#[derive(Clone, Copy)]
pub struct Small {
    pub from: Text,
    pub other: Text,
    pub bad: bool,
    pub count: usize,
}

// What one field says.
#[derive(Clone, Copy)]
pub enum Piece {
    Unknown,
    From(Text),
    Other(Text),
    News(Settled),
}

// Where reading stopped, or what was read.
#[derive(Clone, Copy)]
pub enum PieceRead {
    Stopped(usize),
    Read(Piece),
}

// Where reading stopped, or what the first field says and how many bytes it takes.
#[derive(Clone, Copy)]
pub enum FirstRead {
    Stopped(usize),
    Read(Piece, usize),
}

// What a field does: the fields so far, and a gossip for a place of the row. Place 64 takes what is not kept.
#[derive(Clone, Copy)]
pub struct Turn {
    pub small: Small,
    pub slot: usize,
    pub gossip: Gossip,
}

// Where reading stopped, or what was read, with the row of gossip.
#[derive(Clone, Copy)]
pub struct Acted {
    pub stopped: bool,
    pub place: usize,
    pub small: Small,
    pub row: [Gossip; 65],
}

// One field of an action.
fn field(bytes: &[u8], place: usize, f: Field) -> PieceRead
    requires { Lies (length bytes.now) f × (place + length bytes.now < 2 ^ 64) }
    ensures { result ≡ as_piece (piece_at place bytes.now f) }
{
    let number = f.number;
    match number {
        1 => {
            let TextField::Read(text) = events::text_at(bytes, f) else {
                return PieceRead::Stopped(place);
            };
            PieceRead::Read(Piece::From(text))
        }
        2 => {
            let TextField::Read(text) = events::text_at(bytes, f) else {
                return PieceRead::Stopped(place);
            };
            PieceRead::Read(Piece::Other(text))
        }
        3 => {
            if f.wire != 2 {
                return PieceRead::Stopped(place);
            }
            let head = f.head;
            let size = f.size;
            match gossips::read(&bytes[head..size], place + head) {
                GossipRead::Stopped(p) => PieceRead::Stopped(p),
                GossipRead::Read(held) => PieceRead::Read(Piece::News(gossips::settle(held))),
            }
        }
        _ => PieceRead::Read(Piece::Unknown),
    }
}

// The field that some bytes begin with.
fn first_piece(bytes: &[u8], place: usize) -> FirstRead
    requires { place + length bytes.now < 2 ^ 64 }
    ensures { result ≡ first_piece place bytes.now }
{
    let Next::Found(f) = fields::first(bytes) else {
        return FirstRead::Stopped(place);
    };
    let size = f.size;
    match field(bytes, place, f) {
        PieceRead::Stopped(p) => FirstRead::Stopped(p),
        PieceRead::Read(said) => FirstRead::Read(said, size),
    }
}

// At most 64.
fn capped(n: usize) -> usize
    ensures { (result ≡ min n 64) × (result ≤ 64) }
{
    if n < 64 {
        return n;
    }
    64
}

// A gossip takes the next place, or counts as one too many.
fn appended(s: Small, news: Settled) -> Turn
    ensures { (result ≡ turn_of s (News news)) × (result.slot < 65) }
{
    let from = s.from;
    let other = s.other;
    let slot = capped(s.count);
    let count = slot + 1;
    match news {
        Settled::Missing => Turn {
            small: Small {
                from,
                other,
                bad: true,
                count,
            },
            slot,
            gossip: Gossip {
                event: Event::Nothing,
            },
        },
        Settled::Whole(gossip) => Turn {
            small: Small {
                from,
                other,
                bad: s.bad,
                count,
            },
            slot,
            gossip,
        },
    }
}

// What is said so far, and nothing for the row.
fn unmoved(small: Small) -> Turn
    ensures { (result ≡ unmoved_of small) × (result.slot < 65) }
{
    Turn {
        small,
        slot: 64,
        gossip: Gossip {
            event: Event::Nothing,
        },
    }
}

// What a field does to what is said so far.
fn turned(s: Small, p: Piece) -> Turn
    ensures { (result ≡ turn_of s p) × (result.slot < 65) }
{
    let from = s.from;
    let other = s.other;
    match p {
        Piece::Unknown => unmoved(s),
        Piece::From(text) => unmoved(Small {
            from: text,
            other,
            bad: s.bad,
            count: s.count,
        }),
        Piece::Other(text) => unmoved(Small {
            from,
            other: text,
            bad: s.bad,
            count: s.count,
        }),
        Piece::News(news) => appended(s, news),
    }
}

// An action's bytes, from a place of the input on, merged into what is said so far.
pub fn merge(bytes: &[u8], place: usize, s: Small, mut row: [Gossip; 65]) -> Acted
    requires { place + length bytes.now < 2 ^ 64 }
    ensures { Acts place bytes.now s row result }
{
    let mut small = s;
    let mut at: usize = 0;
    while at < bytes.len() {
        match first_piece(&bytes[at..], place + at) {
            FirstRead::Stopped(p) => {
                return Acted {
                    stopped: true,
                    place: p,
                    small,
                    row,
                };
            }
            FirstRead::Read(said, size) => {
                let turn = turned(small, said);
                let slot = turn.slot;
                let next = turn.small;
                let news = turn.gossip;
                row[slot] = news;
                small = next;
                at += size;
            }
        }
    }
    Acted {
        stopped: false,
        place: 0,
        small,
        row,
    }
}

// A datagram of one action without records: most of what is sent while nothing happens. It needs no row.
ghost use Rattle.std.specs.Prelude.{◌≡◌};
ghost use Rattle.incoming.specs.Brief.{Ends, Pairs, Briefly};

use super::{Brief, Decoded, Texts, judged};
use actions::Small;
use events::TextField;
use fields::{Field, Next};
use iptext::Text;

// The other address, and nothing behind it.
fn last_text(bytes: &[u8]) -> TextField
    ensures { Ends bytes.now result }
{
    let Next::Found(f) = fields::first(bytes) else {
        return TextField::Stopped;
    };
    if f.number != 2 {
        return TextField::Stopped;
    }
    if f.size != bytes.len() {
        return TextField::Stopped;
    }
    events::text_at(bytes, f)
}

// The sender's address, perhaps the other one, and nothing behind them.
fn texts(bytes: &[u8]) -> Texts
    ensures { Pairs bytes.now result }
{
    let Next::Found(f) = fields::first(bytes) else {
        return Texts::Longer;
    };
    if f.number != 1 {
        return Texts::Longer;
    }
    let TextField::Read(from) = events::text_at(bytes, f) else {
        return Texts::Longer;
    };
    let size = f.size;
    if size == bytes.len() {
        return Texts::Both {
            from,
            other: Text::Empty,
        };
    }
    let TextField::Read(other) = last_text(&bytes[size..]) else {
        return Texts::Longer;
    };
    Texts::Both { from, other }
}

// What the datagram says, if it is one action without records; of no other is anything told.
pub fn read(bytes: &[u8]) -> Brief
    ensures { Briefly bytes.now result }
{
    if Brief::LONGEST < bytes.len() {
        return Brief::Longer;
    }
    let Next::Found(f) = fields::first(bytes) else {
        return Brief::Longer;
    };
    let kind = f.number;
    if 3 < kind {
        return Brief::Longer;
    }
    if f.wire != 2 {
        return Brief::Longer;
    }
    let head = f.head;
    let size = f.size;
    if size != bytes.len() {
        return Brief::Longer;
    }
    let Texts::Both { from, other } = texts(&bytes[head..size]) else {
        return Brief::Longer;
    };
    let said = Small {
        from,
        other,
        bad: false,
        count: 0,
    };
    Brief::Told(judged(kind, said, bytes.len()))
}

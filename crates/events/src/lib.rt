// The message of an event: from = 1, the address it is about = 2, its number = 3. All four kinds have these fields.
#![tactic(auto)]

ghost use Rattle.std.specs.Prelude.{◌≡◌, ◌+◌, ◌^◌, ◌≤◌, ◌<◌, length};
ghost use Rattle.address.specs.Here.{Addr, here, here_text as text};
ghost use Rattle.types.specs.Wire.{string, number, event_bytes};
ghost use Rattle.varint.specs.Laid.{Laid, Room};
ghost use Rattle.utf8.specs.Utf8.{utf8};
ghost use Rattle.iptext.specs.Reading.{text_of};
ghost use Rattle.fields.specs.Walk.{walk};
ghost use Rattle.fields.specs.FieldLaws.{Lies};
ghost use Rattle.events.specs.Back.{kind};
ghost use Rattle.events.specs.Event.{text_at, event_step, as_merged};

use address::Address;
use fields::{Field, Next};
use iptext::Text;

// What the fields of an event say so far.
#[derive(Clone, Copy)]
pub struct Said {
    pub from: Text,
    pub subject: Text,
    pub number: u64,
}

// Where reading stopped, or what was read.
#[derive(Clone, Copy)]
pub enum Merged {
    Stopped(usize),
    Read(Said),
}

// What a field says that should be a text.
#[derive(Clone, Copy)]
pub enum TextField {
    Stopped,
    Read(Text),
}

// Is a text UTF-8? One that says an address need not be looked at again.
fn is_utf8(text: &[u8], said: Text) -> bool
    requires { said ≡ text_of text.now }
    ensures { result ≡ utf8 text.now }
{
    match said {
        Text::Given(a) => true,
        Text::Empty => utf8::valid(text),
        Text::Malformed => utf8::valid(text),
    }
}

// A text has wire type 2 and is UTF-8.
pub fn text_at(bytes: &[u8], f: Field) -> TextField
    requires { Lies (length bytes.now) f }
    ensures { result ≡ text_at bytes.now f }
{
    if f.wire != 2 {
        return TextField::Stopped;
    }
    let head = f.head;
    let size = f.size;
    let text = &bytes[head..size];
    let said = iptext::read(text);
    if is_utf8(text, said) {
        return TextField::Read(said);
    }
    TextField::Stopped
}

// One field of an event.
fn step(s: Said, place: usize, bytes: &[u8], f: Field) -> Merged
    requires { Lies (length bytes.now) f }
    ensures { result ≡ as_merged (event_step s place bytes.now f) }
{
    let from = s.from;
    let subject = s.subject;
    let number = f.number;
    match number {
        1 => {
            let TextField::Read(text) = text_at(bytes, f) else {
                return Merged::Stopped(place);
            };
            Merged::Read(Said {
                from: text,
                subject,
                number: s.number,
            })
        }
        2 => {
            let TextField::Read(text) = text_at(bytes, f) else {
                return Merged::Stopped(place);
            };
            Merged::Read(Said {
                from,
                subject: text,
                number: s.number,
            })
        }
        3 => {
            if f.wire != 0 {
                return Merged::Stopped(place);
            }
            Merged::Read(Said {
                from,
                subject,
                number: f.value,
            })
        }
        _ => Merged::Read(s),
    }
}

// An event's bytes, from a place of the input on, merged into what is said so far.
pub fn merge(bytes: &[u8], place: usize, s: Said) -> Merged
    requires { place + length bytes.now < 2 ^ 64 }
    ensures { result ≡ as_merged (walk event_step place bytes.now s) }
{
    let mut said = s;
    let mut at: usize = 0;
    while at < bytes.len() {
        let rest = &bytes[at..];
        let Next::Found(f) = fields::first(rest) else {
            return Merged::Stopped(place + at);
        };
        let size = f.size;
        match step(said, place + at, rest, f) {
            Merged::Stopped(p) => {
                return Merged::Stopped(p);
            }
            Merged::Read(next) => {
                said = next;
                at += size;
            }
        }
    }
    Merged::Read(said)
}

// A text field with an address, written from a place on; the place past it.
pub fn write_text(out: &mut [u8], at: usize, field: u64, a: Address) -> usize
    requires { (field ≤ 15) × Room out.old at (string field (text a)) }
    ensures { Laid out.old at (string field (text a)) out.new result }
{
    let count = varint::write(out, at, field * 8 + 2);
    let start = varint::write(out, count, address::text_len(a));
    iptext::write(out, start, a)
}

// A number field; 0 is left out.
fn write_number(out: &mut [u8], at: usize, field: u64, n: u64) -> usize
    requires { (field ≤ 15) × Room out.old at (number field n) }
    ensures { Laid out.old at (number field n) out.new result }
{
    if n == 0 {
        return at;
    }
    let start = varint::write(out, at, field * 8);
    varint::write(out, start, n)
}

// An event's fields, written from a place on; the place past them.
pub fn write(out: &mut [u8], at: usize, from: Address, subject: Address, n: u64) -> usize
    requires { Room out.old at (event_bytes (kind 1) (text from) (text subject) n) }
    ensures { Laid out.old at (event_bytes (kind 1) (text from) (text subject) n) out.new result }
{
    let second = write_text(out, at, 1, from);
    let third = write_text(out, second, 2, subject);
    write_number(out, third, 3, n)
}

// One field of a protobuf message.
#![tactic(auto)]

ghost use Rattle.std.specs.Prelude.{◌≡◌, ◌<◌};
ghost use Rattle.fields.specs.Field.{next_in, keyed, numbered, counted, fixed as fixed_of};

use varint::Number;

// A field: its number and wire type; what a varint says, or the count of bytes that follow; where its content begins, and its whole size.
#[derive(Clone, Copy)]
pub struct Field {
    pub number: u64,
    pub wire: u64,
    pub value: u64,
    pub head: usize,
    pub size: usize,
}

// What stands at the start of some bytes: a field, or none that is whole.
#[derive(Clone, Copy)]
pub enum Next {
    Stopped,
    Found(Field),
}

// A field that holds a number.
fn number(bytes: &[u8], head: usize, number: u64) -> Next
    ensures { result ≡ numbered bytes.now head number }
{
    if bytes.len() < head {
        return Next::Stopped;
    }
    let Number::Found { value, size } = varint::read(&bytes[head..]) else {
        return Next::Stopped;
    };
    Next::Found(Field {
        number,
        wire: 0,
        value,
        head,
        size: head + size,
    })
}

// A field that holds a count and as many bytes.
fn delimited(bytes: &[u8], head: usize, number: u64) -> Next
    ensures { result ≡ counted bytes.now head number }
{
    if bytes.len() < head {
        return Next::Stopped;
    }
    let Number::Found { value, size } = varint::read(&bytes[head..]) else {
        return Next::Stopped;
    };
    let start = head + size;
    let left = (bytes.len() - start) as u64;
    if left < value {
        return Next::Stopped;
    }
    Next::Found(Field {
        number,
        wire: 2,
        value,
        head: start,
        size: start + value as usize,
    })
}

// A field of four or eight bytes.
fn fixed(bytes: &[u8], head: usize, number: u64, wire: u64, width: usize) -> Next
    requires { width < 16 }
    ensures { result ≡ fixed_of bytes.now head number wire width }
{
    if bytes.len() < head {
        return Next::Stopped;
    }
    if bytes.len() - head < width {
        return Next::Stopped;
    }
    Next::Found(Field {
        number,
        wire,
        value: 0,
        head,
        size: head + width,
    })
}

// What follows a key: its lowest three bits are the wire type, the others the field's number.
fn content(bytes: &[u8], key: u64, head: usize) -> Next
    ensures { result ≡ keyed bytes.now key head }
{
    if 4294967295 < key {
        return Next::Stopped;
    }
    let field = key / 8;
    if field == 0 {
        return Next::Stopped;
    }
    let wire = key % 8;
    match wire {
        0 => number(bytes, head, field),
        1 => fixed(bytes, head, field, 1, 8),
        2 => delimited(bytes, head, field),
        5 => fixed(bytes, head, field, 5, 4),
        _ => Next::Stopped,
    }
}

// The field at the start.
pub fn first(bytes: &[u8]) -> Next
    ensures { result ≡ next_in bytes.now }
{
    let Number::Found { value, size } = varint::read(bytes) else {
        return Next::Stopped;
    };
    content(bytes, value, size)
}

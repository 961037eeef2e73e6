// An address of IPv4, ip × 65536 + port, as text, a.b.c.d:port: read if it is canonical, and written.
#![tactic(auto)]

ghost use Rattle.std.specs.Prelude.{◌≡◌, ◌≤◌, ◌<◌, ◌∷◌};
ghost use Rattle.varint.specs.Laid.{Laid, Room};
ghost use Rattle.address.specs.Text.{decimal as decimal_of, text};
ghost use Rattle.ip4text.specs.Reading.{decimal_at, ended as ended_by, part_at, text_of, mark as mark_of};

use varint::Number;

// What a text says: nothing, no address, or one.
#[derive(Clone, Copy)]
pub enum Text {
    Empty,
    Malformed,
    Given(u64),
}

// Some digits are a number, none are not.
fn ended(value: u64, size: usize) -> Number
    ensures { result ≡ ended_by value size }
{
    if size == 0 {
        return Number::Stopped;
    }
    Number::Found { value, size }
}

// The decimal number at the start, up to a limit; a zero stands alone.
fn decimal(bytes: &[u8], limit: u64) -> Number
    requires { limit ≤ 65535 }
    ensures { result ≡ decimal_at limit bytes.now }
{
    if bytes.len() == 0 {
        return Number::Stopped;
    }
    if bytes[0] == b'0' {
        return Number::Found { value: 0, size: 1 };
    }
    let mut value: u64 = 0;
    let mut i: usize = 0;
    while i < bytes.len() {
        let b = varint::wide(bytes[i]);
        if b < 48 {
            return ended(value, i);
        }
        if 57 < b {
            return ended(value, i);
        }
        let next = value * 10 + (b - 48);
        if limit < next {
            return Number::Stopped;
        }
        value = next;
        i += 1;
    }
    ended(value, i)
}

// A number of at most 255 with a mark behind it; the size counts the mark.
fn part(bytes: &[u8], mark: u8) -> Number
    requires { 0 < mark }
    ensures { result ≡ part_at mark bytes.now }
{
    let Number::Found { value, size } = decimal(bytes, 255) else {
        return Number::Stopped;
    };
    if bytes.len() <= size {
        return Number::Stopped;
    }
    if bytes[size] != mark {
        return Number::Stopped;
    }
    Number::Found {
        value,
        size: size + 1,
    }
}

// A colon stands behind the last of the four numbers, a dot behind the others.
fn mark(left: u64) -> u8
    ensures { (result ≡ mark_of left) × (0 < result) }
{
    if left == 1 {
        return b':';
    }
    b'.'
}

// The address that a text says.
pub fn read(bytes: &[u8]) -> Text
    ensures { result ≡ text_of bytes.now }
{
    if bytes.len() == 0 {
        return Text::Empty;
    }
    let mut ip: u64 = 0;
    let mut at: usize = 0;
    let mut left: u64 = 4;
    while 0 < left {
        let Number::Found { value, size } = part(&bytes[at..], mark(left)) else {
            return Text::Malformed;
        };
        ip = ip * 256 + value;
        at += size;
        left -= 1;
    }
    let Number::Found { value: port, size } = decimal(&bytes[at..], 65535) else {
        return Text::Malformed;
    };
    if size != bytes.len() - at {
        return Text::Malformed;
    }
    Text::Given(ip * 65536 + port)
}

// A number in decimal, written from a place on; the place past it.
fn write_decimal(out: &mut [u8], at: usize, n: u64) -> usize
    requires { (n < 100000) × Room out.old at (decimal_of n) }
    ensures { Laid out.old at (decimal_of n) out.new result }
{
    if n < 10 {
        out[at] = varint::low(n + 48);
        return at + 1;
    }
    let end = write_decimal(out, at, n / 10);
    out[end] = varint::low(n % 10 + 48);
    end + 1
}

// The same behind a mark.
fn write_part(out: &mut [u8], at: usize, mark: u8, n: u64) -> usize
    requires { (n < 100000) × Room out.old at (mark ∷ decimal_of n) }
    ensures { Laid out.old at (mark ∷ decimal_of n) out.new result }
{
    out[at] = mark;
    write_decimal(out, at + 1, n)
}

// The text of an address, written from a place on; the place past it.
pub fn write(out: &mut [u8], at: usize, a: u64) -> usize
    requires { Room out.old at (text a) }
    ensures { Laid out.old at (text a) out.new result }
{
    let first = write_decimal(out, at, a / 1099511627776 % 256);
    let second = write_part(out, first, b'.', a / 4294967296 % 256);
    let third = write_part(out, second, b'.', a / 16777216 % 256);
    let fourth = write_part(out, third, b'.', a / 65536 % 256);
    write_part(out, fourth, b':', a % 65536)
}

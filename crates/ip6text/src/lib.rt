// An IPv6 address with its port as text, by RFC 5952: written, and read if it is canonical.
#![tactic(auto)]

ghost use Rattle.std.specs.Prelude.{◌≡◌, true, ◌≤◌, ◌<◌, ◌+◌, ◌/◌, ◌%◌, ◌∷◌, [], ◌++◌, length, get_or};
ghost use Rattle.ip6.specs.Text6.{digit as digit_of, numeral_in, groups, behind, joined, without, plain, dotted, mark, ip6, text6};
ghost use Rattle.varint.specs.Laid.{Laid, Room};
ghost use Rattle.ip6text.specs.Writing.{part};
ghost use Rattle.ip6text.specs.Reading.{said6};
ghost use Rattle.ip6text.specs.Parsing.{digit_value, with_digit, fresh as fresh_of, pushed as pushed_of, with_colon, with_dot, spread as spread_of, word as word_of, whole as whole_of, with_end, next as next_of, run, none};

use ip6::{mapped, scanned, text_len6};
use varint::{low, wide};

// What a text says.
#[derive(Clone, Copy)]
pub enum Said {
    Malformed,
    Given { high: u64, low: u64, port: u64 },
}

// What was read of a text: the groups so far, where two colons stood, the number being read, in both bases, the numbers
// before dots, and, past the bracket, the address.
#[derive(Clone, Copy)]
pub struct Seen {
    pub values: [u64; 8],
    pub count: usize,
    pub gap: usize,
    pub value: u64,
    pub decimal: u64,
    pub started: u64,
    pub dotted: u64,
    pub dots: u64,
    pub high: u64,
    pub low: u64,
}

fn digit(d: u64) -> u8
    requires { d < 16 }
    ensures { result ≡ digit_of d }
{
    if d < 10 {
        return low(d + 48);
    }
    low(d + 87)
}

// One byte, written at a place; the place past it.
fn put(out: &mut [u8], at: usize, byte: u8) -> usize
    requires { Room out.old at (byte ∷ []) }
    ensures { Laid out.old at (byte ∷ []) out.new result }
{
    out[at] = byte;
    at + 1
}

// A number in a base, written from a place on; the place past it.
fn write_number(out: &mut [u8], at: usize, base: u64, n: u64) -> usize
    requires { (10 ≤ base) × (base ≤ 16) × (n < 65536) × Room out.old at (numeral_in base 4 n) }
    ensures { Laid out.old at (numeral_in base 4 n) out.new result }
{
    if n < base {
        out[at] = digit(n);
        return at + 1;
    }
    let end = write_number(out, at, base, n / base);
    out[end] = digit(n % base);
    end + 1
}

// The group at a place.
fn group(high: u64, low: u64, i: u64) -> u64
    requires { i < 8 }
    ensures { (result ≡ get_or (groups high low) i 0) × (result < 65536) }
{
    if i < 1 {
        return high / 281474976710656 % 65536;
    }
    if i < 2 {
        return high / 4294967296 % 65536;
    }
    if i < 3 {
        return high / 65536 % 65536;
    }
    if i < 4 {
        return high % 65536;
    }
    if i < 5 {
        return low / 281474976710656 % 65536;
    }
    if i < 6 {
        return low / 4294967296 % 65536;
    }
    if i < 7 {
        return low / 65536 % 65536;
    }
    low % 65536
}

// The groups from a place to another, each behind a colon.
fn write_behind(out: &mut [u8], at: usize, high: u64, low: u64, i: u64, end: u64) -> usize
    requires { (end ≤ 8) × Room out.old at (behind (part i end (groups high low))) }
    ensures { Laid out.old at (behind (part i end (groups high low))) out.new result }
{
    if end <= i {
        return at;
    }
    let first = put(out, at, b':');
    let next = write_number(out, first, 16, group(high, low, i));
    write_behind(out, next, high, low, i + 1, end)
}

// The groups from a place to another, with colons between them.
fn write_joined(out: &mut [u8], at: usize, high: u64, low: u64, i: u64, end: u64) -> usize
    requires { (end ≤ 8) × Room out.old at (joined (part i end (groups high low))) }
    ensures { Laid out.old at (joined (part i end (groups high low))) out.new result }
{
    if end <= i {
        return at;
    }
    let next = write_number(out, at, 16, group(high, low, i));
    write_behind(out, next, high, low, i + 1, end)
}

// A byte, and a number in a base behind it.
fn write_marked(out: &mut [u8], at: usize, byte: u8, base: u64, n: u64) -> usize
    requires { (10 ≤ base) × (base ≤ 16) × (n < 65536) × Room out.old at (byte ∷ numeral_in base 4 n) }
    ensures { Laid out.old at (byte ∷ numeral_in base 4 n) out.new result }
{
    let next = put(out, at, byte);
    write_number(out, next, base, n)
}

// All groups but n from a place on.
fn write_left(out: &mut [u8], at: usize, high: u64, low: u64, p: u64, n: u64) -> usize
    requires { (p + n ≤ 8) × Room out.old at (without (groups high low) p n) }
    ensures { Laid out.old at (without (groups high low) p n) out.new result }
{
    let first = write_joined(out, at, high, low, 0, p);
    let second = put(out, first, b':');
    let third = put(out, second, b':');
    write_joined(out, third, high, low, p + n, 8)
}

// The eight groups, the longest run of zeros left out.
fn write_plain(out: &mut [u8], at: usize, high: u64, low: u64) -> usize
    requires { Room out.old at (plain (groups high low)) }
    ensures { Laid out.old at (plain (groups high low)) out.new result }
{
    let s = scanned(high, low);
    if s.longest < 2 {
        return write_joined(out, at, high, low, 0, 8);
    }
    write_left(out, at, high, low, s.place, s.longest)
}

// The text a.b.c.d.
fn write_dotted(out: &mut [u8], at: usize, low: u64) -> usize
    requires { Room out.old at (dotted low) }
    ensures { Laid out.old at (dotted low) out.new result }
{
    let first = write_number(out, at, 10, low / 16777216 % 256);
    let second = write_marked(out, first, b'.', 10, low / 65536 % 256);
    let third = write_marked(out, second, b'.', 10, low / 256 % 256);
    write_marked(out, third, b'.', 10, low % 256)
}

// The text ::ffff: of a mapped address.
fn write_mark(out: &mut [u8], at: usize) -> usize
    requires { Room out.old at mark }
    ensures { Laid out.old at mark out.new result }
{
    let first = put(out, at, b':');
    let second = put(out, first, b':');
    let third = write_number(out, second, 16, 65535);
    put(out, third, b':')
}

// The address without brackets and port.
fn write_ip(out: &mut [u8], at: usize, high: u64, low: u64) -> usize
    requires { Room out.old at (ip6 high low) }
    ensures { Laid out.old at (ip6 high low) out.new result }
{
    if mapped(high, low) {
        let next = write_mark(out, at);
        return write_dotted(out, next, low);
    }
    write_plain(out, at, high, low)
}

// The text of an address with its port, written from a place on; the place past it.
pub fn write6(out: &mut [u8], at: usize, high: u64, low: u64, port: u64) -> usize
    requires { (port < 65536) × Room out.old at (text6 high low port) }
    ensures { Laid out.old at (text6 high low port) out.new result }
{
    let first = put(out, at, b'[');
    let second = write_ip(out, first, high, low);
    let third = put(out, second, b']');
    write_marked(out, third, b':', 10, port)
}

// The value of a digit.
fn digit_value(byte: u8) -> u64
    ensures { (result ≡ digit_value byte) × (result < 16) }
{
    let b = wide(byte);
    if b < 97 {
        return b % 16;
    }
    (b + 9) % 16
}

// A digit more of the number being read.
fn with_digit(mut s: Seen, v: u64) -> Seen
    requires { v < 16 }
    ensures { result ≡ with_digit s v }
{
    s.value = s.value % 4096 * 16 + v;
    s.decimal = s.decimal % 10000 * 10 + v;
    s.started = 1;
    s
}

// No number is being read.
fn fresh(mut s: Seen) -> Seen
    ensures { result ≡ fresh_of s }
{
    s.value = 0;
    s.decimal = 0;
    s.started = 0;
    s
}

// The number being read as the next group.
fn pushed(mut s: Seen) -> Seen
    ensures { result ≡ pushed_of s }
{
    let at = s.count;
    if 8 <= at {
        return s;
    }
    let mut values = s.values;
    values[at] = s.value;
    s.values = values;
    s.count = at + 1;
    s
}

// A colon ends a group, or makes two colons.
fn with_colon(mut s: Seen) -> Seen
    ensures { result ≡ with_colon s }
{
    if s.started == 1 {
        return fresh(pushed(s));
    }
    s.gap = s.count;
    fresh(s)
}

fn with_dot(mut s: Seen) -> Seen
    ensures { result ≡ with_dot s }
{
    s.dotted = s.dotted % 65536 * 256 + s.decimal % 256;
    s.dots = 1;
    fresh(s)
}

// The group at a place, the groups behind two colons moved to the end.
fn spread(values: [u64; 8], count: usize, gap: usize, i: usize) -> u64
    requires { i < 8 }
    ensures { (result ≡ spread_of values count gap i) × (result < 65536) }
{
    if i < gap {
        return values[i] % 65536;
    }
    if 8 <= count {
        return values[i] % 65536;
    }
    if i - gap < 8 - count {
        return 0;
    }
    values[i - (8 - count)] % 65536
}

fn word(a: u64, b: u64, c: u64, d: u64) -> u64
    requires { (a < 65536) × (b < 65536) × (c < 65536) × (d < 65536) }
    ensures { result ≡ word_of a b c d }
{
    ((a * 65536 + b) * 65536 + c) * 65536 + d
}

// The bracket ends the address.
fn with_end(s: Seen) -> Seen
    ensures { result ≡ with_end s }
{
    if s.dots == 1 {
        let mut t = s;
        t.high = 0;
        t.low = 281470681743360 + (s.dotted % 16777216 * 256 + s.decimal % 256);
        return fresh(t);
    }
    if s.started == 1 {
        return whole(pushed(s));
    }
    whole(s)
}

fn whole(mut s: Seen) -> Seen
    ensures { result ≡ whole_of s }
{
    let values = s.values;
    let count = s.count;
    let gap = s.gap;
    s.high = word(
        spread(values, count, gap, 0),
        spread(values, count, gap, 1),
        spread(values, count, gap, 2),
        spread(values, count, gap, 3),
    );
    s.low = word(
        spread(values, count, gap, 4),
        spread(values, count, gap, 5),
        spread(values, count, gap, 6),
        spread(values, count, gap, 7),
    );
    fresh(s)
}

// One byte more.
fn next(s: Seen, byte: u8) -> Seen
    ensures { result ≡ next_of s byte }
{
    if byte == b':' {
        return with_colon(s);
    }
    if byte == b'.' {
        return with_dot(s);
    }
    if byte == b']' {
        return with_end(s);
    }
    if byte == b'[' {
        return s;
    }
    with_digit(s, digit_value(byte))
}

// What a canonical text says; of any other text something.
fn guess(bytes: &[u8]) -> Seen
    ensures { result ≡ run none bytes.now }
{
    let values = [0u64; 8];
    let mut s = Seen {
        values,
        count: 0,
        gap: 0,
        value: 0,
        decimal: 0,
        started: 0,
        dotted: 0,
        dots: 0,
        high: 0,
        low: 0,
    };
    let mut i: usize = 0;
    while i < bytes.len() {
        s = next(s, bytes[i]);
        i += 1;
    }
    s
}

// Is it the text of an address?
fn is_text(bytes: &[u8], high: u64, low: u64, port: u64) -> bool
    requires { port < 65536 }
    ensures { (result ≡ true → bytes.now ≡ text6 high low port) × (bytes.now ≡ text6 high low port → result ≡ true) }
{
    let mut row = [0u8; 47];
    let len = text_len6(high, low, port);
    let end = write6(&mut row, 0, high, low, port);
    check::same(bytes, &row[0..end])
}

// The address that a text says, if the text is canonical.
pub fn read6(bytes: &[u8]) -> Said
    ensures { result ≡ said6 bytes.now }
{
    let s = guess(bytes);
    let high = s.high;
    let low = s.low;
    let port = s.decimal % 65536;
    if is_text(bytes, high, low, port) {
        return Said::Given { high, low, port };
    }
    Said::Malformed
}

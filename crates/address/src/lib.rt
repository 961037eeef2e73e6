// An address: a family, 128 bits as two numbers, and a port. Beside this crate only its texts, its saved bytes and its words look inside one.
#![tactic(auto)]

ghost use Rattle.std.specs.Prelude.{◌≡◌, ◌≤◌, ◌<◌};
ghost use Rattle.address.specs.IPv4.{digits as digits_of, text_length};
ghost use Rattle.address.specs.Families.{number as number_of, numbered};
ghost use Rattle.address.specs.Here.{here, here_slot, here_drawer};

use model::both;

// Of IPv6, or of IPv4, whose 32 bits stand in `low`.
#[derive(Clone, Copy)]
pub struct Address {
    pub family: u8,
    pub port: u16,
    pub high: u64,
    pub low: u64,
}

impl Address {
    pub const V4: u8 = 4;

    pub const V6: u8 = 6;
    // 2^32: an address of IPv4 is below it.
    pub const END: u64 = 4294967296;
    // 2^48: an address of IPv4 with its port as one number is below it.
    pub const NUMBERS: u64 = 281474976710656;
}

// Are two addresses the same?
pub fn same(a: Address, b: Address) -> bool
    ensures { result ≡ here.same a b }
{
    both(
        both(a.family == b.family, a.high == b.high),
        both(a.low == b.low, a.port == b.port),
    )
}

// The address of an unused place.
pub fn blank() -> Address
    ensures { result ≡ here.blank }
{
    Address {
        family: 0,
        port: 0,
        high: 0,
        low: 0,
    }
}

// Does an address have a text of its own?
pub fn in_range(a: Address) -> bool
    ensures { result ≡ here.valid a }
{
    if a.family == Address::V6 {
        return true;
    }
    both(
        a.family == Address::V4,
        both(a.high == 0, a.low < Address::END),
    )
}

// One of 1024 slots, by which an address is told from others: addresses that are near one another are put into different ones.
pub fn slot(a: Address) -> usize
    ensures { (result ≡ here_slot a) × (result < 1024) }
{
    let port = wide(a.port);
    let near = a.low % 1024 + port % 1024;
    let far = a.low / 1024 % 1024 * 131 + a.low / 1048576 % 4096 * 37;
    let mixed = (a.high % 1024 * 61 + far + near) % 1024;
    mixed as usize
}

// One of 64 drawers, by which an address is sought in a row.
pub fn drawer(a: Address) -> usize
    ensures { (result ≡ here_drawer a) × (result < 64) }
{
    slot(a) % 64
}

// A port as a number.
fn wide(port: u16) -> u64
    ensures { (result ≡ port) × (result < 65536) }
{
    port as u64
}

// A number below 65536 as a port.
fn narrow(n: u64) -> u16
    requires { n < 65536 }
    ensures { result ≡ n }
{
    n as u16
}

// An address of IPv4 as one number: ip × 65536 + port.
pub fn number(a: Address) -> u64
    ensures { (result ≡ number_of a) × (result < 281474976710656) }
{
    a.low % 4294967296 * 65536 + wide(a.port)
}

// The address of IPv4 that a number says.
pub fn from_number(n: u64) -> Address
    ensures { result ≡ numbered n }
{
    Address {
        family: 4,
        port: narrow(n % 65536),
        high: 0,
        low: n / 65536,
    }
}

// How many decimal digits a number below 100000 has.
fn digits(n: u64) -> u64
    ensures { (result ≡ digits_of n) × (result ≤ 5) }
{
    if n < 10 {
        return 1;
    }
    if n < 100 {
        return 2;
    }
    if n < 1000 {
        return 3;
    }
    if n < 10000 {
        return 4;
    }
    5
}

// The length of the text a.b.c.d:port: three dots and a colon stand between the five numbers.
fn text_len4(a: u64) -> u64
    ensures { (result ≡ text_length a) × (9 ≤ result) × (result ≤ 21) }
{
    let first = digits(a / 1099511627776 % 256);
    let second = digits(a / 4294967296 % 256);
    let third = digits(a / 16777216 % 256);
    let fourth = digits(a / 65536 % 256);
    let port = digits(a % 65536);
    first + second + third + fourth + port + 4
}

// The length of an address's text.
pub fn text_len(a: Address) -> u64
    ensures { (result ≡ here.chars a) × (6 ≤ result) × (result ≤ 47) }
{
    if a.family == Address::V6 {
        return ip6::text_len6(a.high, a.low, wide(a.port));
    }
    text_len4(number(a))
}

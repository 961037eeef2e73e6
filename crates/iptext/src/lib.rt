// An address as text, a.b.c.d:port or [..]:port: read if it is canonical, and written.
#![tactic(auto)]

ghost use Rattle.std.specs.Prelude.{◌≡◌, ◌<◌};
ghost use Rattle.varint.specs.Laid.{Laid, Room};
ghost use Rattle.address.specs.Here.{here_text};
ghost use Rattle.iptext.specs.Parted.{parted};
ghost use Rattle.iptext.specs.Reading.{text_of, four as four_of, six as six_of};

use address::Address;
use ip4text::Text as Text4;
use ip6text::Said;

// What a text says: nothing, no address, or one.
#[derive(Clone, Copy)]
pub enum Text {
    Empty,
    Malformed,
    Given(Address),
}

// A port as a number.
fn wide(port: u16) -> u64
    ensures { (result ≡ port) × (result < 65536) }
{
    port as u64
}

// A number below 65536 as a port.
fn narrow(n: u64) -> u16
    requires { n < 65536 }
    ensures { result ≡ n }
{
    n as u16
}

// The address of IPv6 that two numbers and a port say.
fn from_parts(high: u64, low: u64, port: u64) -> Address
    ensures { result ≡ parted high low port }
{
    Address {
        family: Address::V6,
        port: narrow(port % 65536),
        high,
        low,
    }
}

// What is said of IPv4.
fn four(said: Text4) -> Text
    ensures { result ≡ four_of said }
{
    match said {
        Text4::Empty => Text::Empty,
        Text4::Malformed => Text::Malformed,
        Text4::Given(n) => Text::Given(address::from_number(n)),
    }
}

// What is said of IPv6.
fn six(said: Said) -> Text
    ensures { result ≡ six_of said }
{
    match said {
        Said::Malformed => Text::Malformed,
        Said::Given { high, low, port } => Text::Given(from_parts(high, low, port)),
    }
}

// The address that a text says: one that begins with a bracket is of IPv6.
pub fn read(bytes: &[u8]) -> Text
    ensures { result ≡ text_of bytes.now }
{
    if bytes.len() == 0 {
        return Text::Empty;
    }
    if bytes[0] == b'[' {
        return six(ip6text::read6(bytes));
    }
    four(ip4text::read(bytes))
}

// The text of an address, written from a place on; the place past it.
pub fn write(out: &mut [u8], at: usize, a: Address) -> usize
    requires { Room out.old at (here_text a) }
    ensures { Laid out.old at (here_text a) out.new result }
{
    if a.family == Address::V6 {
        return ip6text::write6(out, at, a.high, a.low, wide(a.port));
    }
    ip4text::write(out, at, address::number(a))
}

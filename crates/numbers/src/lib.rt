// A number in bytes, the high byte first.
#![tactic(auto)]

ghost use Rattle.std.specs.Prelude.{◌≡◌, ◌+◌, ◌≤◌, ◌<◌, ◌^◌, length, take, drop};
ghost use Rattle.varint.specs.Laid.{Laid, Room};
ghost use Rattle.numbers.specs.Numbers.{big_endian, number_of};

fn wide(byte: u8) -> u64
    ensures { (result ≡ byte) × (result < 256) }
{
    byte as u64
}

fn low(n: u64) -> u8
    requires { n < 256 }
    ensures { result ≡ n }
{
    n as u8
}

// A number in so many bytes, written from a place on; the place past them.
pub fn put_number(out: &mut [u8], at: usize, n: u64, width: usize) -> usize
    requires { Room out.old at (big_endian width n) }
    ensures { Laid out.old at (big_endian width n) out.new result }
{
    if width == 0 {
        return at;
    }
    let end = put_number(out, at, n / 256, width - 1);
    out[end] = low(n % 256);
    end + 1
}

// The number that so many bytes say from a place on.
pub fn get_number(bytes: &[u8], at: usize, width: usize) -> u64
    requires { (width ≤ 8) × (at + width ≤ length bytes.now) }
    ensures { (result ≡ number_of (take width (drop at bytes.now))) × (result < 256 ^ width) }
{
    let mut value: u64 = 0;
    let mut i: usize = 0;
    while i < width {
        value = value * 256 + wide(bytes[at + i]);
        i += 1;
    }
    value
}

// A number as protobuf writes it: seven bits a byte, the lowest first, 128 more in each byte but the last.
#![tactic(auto)]

ghost use Rattle.std.specs.Prelude.{◌≡◌, ◌<◌};
ghost use Rattle.types.specs.Wire.{varint};
ghost use Rattle.varint.specs.Laid.{Laid, Room};
ghost use Rattle.varint.specs.Varint.{number_at};

// What stands at the start of some bytes: a number, with how many bytes it takes, or none that is whole and below 2^64.
#[derive(Clone, Copy)]
pub enum Number {
    Stopped,
    Found { value: u64, size: usize },
}

// A byte as a number.
pub fn wide(byte: u8) -> u64
    ensures { (result ≡ byte) × (result < 256) }
{
    byte as u64
}

// A number below 256 as a byte.
pub fn low(n: u64) -> u8
    requires { n < 256 }
    ensures { result ≡ n }
{
    n as u8
}

// The number at the start: nine bytes of seven bits, and of a tenth only the lowest bit is free.
pub fn read(bytes: &[u8]) -> Number
    ensures { result ≡ number_at bytes.now }
{
    let mut value: u64 = 0;
    let mut scale: u64 = 1;
    let mut i: usize = 0;
    while i < 9 {
        if bytes.len() <= i {
            return Number::Stopped;
        }
        let b = wide(bytes[i]);
        if b < 128 {
            return Number::Found {
                value: value + b * scale,
                size: i + 1,
            };
        }
        value += (b - 128) * scale;
        scale *= 128;
        i += 1;
    }
    if bytes.len() <= 9 {
        return Number::Stopped;
    }
    let last = wide(bytes[9]);
    if 1 < last {
        return Number::Stopped;
    }
    Number::Found {
        value: value + last * scale,
        size: 10,
    }
}

// The number's bytes, written from a place on; the place past them.
pub fn write(out: &mut [u8], at: usize, n: u64) -> usize
    requires { Room out.old at (varint n) }
    ensures { Laid out.old at (varint n) out.new result }
{
    let mut rest = n;
    let mut i = at;
    while 128 <= rest {
        out[i] = low(rest % 128 + 128);
        rest = rest / 128;
        i += 1;
    }
    out[i] = low(rest);
    i + 1
}

// Whether bytes are UTF-8, as RFC 3629 has it.
#![tactic(auto)]

ghost use Rattle.std.specs.Prelude.{◌≡◌};
ghost use Rattle.utf8.specs.Utf8.{asks, leads, after as goes_further, utf8};

// What a first byte asks for: how many bytes behind it, and what the next of them lies between. A byte that begins no character asks for four.
#[derive(Clone, Copy)]
pub struct Lead {
    pub left: u64,
    pub low: u8,
    pub high: u8,
}

// What a byte asks for.
fn lead_of(left: u64, low: u8, high: u8) -> Lead
    ensures { result ≡ asks left low high }
{
    Lead { left, low, high }
}

fn asked(b: u8) -> Lead
    ensures { result ≡ leads b }
{
    if b < 128 {
        return lead_of(0, 128, 191);
    }
    if b < 194 {
        return lead_of(4, 128, 191);
    }
    if b < 224 {
        return lead_of(1, 128, 191);
    }
    if b == 224 {
        return lead_of(2, 160, 191);
    }
    if b == 237 {
        return lead_of(2, 128, 159);
    }
    if b < 240 {
        return lead_of(2, 128, 191);
    }
    if b == 240 {
        return lead_of(3, 144, 191);
    }
    if b < 244 {
        return lead_of(3, 128, 191);
    }
    if b == 244 {
        return lead_of(3, 128, 143);
    }
    lead_of(4, 128, 191)
}

// What is asked for after one more byte.
fn after(l: Lead, b: u8) -> Lead
    ensures { result ≡ goes_further l b }
{
    if l.left == 0 {
        return asked(b);
    }
    if b < l.low {
        return Lead {
            left: 4,
            low: 128,
            high: 191,
        };
    }
    if l.high < b {
        return Lead {
            left: 4,
            low: 128,
            high: 191,
        };
    }
    Lead {
        left: l.left - 1,
        low: 128,
        high: 191,
    }
}

// Are the bytes whole characters?
pub fn valid(bytes: &[u8]) -> bool
    ensures { result ≡ utf8 bytes.now }
{
    let mut l = Lead {
        left: 0,
        low: 128,
        high: 191,
    };
    let mut i: usize = 0;
    while i < bytes.len() {
        l = after(l, bytes[i]);
        if l.left == 4 {
            return false;
        }
        i += 1;
    }
    l.left == 0
}

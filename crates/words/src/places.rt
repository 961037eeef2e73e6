// Words parted by one space. A word starts at a place; past the last word the place is the length plus one.
ghost use Rattle.std.specs.Prelude.{◌≤◌, length};

use crate::addresses::{Named, address_word};
use crate::{Number, number_of};
use address::Address;
use types::Optional;

#[derive(Clone, Copy)]
pub enum NumberAt {
    Malformed,
    Found { value: u64, next: usize },
}

#[derive(Clone, Copy)]
pub enum TickAt {
    Malformed,
    Found { value: u32, next: usize },
}

#[derive(Clone, Copy)]
pub enum AddressAt {
    Malformed,
    Found { address: Address, next: usize },
}

#[derive(Clone, Copy)]
pub enum OptionalAt {
    Malformed,
    Found { address: Optional, next: usize },
}

#[derive(Clone, Copy)]
pub enum MarkAt {
    Missing,
    Found(usize),
}

// The first place from `at` on that holds `mark`, or the length.
pub fn find(s: &[u8], at: usize, mark: u8) -> usize
    requires { at ≤ length s.now }
    ensures { (at ≤ result) × (result ≤ length s.now) }
{
    let mut i = at;
    while i < s.len() {
        if s[i] == mark {
            return i;
        }
        i += 1;
    }
    i
}

// The word that starts at a place, as a number.
pub fn number_at(s: &[u8], at: usize) -> NumberAt {
    if s.len() < at {
        return NumberAt::Malformed;
    }
    let end = find(s, at, b' ');
    let Number::Value(value) = number_of(&s[at..end]) else {
        return NumberAt::Malformed;
    };
    NumberAt::Found {
        value,
        next: end + 1,
    }
}

// A number that ends at a mark.
pub fn field_at(s: &[u8], at: usize, mark: u8) -> NumberAt {
    if s.len() < at {
        return NumberAt::Malformed;
    }
    let end = find(s, at, mark);
    if end == s.len() {
        return NumberAt::Malformed;
    }
    let Number::Value(value) = number_of(&s[at..end]) else {
        return NumberAt::Malformed;
    };
    NumberAt::Found {
        value,
        next: end + 1,
    }
}

// A tick or a setting: a number below 2^32.
pub fn tick_at(s: &[u8], at: usize) -> TickAt {
    let NumberAt::Found { value, next } = number_at(s, at) else {
        return TickAt::Malformed;
    };
    if value < 4294967296 {
        return TickAt::Found {
            value: value as u32,
            next,
        };
    }
    TickAt::Malformed
}

// The place past the word that starts at a place, if that word is one given byte.
pub fn mark_at(s: &[u8], at: usize, mark: u8) -> MarkAt {
    if s.len() <= at {
        return MarkAt::Missing;
    }
    if s[at] != mark {
        return MarkAt::Missing;
    }
    let end = at + 1;
    if end == s.len() {
        return MarkAt::Found(end + 1);
    }
    if s[end] != b' ' {
        return MarkAt::Missing;
    }
    MarkAt::Found(end + 1)
}

// The one place where a word becomes an address.
fn address_of(word: &[u8], next: usize) -> AddressAt {
    let Named::Said(address) = address_word(word) else {
        return AddressAt::Malformed;
    };
    AddressAt::Found { address, next }
}

// The word that starts at a place, as an address.
pub fn address_at(s: &[u8], at: usize) -> AddressAt {
    if s.len() < at {
        return AddressAt::Malformed;
    }
    let end = find(s, at, b' ');
    address_of(&s[at..end], end + 1)
}

// An address that ends at a colon.
pub fn address_field_at(s: &[u8], at: usize) -> AddressAt {
    if s.len() < at {
        return AddressAt::Malformed;
    }
    let end = find(s, at, b':');
    if end == s.len() {
        return AddressAt::Malformed;
    }
    address_of(&s[at..end], end + 1)
}

// An address, or `-` for none.
pub fn optional_at(s: &[u8], at: usize) -> OptionalAt {
    if let MarkAt::Found(next) = mark_at(s, at, b'-') {
        return OptionalAt::Found {
            address: Optional::Absent,
            next,
        };
    }
    let AddressAt::Found { address, next } = address_at(s, at) else {
        return OptionalAt::Malformed;
    };
    OptionalAt::Found {
        address: Optional::Given(address),
        next,
    }
}

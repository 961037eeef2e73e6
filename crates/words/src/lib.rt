// Reads words: numbers, addresses, marks, each from its place in a line.
#![tactic(auto)]

mod addresses;
mod pairs;
mod places;

ghost use Rattle.std.specs.Prelude.{◌≡◌};
ghost use Rattle.words.specs.Decimal.{number_of, begun, appended, digits_after};

pub use addresses::is_numbered;
pub use pairs::{BytesAt, bytes_at};
pub use places::{
    AddressAt, MarkAt, NumberAt, OptionalAt, TickAt, address_at, address_field_at, find, mark_at,
    number_at, optional_at, tick_at,
};

#[derive(Clone, Copy)]
pub enum Number {
    Malformed,
    Value(u64),
}

fn wide(byte: u8) -> u64
    ensures { result ≡ byte }
{
    byte as u64
}

// One more digit after the ones that gave a value.
fn append(value: u64, byte: u8) -> Number
    ensures { result ≡ appended value byte }
{
    if byte < 48 {
        return Number::Malformed;
    }
    if 57 < byte {
        return Number::Malformed;
    }
    let digit = wide(byte - 48);
    if (18446744073709551615 - digit) / 10 < value {
        return Number::Malformed;
    }
    Number::Value(value * 10 + digit)
}

// Does a word have a first byte, and no zero in front of another?
fn begins(word: &[u8]) -> bool
    ensures { result ≡ begun word.now }
{
    if word.len() == 0 {
        return false;
    }
    if word.len() == 1 {
        return true;
    }
    word[0] != 48
}

// The value of a word of digits.
fn digits(word: &[u8]) -> Number
    ensures { result ≡ digits_after 0 word.now }
{
    let mut value: u64 = 0;
    let mut i = 0;
    while i < word.len() {
        let Number::Value(next) = append(value, word[i]) else {
            return Number::Malformed;
        };
        value = next;
        i += 1;
    }
    Number::Value(value)
}

// A decimal number below 2^64, without sign or leading zeros.
pub fn number_of(word: &[u8]) -> Number
    ensures { result ≡ number_of word.now }
{
    if begins(word) {
        return digits(word);
    }
    Number::Malformed
}

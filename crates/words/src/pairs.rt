// Bytes as pairs of hexadecimal digits.
use crate::places::{MarkAt, find, mark_at};

// How many bytes a word says.
#[derive(Clone, Copy)]
pub enum BytesAt {
    Malformed,
    Found { length: usize, next: usize },
}

#[derive(Clone, Copy)]
enum Digit {
    Malformed,
    Value(u8),
}

#[derive(Clone, Copy)]
enum Pair {
    Malformed,
    Value(u8),
}

// `0` to `9` and `a` to `f`.
fn digit_of(byte: u8) -> Digit {
    if byte < b'0' {
        return Digit::Malformed;
    }
    if byte <= b'9' {
        return Digit::Value(byte - b'0');
    }
    if byte < b'a' {
        return Digit::Malformed;
    }
    if b'f' < byte {
        return Digit::Malformed;
    }
    Digit::Value(byte - b'a' + 10)
}

fn pair_of(high: u8, low: u8) -> Pair {
    let Digit::Value(first) = digit_of(high) else {
        return Pair::Malformed;
    };
    let Digit::Value(second) = digit_of(low) else {
        return Pair::Malformed;
    };
    Pair::Value((first << 4) | second)
}

fn put(out: &mut [u8], place: usize, byte: u8) {
    if place < out.len() {
        out[place] = byte;
    }
}

// Are these pairs of digits? Their bytes go to the front of the lent row.
fn are_pairs(word: &[u8], out: &mut [u8]) -> bool {
    let mut i = 0;
    while i < word.len() / 2 {
        let Pair::Value(byte) = pair_of(word[2 * i], word[2 * i + 1]) else {
            return false;
        };
        put(out, i, byte);
        i += 1;
    }
    true
}

// The word that starts at a place, as bytes: `-` for none, else pairs of digits.
pub fn bytes_at(s: &[u8], at: usize, out: &mut [u8]) -> BytesAt {
    if let MarkAt::Found(next) = mark_at(s, at, b'-') {
        return BytesAt::Found { length: 0, next };
    }
    if s.len() <= at {
        return BytesAt::Malformed;
    }
    let end = find(s, at, b' ');
    if end == at {
        return BytesAt::Malformed;
    }
    if (end - at) % 2 == 1 {
        return BytesAt::Malformed;
    }
    if are_pairs(&s[at..end], out) {
        return BytesAt::Found {
            length: (end - at) / 2,
            next: end + 1,
        };
    }
    BytesAt::Malformed
}

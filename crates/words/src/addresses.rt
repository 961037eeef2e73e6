// An address as one word: a number for IPv4, HIGH.LOW.PORT for IPv6, FAMILY.HIGH.LOW.PORT for what the shorter forms cannot say.
use crate::places::{field_at, number_at};
use crate::{Number, NumberAt, number_of};
use address::Address;

#[derive(Clone, Copy)]
pub enum Named {
    Malformed,
    Said(Address),
}

// Does one number say it? That is IPv4 whose bits and port have no more than 64 together.
pub fn is_numbered(a: Address) -> bool {
    if a.family != Address::V4 {
        return false;
    }
    if a.high != 0 {
        return false;
    }
    a.low < Address::NUMBERS
}

fn with_port(family: u8, high: u64, low: u64, port: u64) -> Named {
    if 65535 < port {
        return Named::Malformed;
    }
    Named::Said(Address {
        family,
        port: port as u16,
        high,
        low,
    })
}

// A longer form of an address that a shorter one says is none.
fn with_family(family: u64, high: u64, low: u64, port: u64) -> Named {
    if 255 < family {
        return Named::Malformed;
    }
    let Named::Said(a) = with_port(family as u8, high, low, port) else {
        return Named::Malformed;
    };
    if a.family == Address::V6 {
        return Named::Malformed;
    }
    if is_numbered(a) {
        return Named::Malformed;
    }
    Named::Said(a)
}

fn by_number(word: &[u8]) -> Named {
    let Number::Value(n) = number_of(word) else {
        return Named::Malformed;
    };
    Named::Said(address::from_number(n))
}

// The address that a word says.
pub fn address_word(word: &[u8]) -> Named {
    let NumberAt::Found {
        value: first,
        next: second,
    } = field_at(word, 0, b'.')
    else {
        return by_number(word);
    };
    let NumberAt::Found {
        value: middle,
        next: third,
    } = field_at(word, second, b'.')
    else {
        return Named::Malformed;
    };
    if let NumberAt::Found {
        value: low,
        next: fourth,
    } = field_at(word, third, b'.')
    {
        let NumberAt::Found { value: port, next } = number_at(word, fourth) else {
            return Named::Malformed;
        };
        return with_family(first, middle, low, port);
    }
    let NumberAt::Found { value: port, next } = number_at(word, third) else {
        return Named::Malformed;
    };
    with_port(Address::V6, first, middle, port)
}

// Why an event is decided as it is, as text.
use disseminate::Found;
use model::Reply;
use report::{put_byte, put_bytes, put_marked, put_reply};
use std::io::Write;
use why::{Grounds, Reason};

fn put_reason<W: Write>(to: &mut W, out: &mut [u8], at: usize, reason: Reason) -> usize {
    match reason {
        Reason::None => put_bytes(to, out, at, b"none"),
        Reason::Own => put_bytes(to, out, at, b"own"),
        Reason::Unknown => put_bytes(to, out, at, b"unknown"),
        Reason::Equal => put_bytes(to, out, at, b"equal"),
        Reason::Low => put_bytes(to, out, at, b"low"),
        Reason::Raised => put_bytes(to, out, at, b"raised"),
        Reason::Accepted => put_bytes(to, out, at, b"accepted"),
    }
}

// A number, or `-` where there is none.
fn put_found<W: Write>(to: &mut W, out: &mut [u8], at: usize, found: Found) -> usize {
    match found {
        Found::Missing => put_bytes(to, out, at, b" -"),
        Found::At(number) => put_marked(to, out, at, b' ', number),
    }
}

// `= why REASON HELD NUMBER D`, or the refusal.
pub fn put_grounds<W: Write>(to: &mut W, out: &mut [u8], at: usize, grounds: Grounds) -> usize {
    match grounds {
        Grounds::Because {
            reason,
            held,
            number,
            dead,
        } => {
            let word = put_bytes(to, out, at, b"= why ");
            let told = put_reason(to, out, word, reason);
            let first = put_found(to, out, told, held);
            let second = put_found(to, out, first, number);
            let third = put_found(to, out, second, dead);
            put_byte(to, out, third, b'\n')
        }
        Grounds::Refused(refusal) => put_reply(to, out, at, Reply::Refused(refusal)),
    }
}

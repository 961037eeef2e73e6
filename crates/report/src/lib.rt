// Writes answers as text. Bytes gather in a lent buffer from place 0 on, and go to a writer whenever it is full. What a write answers is not looked at: a
// writer that may fail keeps its error, as `streams::Outlet` does.
#![tactic(auto)]

use address::Address;
use itoa::Buffer;
use model::{Cause, Refusal, Reply, State};
use std::io::Write;
use types::{Action, Event, Optional};

// Each function takes the writer, and the buffer with the place of the next byte, and gives back the place after what it put.
pub fn put_byte<W: Write>(to: &mut W, out: &mut [u8], at: usize, byte: u8) -> usize {
    if at < out.len() {
        out[at] = byte;
        return at + 1;
    }
    let _ = to.write_all(out);
    if 0 < out.len() {
        out[0] = byte;
        return 1;
    }
    0
}

pub fn put_bytes<W: Write>(to: &mut W, out: &mut [u8], from: usize, bytes: &[u8]) -> usize {
    let mut at = from;
    for i in 0..bytes.len() {
        at = put_byte(to, out, at, bytes[i]);
    }
    at
}

// Writes what has gathered.
pub fn flush<W: Write>(to: &mut W, out: &mut [u8], at: usize) -> usize {
    if at <= out.len() {
        let _ = to.write_all(&out[0..at]);
    }
    0
}

pub fn put_number<W: Write>(to: &mut W, out: &mut [u8], at: usize, n: u64) -> usize {
    let mut buffer = Buffer::new();
    put_bytes(to, out, at, buffer.format(n).as_bytes())
}

// A mark and a number after it.
pub fn put_marked<W: Write>(to: &mut W, out: &mut [u8], at: usize, mark: u8, n: u64) -> usize {
    let start = put_byte(to, out, at, mark);
    put_number(to, out, start, n)
}

// HIGH.LOW.PORT.
fn put_bits<W: Write>(to: &mut W, out: &mut [u8], at: usize, a: Address) -> usize {
    let high = put_number(to, out, at, a.high);
    let low = put_marked(to, out, high, b'.', a.low);
    put_marked(to, out, low, b'.', a.port as u64)
}

// The one place that writes an address, in the shortest form that says it: a number, HIGH.LOW.PORT, or FAMILY.HIGH.LOW.PORT.
fn put_address<W: Write>(to: &mut W, out: &mut [u8], at: usize, a: Address) -> usize {
    if a.family == Address::V6 {
        return put_bits(to, out, at, a);
    }
    if words::is_numbered(a) {
        return put_number(
            to,
            out,
            at,
            a.low % Address::NUMBERS * 65536 + a.port as u64,
        );
    }
    let family = put_number(to, out, at, a.family as u64);
    let mark = put_byte(to, out, family, b'.');
    put_bits(to, out, mark, a)
}

// A mark and an address after it.
pub fn put_marked_address<W: Write>(
    to: &mut W,
    out: &mut [u8],
    at: usize,
    mark: u8,
    a: Address,
) -> usize {
    let start = put_byte(to, out, at, mark);
    put_address(to, out, start, a)
}

fn letter_of(kind: u64) -> u8 {
    match kind {
        1 => b'j',
        2 => b'r',
        3 => b's',
        _ => b'd',
    }
}

// `j:FROM:SUBJECT:NUMBER`, or `n` for no event.
pub fn put_record<W: Write>(to: &mut W, out: &mut [u8], at: usize, event: Event) -> usize {
    let parts = types::parts_of(event);
    if parts.kind == 0 {
        return put_byte(to, out, at, b'n');
    }
    let letter = put_byte(to, out, at, letter_of(parts.kind));
    let from = put_marked_address(to, out, letter, b':', parts.from);
    let subject = put_marked_address(to, out, from, b':', parts.subject);
    put_marked(to, out, subject, b':', parts.number)
}

// An entry of a heap: its record, `*SENDS`, `/SIZE`.
pub fn put_entry<W: Write>(
    to: &mut W,
    out: &mut [u8],
    at: usize,
    event: Event,
    sends: u64,
    size: u64,
) -> usize {
    let record = put_record(to, out, at, event);
    let sent = put_marked(to, out, record, b'*', sends);
    put_marked(to, out, sent, b'/', size)
}

pub fn state_letter(state: State) -> u8 {
    match state {
        State::Alive => b'a',
        State::Pending => b'p',
        State::Suspected => b's',
    }
}

// `ADDRESS:STATE:NUMBER`.
pub fn put_member<W: Write>(
    to: &mut W,
    out: &mut [u8],
    at: usize,
    peer: Address,
    state: State,
    number: u64,
) -> usize {
    let start = put_address(to, out, at, peer);
    let colon = put_byte(to, out, start, b':');
    let letter = put_byte(to, out, colon, state_letter(state));
    put_marked(to, out, letter, b':', number)
}

// `ADDRESS:NUMBER:TICK`.
pub fn put_timer<W: Write>(
    to: &mut W,
    out: &mut [u8],
    at: usize,
    peer: Address,
    number: u64,
    tick: u32,
) -> usize {
    let start = put_address(to, out, at, peer);
    let middle = put_marked(to, out, start, b':', number);
    put_marked(to, out, middle, b':', tick as u64)
}

fn put_optional<W: Write>(to: &mut W, out: &mut [u8], at: usize, address: Optional) -> usize {
    match address {
        Optional::Absent => put_bytes(to, out, at, b" -"),
        Optional::Given(a) => put_marked_address(to, out, at, b' ', a),
    }
}

// A message without its records.
pub fn put_action<W: Write>(to: &mut W, out: &mut [u8], at: usize, action: Action) -> usize {
    match action {
        Action::Ping { from, requested_by } => {
            let word = put_bytes(to, out, at, b" ping");
            let sender = put_marked_address(to, out, word, b' ', from);
            put_optional(to, out, sender, requested_by)
        }
        Action::PingReq { from, suspect } => {
            let word = put_bytes(to, out, at, b" req");
            let sender = put_marked_address(to, out, word, b' ', from);
            put_marked_address(to, out, sender, b' ', suspect)
        }
        Action::Ack { from, forward_to } => {
            let word = put_bytes(to, out, at, b" ack");
            let sender = put_marked_address(to, out, word, b' ', from);
            put_optional(to, out, sender, forward_to)
        }
    }
}

// `> TARGET` and the message without its records.
pub fn put_message<W: Write>(
    to: &mut W,
    out: &mut [u8],
    at: usize,
    target: Address,
    action: Action,
) -> usize {
    let start = put_bytes(to, out, at, b"> ");
    let sent = put_address(to, out, start, target);
    put_action(to, out, sent, action)
}

// The digit of a number below 16.
fn digit(n: u8) -> u8 {
    if n < 10 {
        return b'0' + n;
    }
    if n < 16 {
        return b'a' + (n - 10);
    }
    b'?'
}

fn put_pair<W: Write>(to: &mut W, out: &mut [u8], at: usize, byte: u8) -> usize {
    let high = put_byte(to, out, at, digit(byte >> 4));
    put_byte(to, out, high, digit(byte & 15))
}

fn put_pairs<W: Write>(to: &mut W, out: &mut [u8], from: usize, bytes: &[u8]) -> usize {
    let mut at = from;
    for i in 0..bytes.len() {
        at = put_pair(to, out, at, bytes[i]);
    }
    at
}

// `< BYTES`: pairs of hexadecimal digits, `-` where there are none.
pub fn put_written<W: Write>(to: &mut W, out: &mut [u8], at: usize, bytes: &[u8]) -> usize {
    let start = put_bytes(to, out, at, b"< ");
    if bytes.len() == 0 {
        return put_bytes(to, out, start, b"-\n");
    }
    let end = put_pairs(to, out, start, bytes);
    put_byte(to, out, end, b'\n')
}

fn put_refusal<W: Write>(to: &mut W, out: &mut [u8], at: usize, refusal: Refusal) -> usize {
    let word = put_bytes(to, out, at, b"= refused");
    put_marked(to, out, word, b' ', model::refusal_number(refusal) as u64)
}

// Which record, counted from 0, or the sender.
fn put_cause<W: Write>(to: &mut W, out: &mut [u8], at: usize, cause: Cause) -> usize {
    match cause {
        Cause::Record(k) => put_marked(to, out, at, b' ', k as u64),
        Cause::Sender => put_bytes(to, out, at, b" sender"),
    }
}

fn put_verdict<W: Write>(to: &mut W, out: &mut [u8], at: usize, reply: Reply) -> usize {
    match reply {
        Reply::Done(used) => {
            let word = put_bytes(to, out, at, b"= ok");
            put_marked(to, out, word, b' ', used as u64)
        }
        Reply::Already => put_bytes(to, out, at, b"= already"),
        Reply::NotDue => put_bytes(to, out, at, b"= notdue"),
        Reply::Refuted => put_bytes(to, out, at, b"= refuted"),
        Reply::Gone => put_bytes(to, out, at, b"= gone"),
        Reply::Refused(refusal) => put_refusal(to, out, at, refusal),
        Reply::RefusedAt(refusal, cause) => {
            let number = put_refusal(to, out, at, refusal);
            put_cause(to, out, number, cause)
        }
    }
}

// The line of refusal 11, which tells a place of the bytes.
pub fn put_malformed<W: Write>(to: &mut W, out: &mut [u8], at: usize, place: usize) -> usize {
    let number = put_verdict(to, out, at, Reply::Refused(Refusal::Malformed));
    let end = put_marked(to, out, number, b' ', place as u64);
    put_byte(to, out, end, b'\n')
}

// The answer's own line.
pub fn put_reply<W: Write>(to: &mut W, out: &mut [u8], at: usize, reply: Reply) -> usize {
    let end = put_verdict(to, out, at, reply);
    put_byte(to, out, end, b'\n')
}

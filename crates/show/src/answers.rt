// An answer's messages and events as text.
ghost use Rattle.std.specs.Prelude.{◌≤◌};

use crate::state::least;
use model::Reply;
use node::{Answer, Letter};
use report::{put_byte, put_bytes, put_message, put_number, put_record, put_reply};
use std::io::Write;
use types::{Event, Gossip};

// The records of a message stand one after the other in the row.
fn put_records<W: Write>(
    to: &mut W,
    out: &mut [u8],
    from: usize,
    rows: [Gossip; 256],
    first: usize,
    end: usize,
) -> usize
    requires { end ≤ 256 }
{
    let mut at = from;
    for i in first..end {
        let g = rows[i];
        let event = g.event;
        let start = put_byte(to, out, at, b' ');
        at = put_record(to, out, start, event);
    }
    put_byte(to, out, at, b'\n')
}

// Where the records of the next message start.
fn end_of(first: usize, count: usize) -> usize
    ensures { result ≤ 256 }
{
    if first < 256 {
        if count < 256 {
            return least(first + count, 256);
        }
    }
    256
}

// The messages in sending order, their records packed in the row.
fn put_letters<W: Write>(
    to: &mut W,
    out: &mut [u8],
    from: usize,
    letters: [Letter; 4],
    sent: usize,
    rows: [Gossip; 256],
) -> usize
    requires { sent ≤ 4 }
{
    let mut at = from;
    let mut first: usize = 0;
    for i in 0..sent {
        let letter = letters[i];
        let action = letter.action;
        let end = end_of(first, letter.count);
        let start = put_message(to, out, at, letter.target, action);
        at = put_records(to, out, start, rows, first, end);
        first = end;
    }
    at
}

// The answer's own line, and the messages.
pub fn put_answer<W: Write>(
    to: &mut W,
    out: &mut [u8],
    at: usize,
    answer: Answer,
    rows: [Gossip; 256],
) -> usize {
    let reply = answer.reply;
    let letters = answer.letters;
    let told = put_reply(to, out, at, reply);
    put_letters(to, out, told, letters, least(answer.sent, 4), rows)
}

fn put_event<W: Write>(to: &mut W, out: &mut [u8], at: usize, event: Event) -> usize {
    let mark = put_bytes(to, out, at, b"! ");
    let record = put_record(to, out, mark, event);
    put_byte(to, out, record, b'\n')
}

// The events that a message's call reports.
pub fn put_events<W: Write>(
    to: &mut W,
    out: &mut [u8],
    from: usize,
    events: [Gossip; 65],
    reported: usize,
) -> usize
    requires { reported ≤ 65 }
{
    let mut at = from;
    for i in 0..reported {
        let g = events[i];
        let event = g.event;
        at = put_event(to, out, at, event);
    }
    at
}

// The event that a step or a timer call may report.
pub fn put_one<W: Write>(
    to: &mut W,
    out: &mut [u8],
    at: usize,
    events: [Gossip; 1],
    reported: usize,
) -> usize {
    if reported == 0 {
        return at;
    }
    let g = events[0];
    let event = g.event;
    put_event(to, out, at, event)
}

// How many held events a kept call collected, where the node collects.
pub fn put_collected<W: Write>(to: &mut W, out: &mut [u8], at: usize, answer: Answer) -> usize {
    if !answer.node.settings.collect {
        return at;
    }
    let reply = answer.reply;
    let Reply::Done(_) = reply else {
        return at;
    };
    let mark = put_bytes(to, out, at, b"~ ");
    let number = put_number(to, out, mark, answer.collected as u64);
    put_byte(to, out, number, b'\n')
}

// A message's row, at the length of a step's row.
pub fn widen(rows: [Gossip; 64]) -> [Gossip; 256] {
    let nothing = Gossip {
        event: Event::Nothing,
    };
    let mut wide = [nothing; 256];
    for i in 0..64 {
        wide[i] = rows[i];
    }
    wide
}

// What the reader, the writer and a save answered, as text.
ghost use Rattle.std.specs.Prelude.{◌≤◌};

use crate::state::least;
use incoming::Reading;
use model::Reply;
use outgoing::Writing;
use report::{put_action, put_byte, put_malformed, put_record, put_reply, put_written};
use saving::Saving;
use std::io::Write;
use types::Gossip;

// The records of a message that was read, and the line's end.
fn put_row<W: Write>(
    to: &mut W,
    out: &mut [u8],
    from: usize,
    row: [Gossip; 65],
    count: usize,
) -> usize
    requires { count ≤ 65 }
{
    let mut at = from;
    for i in 0..count {
        let g = row[i];
        let event = g.event;
        let start = put_byte(to, out, at, b' ');
        at = put_record(to, out, start, event);
    }
    put_byte(to, out, at, b'\n')
}

// The answer's own line, and what was read.
pub fn put_reading<W: Write>(
    to: &mut W,
    out: &mut [u8],
    at: usize,
    reading: Reading,
    row: [Gossip; 65],
) -> usize {
    match reading {
        Reading::Whole { action, count } => {
            let told = put_reply(to, out, at, Reply::Done(0));
            let mark = put_byte(to, out, told, b'<');
            let start = put_action(to, out, mark, action);
            put_row(to, out, start, row, least(count, 65))
        }
        Reading::Malformed(place) => put_malformed(to, out, at, place),
        Reading::Refused(refusal) => put_reply(to, out, at, Reply::Refused(refusal)),
    }
}

// So many bytes at the front of a row.
fn put_front<W: Write>(to: &mut W, out: &mut [u8], at: usize, row: &[u8], length: usize) -> usize {
    if length <= row.len() {
        return put_written(to, out, at, &row[0..length]);
    }
    at
}

// The answer's own line, and what was written to the front of the row.
pub fn put_writing<W: Write>(
    to: &mut W,
    out: &mut [u8],
    at: usize,
    writing: Writing,
    row: &[u8],
) -> usize {
    match writing {
        Writing::Whole(length) => {
            let told = put_reply(to, out, at, Reply::Done(0));
            put_front(to, out, told, row, length)
        }
        Writing::Refused(refusal) => put_reply(to, out, at, Reply::Refused(refusal)),
    }
}

// The same of a saved list.
pub fn put_saving<W: Write>(
    to: &mut W,
    out: &mut [u8],
    at: usize,
    saving: Saving,
    row: &[u8],
) -> usize {
    match saving {
        Saving::Whole(length) => put_writing(to, out, at, Writing::Whole(length), row),
        Saving::Refused(refusal) => put_writing(to, out, at, Writing::Refused(refusal), row),
    }
}

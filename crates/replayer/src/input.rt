// Standard input, cut into lines.
ghost use Rattle.std.specs.Prelude.{◌≡◌, ◌+◌, ◌≤◌, length};

use crate::calls::obey;
use keeper::Host;
use report::{flush, put_bytes, put_number};
use std::env::Env;
use std::io;
use std::io::{Read, Write};
use streams::Outlet;
use telling::put_old;
use text::read_line;
use words::find;

// A part of a line, kept behind what is kept of it already: as much as there is room for.
fn keep(line: &mut [u8], kept: usize, part: &[u8]) -> usize {
    let mut at = kept;
    for i in 0..part.len() {
        at = keep_byte(line, at, part[i]);
    }
    at
}

// Past the end of the room the count stands at one more than there is room for.
fn keep_byte(line: &mut [u8], at: usize, byte: u8) -> usize {
    if at < line.len() {
        line[at] = byte;
        return at + 1;
    }
    line.len() + 1
}

fn answer_line<W: Write>(
    host: Host,
    line: &[u8],
    to: &mut W,
    out: &mut [u8],
    draws: &mut [u64],
    bytes: &mut [u8],
) -> Host {
    let read = read_line(line, draws, bytes);
    let command = read.command;
    let records = read.records;
    let drawn = read.drawn;
    if drawn <= draws.len() {
        return obey(
            host,
            command,
            records,
            &draws[0..drawn],
            bytes,
            read.length,
            to,
            out,
        );
    }
    host.at_odds(to, out)
}

// An empty line and a remark are skipped, a remark at any length.
fn end_line<W: Write>(
    mut host: Host,
    kept: usize,
    line: &mut [u8],
    to: &mut W,
    out: &mut [u8],
    draws: &mut [u64],
    bytes: &mut [u8],
) -> Host {
    host.line = std::num::wrapping_add_u64(host.line, 1);
    host.kept = 0;
    if kept == 0 {
        return host;
    }
    if line.len() == 0 {
        return host;
    }
    if line[0] == b'#' {
        return host;
    }
    if line.len() < kept {
        return host.at_odds(to, out);
    }
    answer_line(host, &line[0..kept], to, out, draws, bytes)
}

// A line, or the part of one: what goes on in the next chunk waits for its end.
fn take_part<W: Write>(
    mut host: Host,
    part: &[u8],
    is_whole: bool,
    line: &mut [u8],
    to: &mut W,
    out: &mut [u8],
    draws: &mut [u64],
    bytes: &mut [u8],
) -> Host {
    let kept = keep(line, host.kept, part);
    if is_whole {
        return end_line(host, kept, line, to, out, draws, bytes);
    }
    host.kept = kept;
    host
}

// The place after a line feed, or after the end.
fn past(chunk: &[u8], feed: usize) -> usize
    requires { feed ≤ length chunk.now }
    ensures { result ≡ feed + 1 }
{
    feed + 1
}

fn take_chunk<W: Write>(
    mut host: Host,
    chunk: &[u8],
    line: &mut [u8],
    to: &mut W,
    out: &mut [u8],
    draws: &mut [u64],
    bytes: &mut [u8],
) -> Host {
    let mut at = 0;
    while at < chunk.len() {
        let feed = find(chunk, at, b'\n');
        let is_whole = feed < chunk.len();
        let next = take_part(
            host,
            &chunk[at..feed],
            is_whole,
            line,
            to,
            out,
            draws,
            bytes,
        );
        host = next;
        at = past(chunk, feed);
    }
    host
}

// Answers the lines that end in a chunk; what is answered goes out before the next read. Where it is lost, nothing more is read.
fn answer_chunk<W: Write, E: Write>(
    host: Host,
    chunk: &[u8],
    line: &mut [u8],
    to: &mut Outlet<W>,
    err: &mut E,
    out: &mut [u8],
    draws: &mut [u64],
    bytes: &mut [u8],
) -> Host {
    let mut after = take_chunk(host, chunk, line, to, out, draws, bytes);
    let at = flush(to, out, after.unwritten);
    after.unwritten = at;
    after.has_ended = to.is_lost();
    put_progress(after.is_watched, after.line, err, out);
    after
}

// What has gathered goes to standard error.
fn warn<E: Write>(err: &mut E, out: &mut [u8], at: usize) {
    if at <= out.len() {
        let _ = err.write_all(&out[0..at]);
    }
}

// How far it is, if somebody watches.
fn put_progress<E: Write>(is_watched: bool, line: u64, err: &mut E, out: &mut [u8]) {
    if !is_watched {
        return;
    }
    let number = put_number(err, out, 0, line);
    let end = put_bytes(err, out, number, b" lines so far\n");
    warn(err, out, end);
}

// How many lines, calls and malformed lines there were.
fn put_counts<W: Write>(host: Host, at: usize, to: &mut W, out: &mut [u8]) -> usize {
    let lines = put_number(to, out, at, host.line);
    let first = put_bytes(to, out, lines, b" lines, ");
    let calls = put_number(to, out, first, host.calls);
    let second = put_bytes(to, out, calls, b" calls, ");
    let malformed = put_number(to, out, second, host.malformed);
    let end = put_bytes(to, out, malformed, b" malformed\n");
    put_broken(to, out, end, host.is_broken)
}

fn put_broken<W: Write>(to: &mut W, out: &mut [u8], at: usize, is_broken: bool) -> usize {
    if is_broken {
        return put_bytes(to, out, at, b"the input cannot be read\n");
    }
    at
}

// The last words: to standard error, or behind the facts of an audit with who is listed in the end.
fn sum_up<W: Write, E: Write>(host: Host, to: &mut W, err: &mut E, out: &mut [u8]) {
    if host.is_audit {
        let listed = put_old(to, out, host.unwritten, host.line, host.node, host.has_node);
        let mark = put_bytes(to, out, listed, b". ");
        let end = put_counts(host, mark, to, out);
        flush(to, out, end);
        return;
    }
    let start = flush(to, out, host.unwritten);
    let end = put_counts(host, start, err, out);
    warn(err, out, end);
}

// The input has ended, or cannot be read.
fn ended(mut host: Host, is_broken: bool) -> Host {
    host.has_ended = true;
    host.is_broken = is_broken;
    host
}

// Reads once and answers the lines that end there.
fn read_some<I: Read, W: Write, E: Write>(
    host: Host,
    from: &mut I,
    chunk: &mut [u8],
    line: &mut [u8],
    to: &mut Outlet<W>,
    err: &mut E,
    out: &mut [u8],
    draws: &mut [u64],
    bytes: &mut [u8],
) -> Host {
    match from.read(chunk) {
        Err(_) => ended(host, true),
        Ok(0) => ended(host, false),
        Ok(got) => answer_chunk(host, &chunk[..got], line, to, err, out, draws, bytes),
    }
}

// A proved loop has to end, and nothing says that the input does: it counts to a number that no run reaches.
fn answer_all<I: Read, W: Write, E: Write>(
    mut host: Host,
    from: &mut I,
    chunk: &mut [u8],
    line: &mut [u8],
    to: &mut Outlet<W>,
    err: &mut E,
    out: &mut [u8],
    draws: &mut [u64],
    bytes: &mut [u8],
) -> Host {
    for _ in 0..u64::MAX {
        let next = read_some(host, from, chunk, line, to, err, out, draws, bytes);
        if next.has_ended {
            return next;
        }
        host = next;
    }
    host
}

// A last line without a line feed is taken.
fn end_input<W: Write, E: Write>(
    host: Host,
    line: &mut [u8],
    to: &mut W,
    err: &mut E,
    out: &mut [u8],
    draws: &mut [u64],
    bytes: &mut [u8],
) {
    let kept = host.kept;
    if kept == 0 {
        sum_up(host, to, err, out);
        return;
    }
    let last = end_line(host, kept, line, to, out, draws, bytes);
    sum_up(last, to, err, out);
}

fn replay<I: Read, W: Write, E: Write>(
    host: Host,
    from: &mut I,
    chunk: &mut [u8],
    line: &mut [u8],
    to: &mut Outlet<W>,
    err: &mut E,
    out: &mut [u8],
    draws: &mut [u64],
    bytes: &mut [u8],
) {
    let after = answer_all(host, from, chunk, line, to, err, out, draws, bytes);
    if to.is_lost() {
        return;
    }
    end_input(after, line, to, err, out, draws, bytes);
}

// Is an argument that word? One that is longer than the row is none.
fn is_arg<R: Env>(rt: &R, i: usize, name: &[u8]) -> bool {
    let mut word = [0u8; 16];
    let Ok(length) = rt.arg(i, &mut word) else {
        return false;
    };
    &word[..length] == name
}

// Is a word among the first three arguments?
fn is_given<R: Env>(rt: &R, name: &[u8]) -> bool {
    if is_arg(rt, 1, name) {
        return true;
    }
    if is_arg(rt, 2, name) {
        return true;
    }
    is_arg(rt, 3, name)
}

// The first error of the writer, if there was one.
fn start<I: Read, W: Write + Drop, E: Write>(
    host: Host,
    from: &mut I,
    to: W,
    err: &mut E,
) -> io::Result<()> {
    let mut chunk = [0u8; 65536];
    let mut line = [0u8; 65536];
    let mut out = [0u8; 65536];
    let mut draws = [0u64; 1024];
    let mut bytes = [0u8; 65536];
    let mut outlet = Outlet::new(to);
    replay(
        host,
        from,
        &mut chunk,
        &mut line,
        &mut outlet,
        err,
        &mut out,
        &mut draws,
        &mut bytes,
    );
    outlet.finish()
}

// Answers an input to its end. The argument `quiet` leaves the states out, `numbered` puts the line's number before each answer.
pub fn run<R: Env, I: Read, W: Write + Drop, E: Write>(
    rt: &R,
    from: &mut I,
    to: W,
    err: &mut E,
) -> io::Result<()> {
    let host = Host::new(
        is_given(rt, b"quiet"),
        is_given(rt, b"numbered"),
        false,
        is_given(rt, b"progress"),
    );
    start(host, from, to, err)
}

// Tells of an input, to its end, what each call did to the list.
pub fn audit<R: Env, I: Read, W: Write + Drop, E: Write>(
    rt: &R,
    from: &mut I,
    to: W,
    err: &mut E,
) -> io::Result<()> {
    let host = Host::new(true, false, true, is_given(rt, b"progress"));
    start(host, from, to, err)
}

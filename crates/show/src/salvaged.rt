// What a salvage answered, as text.
use crate::datagrams::put_writing;
use outgoing::Writing;
use report::{put_byte, put_bytes, put_number};
use salvage::{Ends, Said, Salvaged, Word};
use std::io::Write;

fn put_word<W: Write>(to: &mut W, out: &mut [u8], at: usize, word: Word) -> usize {
    match word {
        Word::Cut => put_bytes(to, out, at, b" cut"),
        Word::Address => put_bytes(to, out, at, b" address"),
        Word::State => put_bytes(to, out, at, b" state"),
        Word::Repeat => put_bytes(to, out, at, b" repeat"),
        Word::Kept => put_bytes(to, out, at, b" kept"),
    }
}

fn put_said<W: Write>(
    to: &mut W,
    out: &mut [u8],
    at: usize,
    i: usize,
    places: usize,
    said: Said,
) -> usize {
    if places <= i {
        return at;
    }
    let word = said.word;
    put_word(to, out, at, word)
}

// `% COUNT WORD…`.
fn put_words<W: Write>(to: &mut W, out: &mut [u8], from: usize, done: Salvaged) -> usize {
    let words = done.words;
    let mark = put_bytes(to, out, from, b"% ");
    let mut at = put_number(to, out, mark, done.count as u64);
    for i in 0..64 {
        let said = words[i];
        at = put_said(to, out, at, i, done.places, said);
    }
    put_byte(to, out, at, b'\n')
}

// The bytes and the words, or the refusal.
pub fn put_salvaged<W: Write>(
    to: &mut W,
    out: &mut [u8],
    at: usize,
    done: Salvaged,
    row: &[u8],
) -> usize {
    let ends = done.ends;
    match ends {
        Ends::Whole(length) => {
            let written = put_writing(to, out, at, Writing::Whole(length), row);
            put_words(to, out, written, done)
        }
        Ends::Refused(refusal) => put_writing(to, out, at, Writing::Refused(refusal), row),
    }
}

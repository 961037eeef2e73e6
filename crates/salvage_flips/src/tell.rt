// What is printed of a case, and of many.
use report::{put_byte, put_bytes, put_marked, put_number, put_written};
use salvage::{Ends, Said, Salvaged, Word};
use std::io::Write;

// How often each word was said and each refusal given, and how many bytes were written.
#[derive(Clone, Copy)]
pub struct Tally {
    pub marks: u64,
    pub rules: u64,
    pub kept: u64,
    pub address: u64,
    pub state: u64,
    pub repeat: u64,
    pub cut: u64,
    pub bytes: u64,
}

impl Tally {
    pub fn none() -> Tally {
        Tally {
            marks: 0,
            rules: 0,
            kept: 0,
            address: 0,
            state: 0,
            repeat: 0,
            cut: 0,
            bytes: 0,
        }
    }
}

fn sum(a: u64, b: u64) -> u64 {
    std::num::wrapping_add_u64(a, b)
}

fn letter_of(word: Word) -> u8 {
    match word {
        Word::Cut => b'c',
        Word::Address => b'a',
        Word::State => b's',
        Word::Repeat => b'r',
        Word::Kept => b'k',
    }
}

fn put_letter<W: Write>(
    to: &mut W,
    out: &mut [u8],
    at: usize,
    i: usize,
    places: usize,
    said: Said,
) -> usize {
    if places <= i {
        return at;
    }
    let word = said.word;
    put_byte(to, out, at, letter_of(word))
}

// A letter for each place, or a dash for none.
fn put_letters<W: Write>(to: &mut W, out: &mut [u8], from: usize, done: Salvaged) -> usize {
    if done.places == 0 {
        return put_byte(to, out, from, b'-');
    }
    let words = done.words;
    let mut at = from;
    for i in 0..64 {
        let said = words[i];
        at = put_letter(to, out, at, i, done.places, said);
    }
    at
}

fn put_result<W: Write>(to: &mut W, out: &mut [u8], at: usize, res: &[u8], length: usize) -> usize {
    if length <= res.len() {
        return put_written(to, out, at, &res[0..length]);
    }
    at
}

fn put_whole<W: Write>(
    to: &mut W,
    out: &mut [u8],
    at: usize,
    done: Salvaged,
    res: &[u8],
    length: usize,
) -> usize {
    let count = put_marked(to, out, at, b' ', done.count as u64);
    let space = put_byte(to, out, count, b' ');
    let letters = put_letters(to, out, space, done);
    let next = put_byte(to, out, letters, b' ');
    put_result(to, out, next, res, length)
}

fn put_refused<W: Write>(to: &mut W, out: &mut [u8], at: usize, number: u64) -> usize {
    let refused = put_bytes(to, out, at, b" refused");
    let end = put_marked(to, out, refused, b' ', number);
    put_byte(to, out, end, b'\n')
}

// The answer to a case.
fn put_answer<W: Write>(
    to: &mut W,
    out: &mut [u8],
    at: usize,
    done: Salvaged,
    res: &[u8],
) -> usize {
    let ends = done.ends;
    match ends {
        Ends::Whole(length) => put_whole(to, out, at, done, res, length),
        Ends::Refused(refusal) => put_refused(to, out, at, model::refusal_number(refusal) as u64),
    }
}

// A case by its name, and the answer to it.
pub fn put_case<W: Write>(
    to: &mut W,
    out: &mut [u8],
    at: usize,
    name: &[u8],
    number: usize,
    image: &[u8],
    res: &mut [u8],
) -> usize {
    let word = put_bytes(to, out, at, name);
    let start = put_number(to, out, word, number as u64);
    let done = salvage::salvage(image, res);
    put_answer(to, out, start, done, res)
}

fn counted(mut tally: Tally, i: usize, places: usize, said: Said) -> Tally {
    if places <= i {
        return tally;
    }
    let word = said.word;
    match word {
        Word::Cut => tally.cut = sum(tally.cut, 1),
        Word::Address => tally.address = sum(tally.address, 1),
        Word::State => tally.state = sum(tally.state, 1),
        Word::Repeat => tally.repeat = sum(tally.repeat, 1),
        Word::Kept => tally.kept = sum(tally.kept, 1),
    }
    tally
}

fn count_words(from: Tally, done: Salvaged) -> Tally {
    let words = done.words;
    let mut tally = from;
    for i in 0..64 {
        let said = words[i];
        let next = counted(tally, i, done.places, said);
        tally = next;
    }
    tally
}

// One more image.
pub fn tallied(mut tally: Tally, image: &[u8], res: &mut [u8]) -> Tally {
    let done = salvage::salvage(image, res);
    let ends = done.ends;
    match ends {
        Ends::Whole(length) => {
            tally.bytes = sum(tally.bytes, length as u64);
            count_words(tally, done)
        }
        Ends::Refused(refusal) => {
            if model::refusal_number(refusal) == 14 {
                tally.marks = sum(tally.marks, 1);
                return tally;
            }
            tally.rules = sum(tally.rules, 1);
            tally
        }
    }
}

fn put_named<W: Write>(to: &mut W, out: &mut [u8], at: usize, name: &[u8], n: u64) -> usize {
    let word = put_bytes(to, out, at, name);
    put_number(to, out, word, n)
}

fn put_dropped<W: Write>(to: &mut W, out: &mut [u8], at: usize, tally: Tally) -> usize {
    let address = put_named(to, out, at, b" a ", tally.address);
    let state = put_named(to, out, address, b" s ", tally.state);
    let repeat = put_named(to, out, state, b" r ", tally.repeat);
    put_named(to, out, repeat, b" c ", tally.cut)
}

pub fn put_tally<W: Write>(
    to: &mut W,
    out: &mut [u8],
    at: usize,
    bits: u64,
    tally: Tally,
) -> usize {
    let flips = put_named(to, out, at, b"full ", bits);
    let marks = put_named(to, out, flips, b" flips, refused 14 ", tally.marks);
    let rules = put_named(to, out, marks, b" 16 ", tally.rules);
    let kept = put_named(to, out, rules, b", words k ", tally.kept);
    let dropped = put_dropped(to, out, kept, tally);
    let bytes = put_named(to, out, dropped, b", bytes ", tally.bytes);
    put_byte(to, out, bytes, b'\n')
}

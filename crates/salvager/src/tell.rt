// What is said to a person: a line for each place, or one for a refusal.
use address::Address;
use image::Place;
use model::Refusal;
use report::{put_byte, put_bytes, put_marked_address, put_number};
use salvage::{Said, Salvaged, Word};
use std::io::Write;

// The first n of some bytes.
fn put_first<W: Write>(to: &mut W, out: &mut [u8], at: usize, bytes: &[u8], n: usize) -> usize {
    if n <= bytes.len() {
        return put_bytes(to, out, at, &bytes[0..n]);
    }
    at
}

// An address that has no text, as in a script.
fn put_outside<W: Write>(to: &mut W, out: &mut [u8], at: usize, a: Address) -> usize {
    let word = put_bytes(to, out, at, b"address");
    put_marked_address(to, out, word, b' ', a)
}

// The text of an address.
fn put_address<W: Write>(to: &mut W, out: &mut [u8], at: usize, a: Address) -> usize {
    if !address::in_range(a) {
        return put_outside(to, out, at, a);
    }
    let mut text = [0u8; 48];
    let end = iptext::write(&mut text, 0, a);
    put_first(to, out, at, &text, end)
}

fn put_state<W: Write>(to: &mut W, out: &mut [u8], at: usize, state: u64) -> usize {
    match state {
        0 => put_bytes(to, out, at, b"Alive"),
        1 => put_bytes(to, out, at, b"Pending"),
        2 => put_bytes(to, out, at, b"Suspected"),
        _ => {
            let word = put_bytes(to, out, at, b"state ");
            put_number(to, out, word, state)
        }
    }
}

// What stands at a place, whatever is said of it.
fn put_place<W: Write>(to: &mut W, out: &mut [u8], at: usize, p: Place) -> usize {
    let address = put_address(to, out, at, p.addr);
    let space = put_bytes(to, out, address, b", ");
    let state = put_state(to, out, space, p.state);
    let word = put_bytes(to, out, state, b", number ");
    put_number(to, out, word, p.number)
}

fn put_word<W: Write>(to: &mut W, out: &mut [u8], at: usize, word: Word) -> usize {
    match word {
        Word::Cut => put_bytes(to, out, at, b"dropped, cut short\n"),
        Word::Address => put_bytes(to, out, at, b": dropped, the address is out of range\n"),
        Word::State => put_bytes(to, out, at, b": dropped, there is no such state\n"),
        Word::Repeat => put_bytes(to, out, at, b": dropped, the address repeats a kept one\n"),
        Word::Kept => put_bytes(to, out, at, b": kept\n"),
    }
}

fn put_line<W: Write>(
    to: &mut W,
    out: &mut [u8],
    from: usize,
    image: &[u8],
    i: usize,
    said: Said,
) -> usize {
    let word = said.word;
    let start = put_bytes(to, out, from, b"place ");
    let number = put_number(to, out, start, i as u64);
    let colon = put_bytes(to, out, number, b": ");
    if 64 <= i {
        return put_word(to, out, colon, word);
    }
    let wide = image::is_wide(image);
    let at = image::place_at(i, wide);
    if image.len() < at + image::place_size(wide) {
        return put_word(to, out, colon, word);
    }
    let held = put_place(to, out, colon, image::get_place(image, at, wide));
    put_word(to, out, held, word)
}

fn put_next<W: Write>(
    to: &mut W,
    out: &mut [u8],
    at: usize,
    image: &[u8],
    i: usize,
    places: usize,
    said: Said,
) -> usize {
    if places <= i {
        return at;
    }
    put_line(to, out, at, image, i, said)
}

// The count as it stands, and what becomes of one over 64.
fn put_count<W: Write>(to: &mut W, out: &mut [u8], count: usize) -> usize {
    let word = put_bytes(to, out, 0, b"count ");
    let number = put_number(to, out, word, count as u64);
    if Salvaged::PLACES < count {
        return put_bytes(to, out, number, b", read as 64\n");
    }
    put_byte(to, out, number, b'\n')
}

// The count, then a line for each place.
pub fn put_places<W: Write>(to: &mut W, out: &mut [u8], image: &[u8], done: Salvaged) -> usize {
    let words = done.words;
    let mut at = put_count(to, out, done.count);
    for i in 0..64 {
        let said = words[i];
        at = put_next(to, out, at, image, i, done.places, said);
    }
    at
}

fn is_dropped(i: usize, places: usize, said: Said) -> bool {
    if places <= i {
        return false;
    }
    let word = said.word;
    match word {
        Word::Cut => true,
        Word::Address => true,
        Word::State => true,
        Word::Repeat => true,
        Word::Kept => false,
    }
}

pub fn any_dropped(done: Salvaged) -> bool {
    let words = done.words;
    for i in 0..64 {
        let said = words[i];
        if is_dropped(i, done.places, said) {
            return true;
        }
    }
    false
}

fn put_reason<W: Write>(to: &mut W, out: &mut [u8], at: usize, number: u64) -> usize {
    match number {
        14 => put_bytes(to, out, at, b": not a saved list of version 1 or 2\n"),
        16 => put_bytes(
            to,
            out,
            at,
            b": the head is cut short, or its own address out of range\n",
        ),
        _ => put_bytes(to, out, at, b": no room for the result\n"),
    }
}

pub fn put_refusal<W: Write>(to: &mut W, out: &mut [u8], refusal: Refusal) -> usize {
    let number = model::refusal_number(refusal) as u64;
    let word = put_bytes(to, out, 0, b"refused ");
    let end = put_number(to, out, word, number);
    put_reason(to, out, end, number)
}

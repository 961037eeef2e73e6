// Damaged images of either version: every single-bit flip and every truncation of a small one, each answer printed; every flip of a full one, summed up. What must
// be printed was reasoned from the change requests by a script of its own, oracle/salvage_answers.py, which also wrote the images on standard input.
#![tactic(auto)]

mod tell;

use report::flush;
use std::io;
use std::io::Write;
use streams::{Outlet, read_full};
use tell::{Tally, put_case, put_tally, tallied};

fn mask(bit: usize) -> u8 {
    match bit {
        0 => 1,
        1 => 2,
        2 => 4,
        3 => 8,
        4 => 16,
        5 => 32,
        6 => 64,
        _ => 128,
    }
}

// Done twice, nothing is changed.
fn flip(image: &mut [u8], bit: usize) {
    let at = bit / 8;
    if at < image.len() {
        image[at] = image[at] ^ mask(bit % 8);
    }
}

fn flip_all<W: Write>(
    image: &mut [u8],
    bits: usize,
    to: &mut W,
    out: &mut [u8],
    from: usize,
    res: &mut [u8],
) -> usize {
    let mut at = from;
    for bit in 0..bits {
        flip(image, bit);
        at = put_case(to, out, at, b"flip ", bit, image, res);
        flip(image, bit);
    }
    at
}

// The first bytes of an image.
fn put_cut<W: Write>(
    to: &mut W,
    out: &mut [u8],
    at: usize,
    image: &[u8],
    length: usize,
    res: &mut [u8],
) -> usize {
    if length <= image.len() {
        return put_case(to, out, at, b"cut ", length, &image[0..length], res);
    }
    at
}

fn cut_all<W: Write>(
    image: &[u8],
    to: &mut W,
    out: &mut [u8],
    from: usize,
    res: &mut [u8],
) -> usize {
    let mut at = from;
    for length in 0..image.len() {
        at = put_cut(to, out, at, image, length, res);
    }
    at
}

fn tally_all(image: &mut [u8], bits: usize, res: &mut [u8]) -> Tally {
    let mut tally = Tally::none();
    for bit in 0..bits {
        flip(image, bit);
        let next = tallied(tally, image, res);
        tally = next;
        flip(image, bit);
    }
    tally
}

// Every answer.
fn tell_each<W: Write>(
    image: &mut [u8],
    bits: usize,
    to: &mut W,
    out: &mut [u8],
    from: usize,
    res: &mut [u8],
) -> usize {
    let flipped = flip_all(image, bits, to, out, from, res);
    cut_all(image, to, out, flipped, res)
}

// All answers in one line.
fn sum_up<W: Write>(
    image: &mut [u8],
    bits: usize,
    to: &mut W,
    out: &mut [u8],
    from: usize,
    res: &mut [u8],
) -> usize {
    let tally = tally_all(image, bits, res);
    put_tally(to, out, from, bits as u64, tally)
}

fn main(rt: HostRuntime) -> io::Result<()> {
    let mut small = [0u8; 66];
    let mut mixed = [0u8; 110];
    let mut full = [0u8; 1103];
    let mut wide = [0u8; 1818];
    let mut out = [0u8; 65536];
    let mut result = [0u8; 4096];
    let mut from = rt.stdin();
    let mut to = Outlet::new(rt.stdout());
    read_full(&mut from, &mut small);
    read_full(&mut from, &mut mixed);
    read_full(&mut from, &mut full);
    read_full(&mut from, &mut wide);
    let told = tell_each(&mut small, 528, &mut to, &mut out, 0, &mut result);
    let both = tell_each(&mut mixed, 880, &mut to, &mut out, told, &mut result);
    let summed = sum_up(&mut full, 8824, &mut to, &mut out, both, &mut result);
    let end = sum_up(&mut wide, 14544, &mut to, &mut out, summed, &mut result);
    flush(&mut to, &mut out, end);
    to.finish()
}

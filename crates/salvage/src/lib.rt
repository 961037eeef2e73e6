// Salvage of a saved list: the records that are in rule are kept in order, the others dropped, with a word for each.
#![tactic(auto)]

ghost use Rattle.std.specs.Prelude.{◌≡◌, ◌+◌, ◌≤◌, min, length, take, drop};
ghost use Rattle.address.specs.Here.{here};
ghost use Rattle.model.specs.Rows.{has};
ghost use Rattle.image.specs.Versions.{version};
ghost use Rattle.image.specs.Views.{entry_in};
ghost use Rattle.salvage.specs.Salvage.{verdict, headed, position_of};
ghost use Rattle.salvage.specs.Views.{said, no_place, seen_of, more_of, Sifts, not_done, Salvages};

use address::Address;
use image::{Place, Written};
use member::Member;
use model::Refusal;

// What is said of a record place: its bytes are not all there, or what it is dropped for, or that it is kept.
#[derive(Clone, Copy)]
pub enum Word {
    Cut,
    Address,
    State,
    Repeat,
    Kept,
}

// The word for a place, as it stands in a row.
#[derive(Clone, Copy)]
pub struct Said {
    pub word: Word,
}

impl Said {
    // What stands at a place of the row that is not used.
    pub fn none() -> Said
        ensures { result ≡ said Word.Cut }
    {
        Said { word: Word::Cut }
    }
}

// A place, and what is said of it.
#[derive(Clone, Copy)]
pub struct Seen {
    pub word: Word,
    pub place: Place,
}

// The records kept, which stand first in the table, and a word for each place read.
#[derive(Clone, Copy)]
pub struct Sifted {
    pub table: [Member; 64],
    pub len: usize,
    pub words: [Said; 64],
}

// How many bytes were written; or why none was.
#[derive(Clone, Copy)]
pub enum Ends {
    Whole(usize),
    Refused(Refusal),
}

// What a salvage gives: how it ended, the count as it stands in the image, how many places were read, and a word for each of them.
#[derive(Clone, Copy)]
pub struct Salvaged {
    pub ends: Ends,
    pub count: usize,
    pub places: usize,
    pub words: [Said; 64],
}

impl Salvaged {
    // As many places as are read at most.
    pub const PLACES: usize = 64;
}

// Is an address among the first n of a row?
fn repeats(row: [Address; 64], n: usize, a: Address) -> bool
    requires { n ≤ 64 }
    ensures { result ≡ has here.same a (take n row) }
{
    order::find_place(row, n, a) < n
}

// The word for a whole place, behind those kept before it. No version is asked for.
fn judged(p: Place, kept: [Address; 64], n: usize) -> Word
    requires { n ≤ 64 }
    ensures { result ≡ verdict here (take n kept) (entry_in p) }
{
    if !address::in_range(p.addr) {
        return Word::Address;
    }
    if 2 < p.state {
        return Word::State;
    }
    if repeats(kept, n, p.addr) {
        return Word::Repeat;
    }
    Word::Kept
}

fn nothing() -> Place
    ensures { result ≡ no_place }
{
    Place {
        addr: address::blank(),
        state: 0,
        number: 0,
    }
}

// The place that begins at a byte.
fn look(bytes: &[u8], at: usize, wide: bool, kept: [Address; 64], n: usize) -> Seen
    requires { (n ≤ 64) × (at ≤ 8192) }
    ensures { result ≡ seen_of (version wide) (take n kept) (drop at bytes.now) }
{
    if bytes.len() < at + image::place_size(wide) {
        return Seen {
            word: Word::Cut,
            place: nothing(),
        };
    }
    let place = image::get_place(bytes, at, wide);
    Seen {
        word: judged(place, kept, n),
        place,
    }
}

fn more(word: Word) -> usize
    ensures value { result ≡ more_of word }
    ensures within { result ≤ 1 }
{
    match word {
        Word::Cut => 0,
        Word::Address => 0,
        Word::State => 0,
        Word::Repeat => 0,
        Word::Kept => 1,
    }
}

// The first places, one after the other. What is dropped is overwritten by the next that is kept.
fn sift(bytes: &[u8], places: usize, wide: bool) -> Sifted
    requires { places ≤ 64 }
    ensures { Sifts (version wide) bytes.now places result }
{
    let mut table = [Member::none(); 64];
    let mut kept = [address::blank(); 64];
    let mut words = [Said::none(); 64];
    let mut len: usize = 0;
    let mut i: usize = 0;
    while i < places {
        let seen = look(bytes, image::place_at(i, wide), wide, kept, len);
        let place = seen.place;
        let word = seen.word;
        table[len] = image::member_of(place);
        let addr = place.addr;
        kept[len] = addr;
        words[i] = Said { word };
        len += more(word);
        i += 1;
    }
    Sifted { table, len, words }
}

// The position that stands at a byte, if it is one of n; 0 if it isn't, or is missing.
fn position_at(bytes: &[u8], at: usize, n: usize) -> usize
    ensures { result ≡ position_of (drop at bytes.now) n }
{
    if bytes.len() <= at {
        return 0;
    }
    let position = numbers::get_number(bytes, at, 1) as usize;
    if position < n {
        return position;
    }
    0
}

// 16: is there a whole head, with an own address in range?
fn is_headed(bytes: &[u8], wide: bool) -> bool
    ensures { result ≡ headed here (version wide) bytes.now }
{
    if bytes.len() < image::head_size(wide) {
        return false;
    }
    address::in_range(image::get_address(bytes, 5, wide))
}

fn at_most_64(count: usize) -> usize
    ensures { result ≡ min count 64 }
{
    if count < Salvaged::PLACES {
        return count;
    }
    Salvaged::PLACES
}

// Refused, there are no words.
fn refused(refusal: Refusal) -> Salvaged
    ensures { result ≡ not_done (Ends.Refused refusal) }
{
    Salvaged {
        ends: Ends::Refused(refusal),
        count: 0,
        places: 0,
        words: [Said::none(); 64],
    }
}

// What can be kept of an image, as an image in a lent row: 14, 16, then 12. Refused, nothing is written.
pub fn salvage(bytes: &[u8], out: &mut [u8]) -> Salvaged
    ensures { Salvages bytes.now out.old result out.new }
{
    let wide = image::is_wide(bytes);
    if !image::is_marked(bytes) {
        return refused(Refusal::WrongMark);
    }
    if !is_headed(bytes, wide) {
        return refused(Refusal::OutOfRule);
    }
    let count = image::count_in(bytes, wide);
    let places = at_most_64(count);
    let own = image::get_address(bytes, 5, wide);
    let sifted = sift(bytes, places, wide);
    let table = sifted.table;
    let words = sifted.words;
    let position = position_at(bytes, image::place_at(places, wide), sifted.len);
    let written = image::write(out, own, table, sifted.len, position);
    match written {
        Written::TooLong => refused(Refusal::NoRoom),
        Written::Whole(length) => Salvaged {
            ends: Ends::Whole(length),
            count,
            places,
            words,
        },
    }
}

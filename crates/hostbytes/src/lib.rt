// What a C program calls for bytes: a list saved, restored and salvaged, and datagrams read and written. A call that isn't kept touches nothing
// but its counts, which become zeros.
#![tactic(auto)]

ghost use Rattle.std.specs.Prelude.{◌≡◌, map, ◌<◌};
ghost use Rattle.cwords.specs.Reading.{rows, settings_of, gossip_of, action_of, node_of};
ghost use Rattle.datagram.specs.Promises as datagram;
ghost use Rattle.saving.specs.Views.{restored_of};
ghost use Rattle.hostbytes.specs.Promised.{Saves, Restores, said_word, Salvages, place_word, Reads, Writes};

use cwords::nodes::{node_of, put_node};
use cwords::write::code_of;
use cwords::{read, write};
use incoming::Reading;
use outgoing::Writing;
use salvage::{Ends, Said, Word};
use saving::Saving;
use types::Action;

// The list of a node, saved to a lent row: 2, then 12 if the row is shorter than the image. `count` gets how many bytes were written.
#[unsafe(no_mangle)]
pub extern "C" fn swim_words_save(
    head: &[u64; 22],
    order: &[[u64; 3]; 64],
    members: &[[u64; 5]; 64],
    alive: &[[u64; 10]; 128],
    deceased: &[[u64; 10]; 128],
    timers: &[[u64; 5]; 16],
    gone: &[[u64; 4]; 128],
    out: &mut [u8],
    count: &mut [u64; 1],
) -> u64
    ensures { Saves (node_of (rows head.now order.now members.now alive.now deceased.now timers.now gone.now)) out.old result out.new count.new }
{
    let node = node_of(*head, *order, *members, *alive, *deceased, *timers, *gone);
    let s = saving::save(node, out);
    match s {
        Saving::Whole(n) => {
            *count = [n as u64];
            0
        }
        Saving::Refused(refusal) => {
            *count = [0];
            write::refusal_code(refusal)
        }
    }
}

// A node from a saved list, and a fresh wait record: 14, 15, 16, then 1.
#[unsafe(no_mangle)]
pub extern "C" fn swim_words_restore(
    head: &mut [u64; 22],
    order: &mut [[u64; 3]; 64],
    members: &mut [[u64; 5]; 64],
    alive: &mut [[u64; 10]; 128],
    deceased: &mut [[u64; 10]; 128],
    timers: &mut [[u64; 5]; 16],
    gone: &mut [[u64; 4]; 128],
    wait: &mut [u64; 6],
    bytes: &[u8],
    settings: &[u64; 10],
    tick: u32,
) -> u64
    ensures { Restores (restored_of bytes.now (settings_of settings.now) tick) (rows head.old order.old members.old alive.old deceased.old timers.old gone.old) wait.old result (rows head.new order.new members.new alive.new deceased.new timers.new gone.new) wait.new }
{
    let set = read::settings_of(*settings);
    let done = saving::restore(bytes, set, tick);
    let answer = done.answer;
    let fresh = done.wait;
    let reply = answer.reply;
    let back = answer.node;
    let code = code_of(reply);
    if code != 0 {
        return code;
    }
    put_node(head, order, members, alive, deceased, timers, gone, back);
    *wait = write::wait_words(fresh);
    0
}

// What is said of a place: 0 cut, 1 dropped for its address, 2 for its state, 3 as a repeat, 4 kept.
fn said_word(s: Said) -> u64
    ensures { result ≡ said_word s }
{
    let word = s.word;
    match word {
        Word::Cut => 0,
        Word::Address => 1,
        Word::State => 2,
        Word::Repeat => 3,
        Word::Kept => 4,
    }
}

fn said_words(values: [Said; 64]) -> [u64; 64]
    ensures { result ≡ map said_word values }
{
    let mut out = [0u64; 64];
    let mut i = 0;
    while i < 64 {
        let x = values[i];
        out[i] = said_word(x);
        i += 1;
    }
    out
}

// What can be kept of a damaged saved list, as an image in a lent row: 14, 16, then 12. `said` gets a word for each place, and `counts` how many
// bytes were written, the count as it stands in the image, and how many places were read.
#[unsafe(no_mangle)]
pub extern "C" fn swim_words_salvage(
    bytes: &[u8],
    out: &mut [u8],
    said: &mut [u64; 64],
    counts: &mut [u64; 3],
) -> u64
    ensures { Salvages bytes.now out.old said.old result out.new said.new counts.new }
{
    let done = salvage::salvage(bytes, out);
    let ends = done.ends;
    let words = done.words;
    match ends {
        Ends::Whole(n) => {
            *said = said_words(words);
            *counts = [n as u64, done.count as u64, done.places as u64];
            0
        }
        Ends::Refused(refusal) => {
            *counts = [0, 0, 0];
            write::refusal_code(refusal)
        }
    }
}

// A place in a datagram, counted from 1; of one past 2^32 bytes it isn't told.
fn place_word(place: usize) -> u64
    ensures { (result ≡ place_word place) × (result < 4294967297) }
{
    if place < 4294967296 {
        return place as u64 + 1;
    }
    0
}

// A datagram, read: 3 if fewer than 64 places are lent, then 11 with its place, then 4. `action` gets its action, `count` how many records.
#[unsafe(no_mangle)]
pub extern "C" fn swim_words_read(
    bytes: &[u8],
    action: &mut [u64; 7],
    records: &mut [[u64; 8]],
    count: &mut [u64; 1],
) -> u64
    ensures { Reads bytes.now action.old records.old result action.new records.new count.new }
{
    let taken = incoming::read(bytes, records.len());
    let row = taken.row;
    let answer = taken.answer;
    write::put_65(records, row, taken.count);
    match answer {
        Reading::Whole {
            action: told,
            count: n,
        } => {
            *action = write::action_words(told);
            *count = [n as u64];
            0
        }
        Reading::Malformed(place) => {
            *count = [0];
            11 + 256 * place_word(place)
        }
        Reading::Refused(refusal) => {
            *count = [0];
            write::refusal_code(refusal)
        }
    }
}

// An action and its records, written. Without records no row is made of them.
fn send_words(out: &mut [u8], action: Action, records: &[[u64; 8]]) -> Writing
    ensures { datagram.Writes action (map gossip_of records.now) out.old result out.new }
{
    if records.len() == 0 {
        return outgoing::send_bare(out, action);
    }
    let first = read::records_of(records);
    outgoing::send(out, action, first, records.len())
}

// An action and its records, written as a datagram: 4, 5, then 12 if the row is too short. `count` gets how many bytes were written.
#[unsafe(no_mangle)]
pub extern "C" fn swim_words_write(
    action: &[u64; 7],
    records: &[[u64; 8]],
    out: &mut [u8],
    count: &mut [u64; 1],
) -> u64
    ensures { Writes (action_of action.now) (map gossip_of records.now) out.old result out.new count.new }
{
    let w = send_words(out, read::action_of(*action), records);
    match w {
        Writing::Whole(n) => {
            *count = [n as u64];
            0
        }
        Writing::Refused(refusal) => {
            *count = [0];
            write::refusal_code(refusal)
        }
    }
}

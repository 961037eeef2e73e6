// What a C program calls: the node and whatever is lent are rows of words that the caller owns. A call that isn't kept touches nothing but
// the counts, which become zeros.
#![tactic(auto)]

ghost use Rattle.std.specs.Prelude.{length, ◌≡◌};
ghost use Rattle.cwords.specs.Reading.{rows, address_in, node_of};
ghost use Rattle.swim.specs.Lookups.{look_up, how_many, member_at};
ghost use Rattle.host.specs.Promised.{created_at, added_at, received_at, stepped_at, ended_in, why_at, Creates, Adds, Receives, Steps, EndsTimer, Looks, Tallies, Explains, reason_word, found_words, Shows};

use cwords::nodes::{node_of, put_node};
use cwords::write::{code_of, fate_of, used_of};
use cwords::{read, write};
use disseminate::Found;
use swim::lookup::{Lookup, Tally};
use why::{Grounds, Reason};

// Creation: 5, then 1.
#[unsafe(no_mangle)]
pub extern "C" fn swim_words_create(
    head: &mut [u64; 22],
    order: &mut [[u64; 3]; 64],
    members: &mut [[u64; 5]; 64],
    alive: &mut [[u64; 10]; 128],
    deceased: &mut [[u64; 10]; 128],
    timers: &mut [[u64; 5]; 16],
    gone: &mut [[u64; 4]; 128],
    settings: &[u64; 10],
    own: &[u64; 3],
    number: u64,
) -> u64
    ensures { Creates (created_at settings.now own.now number) (rows head.old order.old members.old alive.old deceased.old timers.old gone.old) result (rows head.new order.new members.new alive.new deceased.new timers.new gone.new) }
{
    let set = read::settings_of(*settings);
    let answer = node::create(set, read::address_in(*own), number);
    let reply = answer.reply;
    let born = answer.node;
    let code = code_of(reply);
    if code != 0 {
        return code;
    }
    put_node(head, order, members, alive, deceased, timers, gone, born);
    0
}

// Adding a peer: 2, 5, "already", 7, 8.
#[unsafe(no_mangle)]
pub extern "C" fn swim_words_add_peer(
    head: &mut [u64; 22],
    order: &mut [[u64; 3]; 64],
    members: &mut [[u64; 5]; 64],
    alive: &mut [[u64; 10]; 128],
    deceased: &mut [[u64; 10]; 128],
    timers: &mut [[u64; 5]; 16],
    gone: &mut [[u64; 4]; 128],
    peer: &[u64; 3],
    number: u64,
    draws: &[u64],
    counts: &mut [u64; 6],
) -> u64
    ensures { Adds (added_at (rows head.old order.old members.old alive.old deceased.old timers.old gone.old) peer.now number draws.now) (rows head.old order.old members.old alive.old deceased.old timers.old gone.old) result (rows head.new order.new members.new alive.new deceased.new timers.new gone.new) counts.new }
{
    let node = node_of(*head, *order, *members, *alive, *deceased, *timers, *gone);
    let answer = node::add_peer(node, read::address_in(*peer), number, draws);
    let reply = answer.reply;
    let joined = answer.node;
    let code = code_of(reply);
    if code != 0 {
        *counts = [0, 0, 0, 0, 0, 0];
        return code;
    }
    put_node(head, order, members, alive, deceased, timers, gone, joined);
    *counts = [used_of(reply), 0, 0, 0, 0, 0];
    0
}

// The message: 2, 3, 4, 5, then the first of 6 to 9 and 13 that the rules reach, with where.
#[unsafe(no_mangle)]
pub extern "C" fn swim_words_receive(
    head: &mut [u64; 22],
    order: &mut [[u64; 3]; 64],
    members: &mut [[u64; 5]; 64],
    alive: &mut [[u64; 10]; 128],
    deceased: &mut [[u64; 10]; 128],
    timers: &mut [[u64; 5]; 16],
    gone: &mut [[u64; 4]; 128],
    action: &[u64; 7],
    records: &[[u64; 8]],
    draws: &[u64],
    gossip: &mut [[u64; 8]],
    events: &mut [[u64; 8]],
    letters: &mut [[u64; 11]; 4],
    counts: &mut [u64; 6],
) -> u64
    ensures { Receives (received_at (rows head.old order.old members.old alive.old deceased.old timers.old gone.old) action.now records.now draws.now (length gossip.old) (length events.old)) (rows head.old order.old members.old alive.old deceased.old timers.old gone.old) gossip.old events.old letters.old result (rows head.new order.new members.new alive.new deceased.new timers.new gone.new) gossip.new events.new letters.new counts.new }
{
    let node = node_of(*head, *order, *members, *alive, *deceased, *timers, *gone);
    let done = message::receive(
        node,
        read::action_of(*action),
        read::records_of(records),
        records.len(),
        draws,
        gossip.len(),
        events.len(),
    );
    let answer = done.answer;
    let spoken = done.gossip;
    let told = done.events;
    let sent = answer.letters;
    let reply = answer.reply;
    let heard = answer.node;
    let code = code_of(reply);
    if code != 0 {
        *counts = [0, 0, 0, 0, 0, 0];
        return code;
    }
    put_node(head, order, members, alive, deceased, timers, gone, heard);
    write::put_64(gossip, spoken, done.written);
    write::put_65(events, told, done.reported);
    *letters = write::letter_rows(sent);
    *counts = [
        used_of(reply),
        answer.sent as u64,
        done.written as u64,
        done.reported as u64,
        answer.collected as u64,
        0,
    ];
    0
}

// The detector step: 2, 3, 5, "not due", then the rules.
#[unsafe(no_mangle)]
pub extern "C" fn swim_words_step(
    head: &mut [u64; 22],
    order: &mut [[u64; 3]; 64],
    members: &mut [[u64; 5]; 64],
    alive: &mut [[u64; 10]; 128],
    deceased: &mut [[u64; 10]; 128],
    timers: &mut [[u64; 5]; 16],
    gone: &mut [[u64; 4]; 128],
    wait: &mut [u64; 6],
    tick: u32,
    draws: &[u64],
    gossip: &mut [[u64; 8]],
    events: &mut [[u64; 8]],
    letters: &mut [[u64; 11]; 4],
    counts: &mut [u64; 6],
) -> u64
    ensures { Steps (stepped_at (rows head.old order.old members.old alive.old deceased.old timers.old gone.old) wait.old tick draws.now (length gossip.old) (length events.old)) (rows head.old order.old members.old alive.old deceased.old timers.old gone.old) wait.old gossip.old events.old letters.old result (rows head.new order.new members.new alive.new deceased.new timers.new gone.new) wait.new gossip.new events.new letters.new counts.new }
{
    let node = node_of(*head, *order, *members, *alive, *deceased, *timers, *gone);
    let held = read::wait_of(*wait);
    let done = detection::step(node, held, tick, draws, gossip.len(), events.len());
    let answer = done.answer;
    let spoken = done.gossip;
    let told = done.events;
    let sent = answer.letters;
    let waits = done.wait;
    let reply = answer.reply;
    let moved = answer.node;
    let code = code_of(reply);
    if code != 0 {
        *counts = [0, 0, 0, 0, 0, 0];
        return code;
    }
    put_node(head, order, members, alive, deceased, timers, gone, moved);
    *wait = write::wait_words(waits);
    write::put_256(gossip, spoken, done.written);
    write::put_1(events, told, done.reported);
    *letters = write::letter_rows(sent);
    *counts = [
        used_of(reply),
        answer.sent as u64,
        done.written as u64,
        done.reported as u64,
        answer.collected as u64,
        0,
    ];
    0
}

// The timer call: 2, 3, "not due", then the rules.
#[unsafe(no_mangle)]
pub extern "C" fn swim_words_end_timer(
    head: &mut [u64; 22],
    order: &mut [[u64; 3]; 64],
    members: &mut [[u64; 5]; 64],
    alive: &mut [[u64; 10]; 128],
    deceased: &mut [[u64; 10]; 128],
    timers: &mut [[u64; 5]; 16],
    gone: &mut [[u64; 4]; 128],
    tick: u32,
    events: &mut [[u64; 8]],
    counts: &mut [u64; 6],
) -> u64
    ensures { EndsTimer (ended_in (rows head.old order.old members.old alive.old deceased.old timers.old gone.old) tick (length events.old)) (rows head.old order.old members.old alive.old deceased.old timers.old gone.old) events.old result (rows head.new order.new members.new alive.new deceased.new timers.new gone.new) events.new counts.new }
{
    let node = node_of(*head, *order, *members, *alive, *deceased, *timers, *gone);
    let done = timer_call::end_timer(node, tick, 0, events.len());
    let answer = done.answer;
    let told = done.events;
    let reply = answer.reply;
    let freed = answer.node;
    let code = code_of(reply);
    if code != 0 {
        *counts = [0, 0, 0, 0, 0, 0];
        return code;
    }
    put_node(head, order, members, alive, deceased, timers, gone, freed);
    write::put_1(events, told, done.reported);
    *counts = [
        0,
        0,
        0,
        done.reported as u64,
        answer.collected as u64,
        fate_of(reply),
    ];
    0
}

// What a look-up found, in words: its address, state and number, or nothing where it isn't listed.
fn put_found(found: &mut [u64; 5], l: Lookup) -> u64
    ensures { Looks l found.old result found.new }
{
    match l {
        Lookup::NotListed => 22,
        Lookup::Listed {
            addr,
            state,
            number,
        } => {
            *found = [
                write::first_word(addr),
                addr.high,
                addr.low,
                write::state_word(state),
                number,
            ];
            0
        }
        Lookup::Refused(refusal) => write::refusal_code(refusal),
    }
}

// What the list holds of an address: 2, 5, 22 where it isn't listed. `found` gets its address, state and number.
#[unsafe(no_mangle)]
pub extern "C" fn swim_words_look_up(
    head: &[u64; 22],
    order: &[[u64; 3]; 64],
    members: &[[u64; 5]; 64],
    alive: &[[u64; 10]; 128],
    deceased: &[[u64; 10]; 128],
    timers: &[[u64; 5]; 16],
    gone: &[[u64; 4]; 128],
    peer: &[u64; 3],
    found: &mut [u64; 5],
) -> u64
    ensures { Looks (look_up (node_of (rows head.now order.now members.now alive.now deceased.now timers.now gone.now)) (address_in peer.now)) found.old result found.new }
{
    let node = node_of(*head, *order, *members, *alive, *deceased, *timers, *gone);
    let l = swim::lookup::look_up(node, read::address_in(*peer));
    put_found(found, l)
}

// Who is listed at a place, counted from 0: 2, 22 at or past the count.
#[unsafe(no_mangle)]
pub extern "C" fn swim_words_member_at(
    head: &[u64; 22],
    order: &[[u64; 3]; 64],
    members: &[[u64; 5]; 64],
    alive: &[[u64; 10]; 128],
    deceased: &[[u64; 10]; 128],
    timers: &[[u64; 5]; 16],
    gone: &[[u64; 4]; 128],
    place: u64,
    found: &mut [u64; 5],
) -> u64
    ensures { Looks (member_at (node_of (rows head.now order.now members.now alive.now deceased.now timers.now gone.now)) place) found.old result found.new }
{
    let node = node_of(*head, *order, *members, *alive, *deceased, *timers, *gone);
    let l = swim::lookup::member_at(node, place as usize);
    put_found(found, l)
}

// How many addresses are listed: 2.
#[unsafe(no_mangle)]
pub extern "C" fn swim_words_how_many(
    head: &[u64; 22],
    order: &[[u64; 3]; 64],
    members: &[[u64; 5]; 64],
    alive: &[[u64; 10]; 128],
    deceased: &[[u64; 10]; 128],
    timers: &[[u64; 5]; 16],
    gone: &[[u64; 4]; 128],
    count: &mut [u64; 1],
) -> u64
    ensures { Tallies (how_many (node_of (rows head.now order.now members.now alive.now deceased.now timers.now gone.now))) count.old result count.new }
{
    let node = node_of(*head, *order, *members, *alive, *deceased, *timers, *gone);
    let t = swim::lookup::how_many(node);
    match t {
        Tally::Listed(n) => {
            *count = [n as u64];
            0
        }
        Tally::Refused(refusal) => write::refusal_code(refusal),
    }
}

// A reason, in the order of its enum: 0 none to 6 accepted.
fn reason_word(reason: Reason) -> u64
    ensures { result ≡ reason_word reason }
{
    match reason {
        Reason::None => 0,
        Reason::Own => 1,
        Reason::Unknown => 2,
        Reason::Equal => 3,
        Reason::Low => 4,
        Reason::Raised => 5,
        Reason::Accepted => 6,
    }
}

// A number that may be missing: 0 and 0, or 1 and the number.
fn found_words(found: Found) -> [u64; 2]
    ensures { result ≡ found_words found }
{
    match found {
        Found::Missing => [0, 0],
        Found::At(number) => [1, number],
    }
}

// Which rule decides a record: 2, 5, then the refusal that the message would meet. `grounds` gets the reason, then the held number, the
// record's own and D, each after 1, or 0 and 0 where there is none.
#[unsafe(no_mangle)]
pub extern "C" fn swim_words_why(
    head: &[u64; 22],
    order: &[[u64; 3]; 64],
    members: &[[u64; 5]; 64],
    alive: &[[u64; 10]; 128],
    deceased: &[[u64; 10]; 128],
    timers: &[[u64; 5]; 16],
    gone: &[[u64; 4]; 128],
    event: &[u64; 8],
    draws: &[u64],
    grounds: &mut [u64; 7],
) -> u64
    ensures { Explains (why_at (rows head.now order.now members.now alive.now deceased.now timers.now gone.now) event.now draws.now) grounds.old result grounds.new }
{
    let node = node_of(*head, *order, *members, *alive, *deceased, *timers, *gone);
    let g = why::why(node, draws, read::gossip_of(*event));
    match g {
        Grounds::Because {
            reason,
            held,
            number,
            dead,
        } => {
            let h = found_words(held);
            let n = found_words(number);
            let d = found_words(dead);
            *grounds = [reason_word(reason), h[0], h[1], n[0], n[1], d[0], d[1]];
            0
        }
        Grounds::Refused(refusal) => write::refusal_code(refusal),
    }
}

// The lamps: Alive, Pending, Suspected. They stand in the head at a fixed place, so a panel may read them there without a call.
#[unsafe(no_mangle)]
pub extern "C" fn swim_words_lamps(head: &[u64; 22], lamps: &mut [u64; 3])
    ensures { Shows head.now lamps.new }
{
    let w = *head;
    *lamps = [w[15], w[16], w[17]];
}

// A node and its rows of words.
ghost use Rattle.std.specs.Prelude.{◌≡◌, map};
ghost use Rattle.cwords.specs.Reading.{address_in, settings_of, entry_of, member_of, timer_of, departed_of, members_of, disseminator_of, rows, node_of};
ghost use Rattle.cwords.specs.Writing.{address_words, switch_word, entry_words, member_words, timer_words, departed_words, head_words};
ghost use Rattle.cwords.specs.Back.{NarrowHead, Puts};

use crate::{read, write};
use address::Address;
use departed::{Departed, DepartedRow};
use disseminate::Disseminator;
use heap::{Entry, Heap};
use member::{Member, Members};
use model::Lamps;
use node::Node;
use order::Order;
use timers::{Timer, Timers};

fn entries_of(rows: [[u64; 10]; 128]) -> [Entry; 128]
    ensures { result ≡ map entry_of rows }
{
    let e = Entry::empty();
    let mut out = [e; 128];
    let mut i = 0;
    while i < 128 {
        let w = rows[i];
        out[i] = read::entry_of(w);
        i += 1;
    }
    out
}

fn table_of(rows: [[u64; 5]; 64]) -> [Member; 64]
    ensures { result ≡ map member_of rows }
{
    let m = Member::none();
    let mut out = [m; 64];
    let mut i = 0;
    while i < 64 {
        let w = rows[i];
        out[i] = read::member_of(w);
        i += 1;
    }
    out
}

fn order_of(rows: [[u64; 3]; 64]) -> [Address; 64]
    ensures { result ≡ map address_in rows }
{
    let a = address::blank();
    let mut out = [a; 64];
    let mut i = 0;
    while i < 64 {
        let w = rows[i];
        out[i] = read::address_in(w);
        i += 1;
    }
    out
}

fn running_of(rows: [[u64; 5]; 16]) -> [Timer; 16]
    ensures { result ≡ map timer_of rows }
{
    let t = Timer::empty();
    let mut out = [t; 16];
    let mut i = 0;
    while i < 16 {
        let w = rows[i];
        out[i] = read::timer_of(w);
        i += 1;
    }
    out
}

fn gone_of(rows: [[u64; 4]; 128]) -> [Departed; 128]
    ensures { result ≡ map departed_of rows }
{
    let d = Departed::empty();
    let mut out = [d; 128];
    let mut i = 0;
    while i < 128 {
        let w = rows[i];
        out[i] = read::departed_of(w);
        i += 1;
    }
    out
}

// The list, with its order and its lamps.
fn list_of(w: [u64; 22], order: [[u64; 3]; 64], members: [[u64; 5]; 64]) -> Members
    ensures { result ≡ members_of w order members }
{
    let table = table_of(members);
    let row = order_of(order);
    Members {
        table,
        len: w[13] as usize,
        order: Order {
            row,
            position: w[14] as usize,
        },
        lamps: Lamps {
            alive: w[15] as usize,
            pending: w[16] as usize,
            suspected: w[17] as usize,
        },
    }
}

// The two heaps.
fn news_of(w: [u64; 22], alive: [[u64; 10]; 128], deceased: [[u64; 10]; 128]) -> Disseminator
    ensures { result ≡ disseminator_of w alive deceased }
{
    let living = entries_of(alive);
    let dead = entries_of(deceased);
    Disseminator {
        alive: Heap {
            entries: living,
            len: w[18] as usize,
        },
        deceased: Heap {
            entries: dead,
            len: w[19] as usize,
        },
    }
}

// A node from its rows of words.
pub fn node_of(
    w: [u64; 22],
    order: [[u64; 3]; 64],
    members: [[u64; 5]; 64],
    alive: [[u64; 10]; 128],
    deceased: [[u64; 10]; 128],
    timers: [[u64; 5]; 16],
    departed: [[u64; 4]; 128],
) -> Node
    ensures { result ≡ node_of (rows w order members alive deceased timers departed) }
{
    let settings = read::settings_of([w[0], w[1], w[2], w[3], w[4], w[5], w[6], w[7], w[8], w[9]]);
    let own = read::address_of(w[10], w[11], w[12]);
    let list = list_of(w, order, members);
    let news = news_of(w, alive, deceased);
    let clocks = running_of(timers);
    let gone = gone_of(departed);
    Node {
        settings,
        own,
        members: list,
        disseminator: news,
        timers: Timers {
            entries: clocks,
            len: w[20] as usize,
        },
        departed: DepartedRow {
            entries: gone,
            len: w[21] as usize,
        },
    }
}

fn entry_rows(values: [Entry; 128]) -> [[u64; 10]; 128]
    ensures { (result ≡ map entry_words values) × (map entry_of result ≡ values) }
{
    let zeros = [0u64; 10];
    let mut out = [zeros; 128];
    let mut i = 0;
    while i < 128 {
        let x = values[i];
        out[i] = write::entry_words(x);
        i += 1;
    }
    out
}

fn member_rows(values: [Member; 64]) -> [[u64; 5]; 64]
    ensures { (result ≡ map member_words values) × (map member_of result ≡ values) }
{
    let zeros = [0u64; 5];
    let mut out = [zeros; 64];
    let mut i = 0;
    while i < 64 {
        let x = values[i];
        out[i] = write::member_words(x);
        i += 1;
    }
    out
}

fn order_rows(values: [Address; 64]) -> [[u64; 3]; 64]
    ensures { (result ≡ map address_words values) × (map address_in result ≡ values) }
{
    let zeros = [0u64; 3];
    let mut out = [zeros; 64];
    let mut i = 0;
    while i < 64 {
        let x = values[i];
        out[i] = write::address_words(x);
        i += 1;
    }
    out
}

fn timer_rows(values: [Timer; 16]) -> [[u64; 5]; 16]
    ensures { (result ≡ map timer_words values) × (map timer_of result ≡ values) }
{
    let zeros = [0u64; 5];
    let mut out = [zeros; 16];
    let mut i = 0;
    while i < 16 {
        let x = values[i];
        out[i] = write::timer_words(x);
        i += 1;
    }
    out
}

fn departed_rows(values: [Departed; 128]) -> [[u64; 4]; 128]
    ensures { (result ≡ map departed_words values) × (map departed_of result ≡ values) }
{
    let zeros = [0u64; 4];
    let mut out = [zeros; 128];
    let mut i = 0;
    while i < 128 {
        let x = values[i];
        out[i] = write::departed_words(x);
        i += 1;
    }
    out
}

fn switch_word(on: bool) -> u64
    ensures { result ≡ switch_word on }
{
    if on { 1 } else { 0 }
}

// The words that are no row: settings, own address, counts and lamps.
fn head_words(n: Node) -> [u64; 22]
    ensures { (result ≡ head_words n) × NarrowHead n }
{
    let s = n.settings;
    let own = n.own;
    let members = n.members;
    let lamps = members.lamps;
    let order = members.order;
    let news = n.disseminator;
    let alive = news.alive;
    let deceased = news.deceased;
    let timers = n.timers;
    let departed = n.departed;
    [
        write::wide_tick(s.ping_interval),
        write::wide_tick(s.ping_timeout),
        write::wide_tick(s.ping_req_timeout),
        write::wide_tick(s.suspect_timeout),
        s.ping_req_group_size as u64,
        s.send_constant as u64,
        s.max_selected as u64,
        s.max_size as u64,
        switch_word(s.collect),
        switch_word(s.remember),
        write::first_word(own),
        own.high,
        own.low,
        members.len as u64,
        order.position as u64,
        lamps.alive as u64,
        lamps.pending as u64,
        lamps.suspected as u64,
        alive.len as u64,
        deceased.len as u64,
        timers.len as u64,
        departed.len as u64,
    ]
}

// A node's rows of words, all replaced. Read again they are that node: what one call writes is exactly what the next one reads.
pub fn put_node(
    head: &mut [u64; 22],
    order: &mut [[u64; 3]; 64],
    members: &mut [[u64; 5]; 64],
    alive: &mut [[u64; 10]; 128],
    deceased: &mut [[u64; 10]; 128],
    timers: &mut [[u64; 5]; 16],
    departed: &mut [[u64; 4]; 128],
    n: Node,
)
    ensures { Puts n (rows head.new order.new members.new alive.new deceased.new timers.new departed.new) }
{
    let list = n.members;
    let turns = list.order;
    let row = turns.row;
    let table = list.table;
    let news = n.disseminator;
    let living = news.alive;
    let dead = news.deceased;
    let some = living.entries;
    let others = dead.entries;
    let running = n.timers;
    let clocks = running.entries;
    let left = n.departed;
    let gone = left.entries;
    *head = head_words(n);
    *order = order_rows(row);
    *members = member_rows(table);
    *alive = entry_rows(some);
    *deceased = entry_rows(others);
    *timers = timer_rows(clocks);
    *departed = departed_rows(gone);
}

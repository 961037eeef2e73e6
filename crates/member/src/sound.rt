// Is a list that was handed in sound? Every clause of the rules, for any value of the type.
ghost use Rattle.std.specs.Prelude.{◌≡◌, ◌&&◌, map, ◌≤◌, ltb, length, take, drop};
ghost use Rattle.address.specs.Here.{here};
ghost use Rattle.model.specs.Rows.{every};
ghost use Rattle.model.specs.Sound.{distinct, permutes, positioned, is_no_member, sound_members};
ghost use Rattle.member.specs.Views.{to_member, addr_of, blank_address};
ghost use Rattle.member.specs.Drawers.{Firsts};

use crate::lamps::lamps_of;
use crate::{Member, Members};
use address::Address;
use model::{State, both};

// Position below the length, or 0 if the list is empty.
pub fn well_placed(position: usize, n: usize) -> bool
    ensures { result ≡ positioned position n }
{
    if n == 0 {
        return position == 0;
    }
    position < n
}

// The addresses of the table, as a row.
fn addresses(table: [Member; Members::CAPACITY]) -> [Address; Members::CAPACITY]
    ensures { result ≡ map addr_of table }
{
    let mut out = [address::blank(); Members::CAPACITY];
    let mut i = 0;
    while i < Members::CAPACITY {
        let m = table[i];
        let a = m.addr;
        out[i] = a;
        i += 1;
    }
    out
}

// For each drawer the first place of the first n whose address belongs in it, so that the next one needs no scan. Any place will do for an empty one.
fn first_places(order: [Address; Members::CAPACITY], n: usize) -> [usize; 64]
    requires { n ≤ 64 }
    ensures { Firsts order n result 0 }
{
    let mut out = [0usize; 64];
    let mut i = n;
    while 0 < i {
        i -= 1;
        out[address::drawer(order[i])] = i;
    }
    out
}

// Does an address stand at a place of the first n, where another one stands?
fn stands_at(a: Address, other: Address, place: usize, n: usize) -> bool
    ensures { result ≡ (ltb place n && here.same a other) }
{
    let within = place < n;
    both(within, address::same(a, other))
}

// Are the first n of a row distinct, and those of the order a permutation of them? One pass that marks: each is found in the order, at a place
// that none before it was found at: at first sight where it is the first of its drawer, else by a scan.
pub fn matches(
    row: [Address; Members::CAPACITY],
    order: [Address; Members::CAPACITY],
    n: usize,
) -> bool
    requires { n ≤ 64 }
    ensures { result ≡ (distinct here.same (take n row) && permutes here.same (take n order) (take n row)) }
{
    let firsts = first_places(order, n);
    let mut marks = [false; Members::CAPACITY];
    let mut i = 0;
    while i < n {
        let a = row[i];
        let first = firsts[address::drawer(a)];
        let there = order[first % Members::CAPACITY];
        let mut place = first;
        if !stands_at(a, there, first, n) {
            place = order::find_place(order, n, a);
        }
        if place == n {
            return false;
        }
        if marks[place] {
            return false;
        }
        marks[place] = true;
        i += 1;
    }
    true
}

// Are the first n of a row in range?
pub fn all_in_range(row: [Address; Members::CAPACITY], n: usize) -> bool
    requires { n ≤ 64 }
    ensures { result ≡ every here.valid (take n row) }
{
    let mut i = 0;
    while i < n {
        if !address::in_range(row[i]) {
            return false;
        }
        i += 1;
    }
    true
}

// Is a record that of an unused place?
fn is_unused(m: Member) -> bool
    ensures { result ≡ is_no_member here (to_member m) }
{
    if !address::same(m.addr, address::blank()) {
        return false;
    }
    let state = m.state;
    match state {
        State::Alive => m.number == 0,
        State::Pending => false,
        State::Suspected => false,
    }
}

// Is every place of the table from n on unused?
fn table_ends(table: [Member; Members::CAPACITY], n: usize) -> bool
    requires { n ≤ 64 }
    ensures { result ≡ every (is_no_member here) (drop n (map to_member table)) }
{
    let mut i = n;
    while i < Members::CAPACITY {
        if !is_unused(table[i]) {
            return false;
        }
        i += 1;
    }
    true
}

// Is every place of the order from n on unused?
fn order_ends(order: [Address; Members::CAPACITY], n: usize) -> bool
    requires { n ≤ 64 }
    ensures { result ≡ every blank_address (drop n order) }
{
    let blank = address::blank();
    let mut i = n;
    while i < Members::CAPACITY {
        if !address::same(order[i], blank) {
            return false;
        }
        i += 1;
    }
    true
}

// Counts, distinct addresses, the order a permutation of them, the position, addresses in range, every unused place zero, and the lamps
// those of the list.
pub fn sound_members(m: Members, own: Address) -> bool
    ensures { result ≡ sound_members here own (map to_member m.table) m.order.row m.len m.order.position m.lamps }
{
    let n = m.len;
    if Members::CAPACITY < n {
        return false;
    }
    let order = m.order;
    if !well_placed(order.position, n) {
        return false;
    }
    let table = m.table;
    let row = order.row;
    let listed = addresses(table);
    if !all_in_range(listed, n) {
        return false;
    }
    if !table_ends(table, n) {
        return false;
    }
    if !order_ends(row, n) {
        return false;
    }
    let lamps = m.lamps;
    if !lamps.same(lamps_of(table, n, own)) {
        return false;
    }
    matches(listed, row, n)
}

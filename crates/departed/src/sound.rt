// Is a row of the departed that was handed in sound? Every clause of the rules, for any value of the type.
ghost use Rattle.std.specs.Prelude.{◌≡◌, false, map, ◌≤◌, length, take, drop};
ghost use Rattle.address.specs.Here.{here};
ghost use Rattle.model.specs.Rows.{every, has};
ghost use Rattle.model.specs.Sound.{distinct, sound_departed};
ghost use Rattle.departed.specs.Views.{addr_of, row_view, has_range, is_empty_place};

use crate::{Departed, DepartedRow};
use address::Address;
use model::both;

// An array has as many places as its type says.
pub fn has_departed(entries: [Departed; DepartedRow::CAPACITY])
    ensures { length entries ≡ 128 }
{}

// Does an address stand among the first n, from a place on?
fn stands_from(
    entries: [Departed; DepartedRow::CAPACITY],
    n: usize,
    from: usize,
    a: Address,
) -> bool
    requires { (n ≤ 128) × (from ≤ n) }
    ensures { result ≡ has here.same a (drop from (map addr_of (take n entries))) }
{
    let mut i = from;
    while i < n {
        let d = entries[i];
        if address::same(a, d.addr) {
            return true;
        }
        i += 1;
    }
    false
}

// Does an address stand from a place on? Where its slot isn't marked it stands nowhere there, so that a scan is seldom needed.
fn stands_behind(
    entries: [Departed; DepartedRow::CAPACITY],
    n: usize,
    from: usize,
    a: Address,
    marked: bool,
) -> bool
    requires { (n ≤ 128) × (from ≤ n) × (marked ≡ false → has here.same a (drop from (map addr_of (take n entries))) ≡ false) }
    ensures { result ≡ has here.same a (drop from (map addr_of (take n entries))) }
{
    if marked {
        return stands_from(entries, n, from, a);
    }
    false
}

// Are the addresses of the first n distinct? From the last to the first, none stands again behind its place; the slots of those behind are marked.
fn all_distinct(entries: [Departed; DepartedRow::CAPACITY], n: usize) -> bool
    requires { n ≤ 128 }
    ensures { result ≡ distinct here.same (map addr_of (take n entries)) }
{
    let mut marks = [false; 1024];
    let mut i = n;
    while 0 < i {
        let d = entries[i - 1];
        let slot = address::slot(d.addr);
        if stands_behind(entries, n, i, d.addr, marks[slot]) {
            return false;
        }
        marks[slot] = true;
        i -= 1;
    }
    true
}

// Are the addresses of the first n in range?
fn all_in_range(entries: [Departed; DepartedRow::CAPACITY], n: usize) -> bool
    requires { n ≤ 128 }
    ensures { result ≡ every has_range (take n entries) }
{
    let mut i = 0;
    while i < n {
        let d = entries[i];
        if !address::in_range(d.addr) {
            return false;
        }
        i += 1;
    }
    true
}

// Is this an unused place?
fn is_empty(d: Departed) -> bool
    ensures { result ≡ is_empty_place d }
{
    let free = address::same(d.addr, address::blank());
    both(free, d.number == 0)
}

// Are the places from n on unused?
fn all_empty(entries: [Departed; DepartedRow::CAPACITY], n: usize) -> bool
    requires { n ≤ 128 }
    ensures { result ≡ every is_empty_place (drop n entries) }
{
    let mut i = n;
    while i < DepartedRow::CAPACITY {
        let d = entries[i];
        if !is_empty(d) {
            return false;
        }
        i += 1;
    }
    true
}

// The clauses of a sound node that are about the departed. Their order by time isn't checked.
pub fn sound_departed(row: DepartedRow) -> bool
    ensures { result ≡ sound_departed here (row_view row) }
{
    let entries = row.entries;
    let n = row.len;
    if DepartedRow::CAPACITY < n {
        return false;
    }
    let apart = all_distinct(entries, n);
    let valid = all_in_range(entries, n);
    let empty = all_empty(entries, n);
    both(both(apart, valid), empty)
}

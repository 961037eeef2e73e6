// The departed: a row of 128 places beside the list, the oldest last removal first. And D, by that row and the deceased heap.
#![tactic(auto)]

pub mod sound;

ghost use Rattle.std.specs.Prelude.{◌≡◌, [], ◌∷◌, ◌++◌, map, ◌≤◌, ◌<◌, max, take};
ghost use Rattle.address.specs.Here.{here};
ghost use Rattle.model.specs.Rows.{pad_to, remove_at};
ghost use Rattle.model.specs.Departed as rule;
ghost use Rattle.laws_list.specs.Places.{place_of};
ghost use Rattle.heap.specs.Views as heaps;
ghost use Rattle.disseminate.specs.Views.{from_found};
ghost use Rattle.member.specs.Views.{view_members, Held};
ghost use Rattle.departed.specs.Views.{to_departed, no_departed, addr_of, departed_view, pack_departed, Packed, either_found};

use address::Address;
use disseminate::Found;
use heap::Heap;
use member::{Members, greater};

// A departed address, and the greatest number seen at its removals.
#[derive(Clone, Copy)]
pub struct Departed {
    pub addr: Address,
    pub number: u64,
}

// The first `len` places are used; every place behind them is zero.
#[derive(Clone, Copy)]
pub struct DepartedRow {
    pub entries: [Departed; DepartedRow::CAPACITY],
    pub len: usize,
}

impl Departed {
    // What stands in an unused place.
    pub fn empty() -> Departed
        ensures { result ≡ no_departed }
    {
        Departed {
            addr: address::blank(),
            number: 0,
        }
    }
}

// The first place of an address among the first n, or n.
fn find_place(entries: [Departed; DepartedRow::CAPACITY], n: usize, a: Address) -> usize
    requires { n ≤ 128 }
    ensures value { result ≡ place_of here.same a (map addr_of (take n entries)) }
    ensures within { result ≤ n }
{
    let mut i = 0;
    while i < n {
        let d = entries[i];
        if address::same(a, d.addr) {
            return i;
        }
        i += 1;
    }
    n
}

// The row without one of its first n places: the rest closes up.
fn close_up(
    entries: [Departed; DepartedRow::CAPACITY],
    n: usize,
    place: usize,
) -> [Departed; DepartedRow::CAPACITY]
    requires { (n ≤ 128) × (place < n) }
    ensures { result ≡ pad_to 128 no_departed (remove_at (take n entries) place) }
{
    let d = Departed::empty();
    let mut out = [d; DepartedRow::CAPACITY];
    let mut i = 0;
    while i + 1 < n {
        if i < place {
            out[i] = entries[i];
        } else {
            out[i] = entries[i + 1];
        }
        i += 1;
    }
    out
}

impl DepartedRow {
    pub const CAPACITY: usize = 128;

    // Nobody has departed.
    pub fn new() -> DepartedRow
        ensures { result ≡ pack_departed [] }
    {
        let d = Departed::empty();
        let entries = [d; DepartedRow::CAPACITY];
        DepartedRow { entries, len: 0 }
    }

    // One more, removed last.
    fn more(self, d: Departed) -> DepartedRow
        requires { Packed self × (self.len < 128) }
        ensures { result ≡ pack_departed (departed_view self ++ (to_departed d ∷ [])) }
    {
        let len = self.len;
        let mut entries = self.entries;
        entries[len] = d;
        DepartedRow {
            entries,
            len: len + 1,
        }
    }

    // One less.
    fn less(self, place: usize) -> DepartedRow
        requires { Packed self × (place < self.len) }
        ensures { result ≡ pack_departed (remove_at (departed_view self) place) }
    {
        let entries = self.entries;
        let n = self.len;
        DepartedRow {
            entries: close_up(entries, n, place),
            len: n - 1,
        }
    }

    // The greatest number seen at an address's removals, if the row has it.
    pub fn look_up(self, a: Address) -> Found
        requires { Packed self }
        ensures { result ≡ from_found (rule.look_up here.same a (departed_view self)) }
    {
        let entries = self.entries;
        let n = self.len;
        let place = find_place(entries, n, a);
        if place < n {
            let d = entries[place];
            return Found::At(d.number);
        }
        Found::Missing
    }

    // An address was removed at a number: it stands last, with the greatest. A full row loses the one whose last removal is oldest.
    fn depart(self, a: Address, number: u64) -> DepartedRow
        requires { Packed self }
        ensures { result ≡ pack_departed (rule.depart here.same a number (departed_view self)) }
    {
        let entries = self.entries;
        let n = self.len;
        let place = find_place(entries, n, a);
        if place < n {
            let d = entries[place];
            let rest = self.less(place);
            return rest.more(Departed {
                addr: a,
                number: greater(d.number, number),
            });
        }
        let last = Departed { addr: a, number };
        if n < DepartedRow::CAPACITY {
            return self.more(last);
        }
        let rest = self.less(0);
        rest.more(last)
    }

    // An address leaves a list by a remover's number; the number that it was held at is counted too.
    pub fn leave(self, members: Members, a: Address, number: u64) -> DepartedRow
        requires { Packed self × Held members }
        ensures { result ≡ pack_departed (rule.departs here.same a number (view_members members).table (departed_view self)) }
    {
        let held = members.member_number(a);
        self.depart(a, greater(held, number))
    }
}

// What was found first, else what was found second.
fn or_else(first: Found, second: Found) -> Found
    ensures { result ≡ either_found first second }
{
    match first {
        Found::At(number) => Found::At(number),
        Found::Missing => second,
    }
}

// D of an address: from the row where remembering is on and the row has it, else from the heap.
pub fn death_of(on: bool, row: DepartedRow, deceased: Heap, a: Address) -> Found
    requires { Packed row × heaps.Packed deceased }
    ensures { result ≡ from_found (rule.death_of here on a (departed_view row) (heaps.heap_view deceased)) }
{
    let held = disseminate::is_deceased(deceased, a);
    if !on {
        return held;
    }
    let seen = row.look_up(a);
    or_else(seen, held)
}

// Declaration timers: a row of 16 places, in starting order.
#![tactic(auto)]

ghost use Rattle.std.specs.Prelude.{◌≡◌, ◌<◌, ◌≤◌, [], ◌∷◌, ◌++◌, map, take, drop};
ghost use Rattle.address.specs.Here.{here};
ghost use Rattle.model.specs.Rows.{pad_to, remove_at, every};
ghost use Rattle.model.specs.Detector.{is_over, first_over};
ghost use Rattle.model.specs.Sound.{sound_timers};
ghost use Rattle.timers.specs.Views.{no_timer, to_timer, timers_view, pack_timers, Packed, row_view, ending_of, has_range, is_empty_place};

use address::Address;
use model::both;

// A running declaration: whom, the number it will name, and the tick it was started at.
#[derive(Clone, Copy)]
pub struct Timer {
    pub addr: Address,
    pub number: u64,
    pub since: u32,
}

// The first `len` places are used; every place behind them is zero.
#[derive(Clone, Copy)]
pub struct Timers {
    pub entries: [Timer; Timers::CAPACITY],
    pub len: usize,
}

impl Timer {
    // What stands in an unused place.
    pub fn empty() -> Timer
        ensures { result ≡ no_timer }
    {
        Timer {
            addr: address::blank(),
            number: 0,
            since: 0,
        }
    }
}

impl Timers {
    pub const CAPACITY: usize = 16;

    // None running.
    pub fn new() -> Timers
        ensures { result ≡ pack_timers [] }
    {
        let t = Timer::empty();
        let entries = [t; Timers::CAPACITY];
        Timers { entries, len: 0 }
    }

    // One more, started last.
    pub fn start(self, t: Timer) -> Timers
        requires { Packed self × (self.len < 16) }
        ensures { result ≡ pack_timers (timers_view self ++ (to_timer t ∷ [])) }
    {
        let len = self.len;
        let mut entries = self.entries;
        entries[len] = t;
        Timers {
            entries,
            len: len + 1,
        }
    }

    // One less: its place is reused.
    pub fn end(self, place: usize) -> Timers
        requires { Packed self × (place < self.len) }
        ensures { result ≡ pack_timers (remove_at (timers_view self) place) }
    {
        let entries = self.entries;
        let n = self.len;
        Timers {
            entries: close_up(entries, n, place),
            len: n - 1,
        }
    }
}

// A wait is over when now less start, modulo 2^32, is at least the wait: wrapping subtract of u32 ticks.
pub fn is_over(wait: u32, now: u32, since: u32) -> bool
    ensures { result ≡ is_over wait now since }
{
    wait <= std::num::wrapping_sub_u32(now, since)
}

// The row without one of its first n places: the rest closes up.
fn close_up(entries: [Timer; Timers::CAPACITY], n: usize, place: usize) -> [Timer; Timers::CAPACITY]
    requires { (n ≤ 16) × (place < n) }
    ensures { result ≡ pad_to 16 no_timer (remove_at (take n entries) place) }
{
    let t = Timer::empty();
    let mut out = [t; Timers::CAPACITY];
    let mut i = 0;
    while i + 1 < n {
        if i < place {
            out[i] = entries[i];
        } else {
            out[i] = entries[i + 1];
        }
        i += 1;
    }
    out
}

// Which timer ends, if one does.
#[derive(Clone, Copy)]
pub enum Ending {
    Nothing,
    At(usize),
}

// The earliest started of the first n that is over.
pub fn first_over(entries: [Timer; Timers::CAPACITY], n: usize, wait: u32, now: u32) -> Ending
    requires { n ≤ 16 }
    ensures { result ≡ ending_of (first_over here wait now (map to_timer (take n entries))) }
{
    let mut i = 0;
    while i < n {
        let t = entries[i];
        if is_over(wait, now, t.since) {
            return Ending::At(i);
        }
        i += 1;
    }
    Ending::Nothing
}

// Are the addresses of the first n in range?
fn all_in_range(entries: [Timer; Timers::CAPACITY], n: usize) -> bool
    requires { n ≤ 16 }
    ensures { result ≡ every has_range (take n entries) }
{
    let mut i = 0;
    while i < n {
        let t = entries[i];
        if !address::in_range(t.addr) {
            return false;
        }
        i += 1;
    }
    true
}

// Is this an unused place?
fn is_empty(t: Timer) -> bool
    ensures { result ≡ is_empty_place t }
{
    let free = address::same(t.addr, address::blank());
    both(both(free, t.number == 0), t.since == 0)
}

// Are the places from n on unused?
fn all_empty(entries: [Timer; Timers::CAPACITY], n: usize) -> bool
    requires { n ≤ 16 }
    ensures { result ≡ every is_empty_place (drop n entries) }
{
    let mut i = n;
    while i < Timers::CAPACITY {
        let t = entries[i];
        if !is_empty(t) {
            return false;
        }
        i += 1;
    }
    true
}

// The clauses of a sound node that are about timers.
pub fn sound_timers(timers: Timers) -> bool
    ensures { result ≡ sound_timers here (row_view timers) }
{
    let entries = timers.entries;
    let n = timers.len;
    if Timers::CAPACITY < n {
        return false;
    }
    let valid = all_in_range(entries, n);
    let empty = all_empty(entries, n);
    both(valid, empty)
}

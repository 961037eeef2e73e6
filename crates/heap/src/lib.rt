// A heap of gossip: fewer sends is nearer the top.
#![tactic(auto)]

pub mod sound;

ghost use Rattle.std.specs.Prelude.{◌≡◌, [], ℕ, ◌+◌, ◌*◌, ◌≤◌, ◌<◌};
ghost use Rattle.model.specs.Words.{unused, sends_of};
ghost use Rattle.model.specs.Heap.{climb as climbed, sink as sunk, bottom as settled, push as pushed, sink_top, remove_top};
ghost use Rattle.heap.specs.Deciding.{nth, Agree, climb_to, lower_to, sink_to, settle_to};
ghost use Rattle.heap.specs.Views.{no_entry, sends, to_entry, heap_view, pack_heap, Packed};

use types::Gossip;

#[derive(Clone, Copy)]
pub struct Entry {
    pub gossip: Gossip,
    pub sends: u64,
    pub size: u64,
}

// The first `len` places are used; every place behind them is empty.
#[derive(Clone, Copy)]
pub struct Heap {
    pub entries: [Entry; Heap::CAPACITY],
    pub len: usize,
}

impl Entry {
    // No send limit passes 23, and an entry that reaches its limit goes.
    pub const MOST_SENDS: u64 = 22;

    // What stands in an unused place.
    pub fn empty() -> Entry
        ensures { result ≡ no_entry }
    {
        let g = Gossip::none();
        Entry {
            gossip: g,
            sends: 0,
            size: 0,
        }
    }
}

// The sends of the first `len` places, as a row of numbers: places are decided on it, and entries are moved only then.
fn sends_of(es: [Entry; Heap::CAPACITY], len: usize) -> [u64; Heap::CAPACITY]
    requires { len ≤ 128 }
    ensures { Agree no_entry sends (nth result) es len }
{
    let mut ks = [0u64; Heap::CAPACITY];
    let mut i = 0;
    while i < len {
        let e = es[i];
        ks[i] = e.sends;
        i += 1;
    }
    ks
}

// The place to which an entry of `mine` sends climbs from `place`: the place falls at each call.
fn climb_to(ks: &[u64; Heap::CAPACITY], place: usize, mine: u64) -> usize
    requires { place < 128 }
    ensures { (result ≡ climb_to (nth ks.now) mine place) × (result ≤ place) }
{
    if place == 0 {
        return place;
    }
    let parent = (place - 1) / 2;
    let above = ks[parent];
    if mine < above {
        climb_to(ks, parent, mine)
    } else {
        place
    }
}

// The entry at `place` climbs: where it ends is decided first, then it is carried there.
fn climb(mut es: [Entry; Heap::CAPACITY], place: usize) -> [Entry; Heap::CAPACITY]
    requires { place < 128 }
    ensures { result ≡ climbed no_entry sends es place }
{
    let e = es[place];
    let ks = sends_of(es, place);
    let to = climb_to(&ks, place, e.sends);
    let mut p = place;
    while to < p {
        let q = (p - 1) / 2;
        let x = es[p];
        let y = es[q];
        es[p] = y;
        es[q] = x;
        p = q;
    }
    es
}

// The place below `place` to which an entry sinks: of two the right one, unless the left has fewer sends.
fn lower(ks: &[u64; Heap::CAPACITY], len: usize, place: usize) -> usize
    requires { (len ≤ 128) × (2 * place + 1 < len) }
    ensures { (result ≡ lower_to (nth ks.now) len place) × (place < result) × (result < len) }
{
    let left = 2 * place + 1;
    let right = 2 * place + 2;
    if right < len {
        let l = ks[left];
        let r = ks[right];
        if l < r { left } else { right }
    } else {
        left
    }
}

// The place to which an entry of `mine` sends sinks from `place`: what is left of the length falls at each call.
fn sink_to(ks: &[u64; Heap::CAPACITY], len: usize, place: usize, mine: u64) -> usize
    requires { (len ≤ 128) × (place < 128) }
    ensures { (result ≡ sink_to (nth ks.now) mine len place) × (result < 128) }
{
    if len <= 2 * place + 1 {
        return place;
    }
    let child = lower(ks, len, place);
    let below = ks[child];
    if below < mine {
        sink_to(ks, len, child, mine)
    } else {
        place
    }
}

// The place at which an entry of `mine` sends ends that goes from `place` to the bottom and climbs back.
fn settle_to(ks: &[u64; Heap::CAPACITY], len: usize, place: usize, mine: u64) -> usize
    requires { (len ≤ 128) × (place < 128) }
    ensures { (result ≡ settle_to (nth ks.now) mine len place) × (result < 128) }
{
    if len <= 2 * place + 1 {
        return place;
    }
    let child = lower(ks, len, place);
    let end = settle_to(ks, len, child, mine);
    if end != child {
        return end;
    }
    let below = ks[child];
    if mine < below { place } else { end }
}

// The top sinks: where it ends is decided first, then it is carried there.
fn sink(mut es: [Entry; Heap::CAPACITY], len: usize) -> [Entry; Heap::CAPACITY]
    requires { len ≤ 128 }
    ensures { result ≡ sunk no_entry sends es len 0 }
{
    let e = es[0];
    let ks = sends_of(es, len);
    let to = sink_to(&ks, len, 0, e.sends);
    let mut p = 0;
    while p < to {
        let c = lower(&ks, len, p);
        let x = es[p];
        let y = es[c];
        es[p] = y;
        es[c] = x;
        p = c;
    }
    es
}

// The top goes to the bottom and climbs from there: where it ends is decided first, then it is carried there.
fn settle(mut es: [Entry; Heap::CAPACITY], len: usize) -> [Entry; Heap::CAPACITY]
    requires { len ≤ 128 }
    ensures { result ≡ settled no_entry sends es len 0 }
{
    let e = es[0];
    let ks = sends_of(es, len);
    let to = settle_to(&ks, len, 0, e.sends);
    let mut p = 0;
    while p < to {
        let c = lower(&ks, len, p);
        let x = es[p];
        let y = es[c];
        es[p] = y;
        es[c] = x;
        p = c;
    }
    es
}

impl Heap {
    pub const CAPACITY: usize = 128;

    // A heap of no entry.
    pub fn new() -> Heap
        ensures { result ≡ pack_heap [] }
    {
        let e = Entry::empty();
        let es = [e; Heap::CAPACITY];
        Heap {
            entries: es,
            len: 0,
        }
    }

    // The heap with one entry more.
    pub fn push(self, e: Entry) -> Heap
        requires { Packed self × (self.len < 128) }
        ensures { result ≡ pack_heap (pushed unused sends_of (heap_view self) (to_entry e)) }
    {
        let len = self.len;
        let mut es = self.entries;
        es[len] = e;
        let up = climb(es, len);
        Heap {
            entries: up,
            len: len + 1,
        }
    }

    // The heap with another top, which sinks.
    pub fn sink_top(self, e: Entry) -> Heap
        requires { Packed self × (0 < self.len) }
        ensures { result ≡ pack_heap (sink_top unused sends_of (heap_view self) (to_entry e)) }
    {
        let len = self.len;
        let mut es = self.entries;
        es[0] = e;
        let down = sink(es, len);
        Heap { entries: down, len }
    }

    // The heap without its top.
    pub fn pop(self) -> Heap
        requires { Packed self × (0 < self.len) }
        ensures { result ≡ pack_heap (remove_top unused sends_of (heap_view self)) }
    {
        let n = self.len - 1;
        let mut es = self.entries;
        es[0] = es[n];
        es[n] = Entry::empty();
        let down = settle(es, n);
        Heap {
            entries: down,
            len: n,
        }
    }
}

// Old news: the held events that a pushed one outdates, and the alive heap without them.
ghost use Rattle.std.specs.Prelude.{◌≡◌, not, [], ◌≤◌, ◌<◌, eqb};
ghost use Rattle.address.specs.Here.{here};
ghost use Rattle.model.specs.Rows.{pick, count as count_of, those};
ghost use Rattle.model.specs.Words.{unused, sends_of};
ghost use Rattle.model.specs.Heap.{push as pushed, push_all};
ghost use Rattle.model.specs.Collect.{outdates as outdates_by, is_old, collects};
ghost use Rattle.types.specs.Views.{to_gossip, to_parts};
ghost use Rattle.heap.specs.Views.{to_entry, heap_view, pack_heap, Packed};
ghost use Rattle.disseminate.specs.Views.{cleared_by, renewed};

use crate::{Grown, grow, plus};
use heap::{Entry, Heap};
use model::{Kind, both};
use types::{Gossip, Parts};

// Is a held number lower than that of a pushed event, or no higher than that of a death?
fn outdates(kind: Kind, number: u64, held: u64) -> bool
    ensures { result ≡ outdates_by kind number held }
{
    match kind {
        Kind::Alive => held < number,
        Kind::Deceased => held <= number,
    }
}

// Is a held event about the address of the pushed one, and outdated by it? `news` is the pushed one, by its parts.
fn is_old(kind: Kind, news: Parts, e: Entry) -> bool
    ensures { result ≡ is_old here kind (to_parts news) (to_entry e) }
{
    let g = e.gossip;
    let v = g.event;
    let held = types::parts_of(v);
    let about = address::same(news.subject, held.subject);
    both(about, outdates(kind, news.number, held.number))
}

// How many held events are outdated.
fn count_old(h: Heap, kind: Kind, news: Parts) -> usize
    requires { Packed h }
    ensures { result ≡ count_of (is_old here kind (to_parts news)) (heap_view h) }
{
    let es = h.entries;
    let len = h.len;
    let mut count = 0;
    let mut i = 0;
    while i < len {
        let e = es[i];
        count = plus(count, is_old(kind, news, e));
        i += 1;
    }
    count
}

// One entry more, with the sends that it had, unless it is old.
fn keep(h: Heap, e: Entry, old: bool) -> Heap
    requires { Packed h × (h.len < 128) }
    ensures { result ≡ pick old h (pack_heap (pushed unused sends_of (heap_view h) (to_entry e))) }
{
    if old {
        return h;
    }
    h.push(e)
}

// The others, put into an empty heap in the row's order.
fn rebuild(h: Heap, kind: Kind, news: Parts) -> Heap
    requires { Packed h }
    ensures { result ≡ pack_heap (push_all unused sends_of [] (those (λ e. not (is_old here kind (to_parts news) e)) (heap_view h))) }
{
    let es = h.entries;
    let len = h.len;
    let mut kept = Heap::new();
    let mut i = 0;
    while i < len {
        let e = es[i];
        kept = keep(kept, e, is_old(kind, news, e));
        i += 1;
    }
    kept
}

// How many held events a push takes from the alive heap, where collecting is on.
pub fn old_news(on: bool, alive: Heap, kind: Kind, g: Gossip) -> usize
    requires { Packed alive }
    ensures value { result ≡ collects here on kind (to_gossip g) (heap_view alive) }
    ensures within { result ≤ alive.len }
{
    if !on {
        return 0;
    }
    let event = g.event;
    count_old(alive, kind, types::parts_of(event))
}

// The alive heap without them. Where there are none it is handed back as it came.
pub fn clear(alive: Heap, old: usize, kind: Kind, g: Gossip) -> Heap
    requires { Packed alive }
    ensures { result ≡ cleared_by old kind (to_gossip g) alive }
{
    if old == 0 {
        return alive;
    }
    let event = g.event;
    rebuild(alive, kind, types::parts_of(event))
}

// The alive heap that a gossip was pushed to, and how many held events were collected for it.
#[derive(Clone, Copy)]
pub struct Renewed {
    pub grown: Grown,
    pub collected: usize,
}

// A gossip comes into the alive heap, where collecting is on after those that it outdates have gone.
pub fn renew(alive: Heap, on: bool, g: Gossip) -> Renewed
    requires { Packed alive }
    ensures { result ≡ renewed on (to_gossip g) alive }
{
    let old = old_news(on, alive, Kind::Alive, g);
    let cleared = clear(alive, old, Kind::Alive, g);
    Renewed {
        grown: grow(cleared, g),
        collected: old,
    }
}

// Is a heap that was handed in sound? Its entries, its order and its unused places.
ghost use Rattle.std.specs.Prelude.{◌≡◌, ◌&&◌, ◌≤◌, leb, length};
ghost use Rattle.address.specs.Here.{here};
ghost use Rattle.model.specs.Rows.{pick};
ghost use Rattle.model.specs.Heap.{parent};
ghost use Rattle.model.specs.Sound.{of_kind, sound_entry, is_unused, sound_heap};
ghost use Rattle.types.specs.Views.{Right};
ghost use Rattle.heap.specs.Views.{to_entry};
ghost use Rattle.heap.specs.Kinds.{row_view};

use super::{Entry, Heap};
use address::Address;
use model::{Kind, both};
use types::Measured;

// Is the kind of an event, 1 to 4, one that the heap holds?
fn of_kind(kind: Kind, k: u64) -> bool
    ensures { result ≡ of_kind kind k }
{
    match kind {
        Kind::Alive => both(1 <= k, k <= 3),
        Kind::Deceased => k == 4,
    }
}

// An entry of its heap's kind, with its size, sent not too often, its addresses in range.
fn sound_entry(e: Entry, kind: Kind, known: Measured) -> bool
    requires { Right known }
    ensures { result ≡ sound_entry here kind (to_entry e) }
{
    let g = e.gossip;
    let v = g.event;
    let p = types::parts_of(v);
    let held = of_kind(kind, p.kind);
    let from = known.text_len(p.from);
    let subject = address::text_len(p.subject);
    let size = types::size_over(from, subject, p.number);
    let valid = both(address::in_range(p.from), address::in_range(p.subject));
    both(
        both(both(held, e.size == size), e.sends <= Entry::MOST_SENDS),
        valid,
    )
}

// Does an entry stand for an unused place?
fn is_unused(e: Entry) -> bool
    ensures { result ≡ is_unused here (to_entry e) }
{
    let g = e.gossip;
    let v = g.event;
    let p = types::parts_of(v);
    both(both(p.kind == 0, e.sends == 0), e.size == 0)
}

// Is a used place sound, and sent no less often than the one above it? Is any other one unused?
fn place_sound(e: Entry, over: u64, used: bool, kind: Kind, known: Measured) -> bool
    requires { Right known }
    ensures { result ≡ pick used (sound_entry here kind (to_entry e) && leb over e.sends) (is_unused here (to_entry e)) }
{
    if used {
        let sound = sound_entry(e, kind, known);
        return both(sound, over <= e.sends);
    }
    is_unused(e)
}

// The place above a place; the top is its own.
fn above(place: usize) -> usize
    ensures { (result ≡ parent place) × (result ≤ place) }
{
    if place == 0 {
        return 0;
    }
    (place - 1) / 2
}

// An array has as many places as its type says. The prover finds this of an array that stands by itself, so it is handed over once.
pub fn has_entries(entries: [Entry; Heap::CAPACITY])
    ensures { length entries ≡ 128 }
{}

// Is a heap sound? Any address will do for `own`: what a node tells is from its own, whose text is then measured once, not at every entry.
pub fn heap_sound(h: Heap, kind: Kind, own: Address) -> bool
    ensures { result ≡ sound_heap here kind (row_view h) }
{
    let len = h.len;
    if Heap::CAPACITY < len {
        return false;
    }
    let es = h.entries;
    has_entries(es);
    let known = Measured::of(own);
    let mut i = 0;
    while i < Heap::CAPACITY {
        let e = es[i];
        let x = es[above(i)];
        if !place_sound(e, x.sends, i < len, kind, known) {
            return false;
        }
        i += 1;
    }
    true
}

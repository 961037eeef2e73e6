// What goes out with a message: gossip from two heaps, one of the living and one of the dead.
#![tactic(auto)]

pub mod collect;

ghost use Rattle.std.specs.Prelude.{◌≡◌, Bool, true, false, ◌&&◌, ◌||◌, ℕ, ◌+◌, ◌≤◌, ◌<◌, eqb, leb, ltb};
ghost use Rattle.model.specs.Bounds.{greatest_size};
ghost use Rattle.model.specs.Rows.{one, pick};
ghost use Rattle.address.specs.Here.{here};
ghost use Rattle.model.specs.Limit.{limit_of};
ghost use Rattle.model.specs.Choose.{was_noted, take_top, try_heap, gave, terms_of, choose as chosen_from, entry_of, death_in, death as death_of};
ghost use Rattle.model.specs.declared.Kind.TheVariants as kind;
ghost use Rattle.model.specs.Sound.{in_range};
ghost use Rattle.laws_choose.specs.GoodHeap.{GoodHeap};
ghost use Rattle.types.specs.Views.{to_gossip};
ghost use Rattle.heap.specs.Views.{to_entry, heap_view, pack_heap, Packed};
ghost use Rattle.disseminate.specs.Views.{noted as noted_of, to_terms, from_terms, chosen_none, pack_choice, PackedChosen, NotedOne, Room, NotedIf, top_of, Open, same_kind, of_kind, grown, no_news, pack_disseminator, from_found};

use address::Address;
use heap::{Entry, Heap};
use model::{Kind, Settings};
use types::{Event, Gossip};

// Do two kinds name the same heap?
pub fn same_kind(a: Kind, b: Kind) -> bool
    ensures { result ≡ same_kind a b }
{
    match a {
        Kind::Alive => match b {
            Kind::Alive => true,
            Kind::Deceased => false,
        },
        Kind::Deceased => match b {
            Kind::Alive => false,
            Kind::Deceased => true,
        },
    }
}

// Of two numbers, one for each heap, that of a kind's.
pub fn of_kind(kind: Kind, alive: usize, deceased: usize) -> usize
    ensures { result ≡ of_kind kind alive deceased }
{
    match kind {
        Kind::Alive => alive,
        Kind::Deceased => deceased,
    }
}

// What a node spreads: what is known of the living, and deaths.
#[derive(Clone, Copy)]
pub struct Disseminator {
    pub alive: Heap,
    pub deceased: Heap,
}

// A heap that a gossip was pushed to, or as it came where it was full.
#[derive(Clone, Copy)]
pub struct Grown {
    pub heap: Heap,
    pub full: bool,
}

// A gossip as it comes into a heap: not sent yet, with its size. Measured apart from the push, which is short then and needs no copy of the heap for a call.
pub fn entry_of(g: Gossip) -> Entry
    ensures { to_entry result ≡ entry_of here (to_gossip g) }
{
    Entry {
        gossip: g,
        sends: 0,
        size: types::size_of(g),
    }
}

// A gossip comes into the heap of its kind. One heap by itself, since both would be copied where one changes.
pub fn grow(h: Heap, g: Gossip) -> Grown
    requires { Packed h }
    ensures { result ≡ grown h (to_gossip g) }
{
    if Heap::CAPACITY <= h.len {
        return Grown {
            heap: h,
            full: true,
        };
    }
    Grown {
        heap: h.push(entry_of(g)),
        full: false,
    }
}

impl Disseminator {
    // Nothing to spread.
    pub fn new() -> Disseminator
        ensures { result ≡ pack_disseminator no_news }
    {
        Disseminator {
            alive: Heap::new(),
            deceased: Heap::new(),
        }
    }
}

// A number that may be missing.
#[derive(Clone, Copy)]
pub enum Found {
    Missing,
    At(u64),
}

// The number with which a gossip says that an address is dead.
fn death_in(g: Gossip, a: Address) -> Found
    ensures { result ≡ from_found (death_in here a (to_gossip g).event) }
{
    let v = g.event;
    match v {
        Event::Deceased {
            from: _,
            subject,
            number,
        } => {
            if address::same(a, subject) {
                Found::At(number)
            } else {
                Found::Missing
            }
        },
        _ => Found::Missing,
    }
}

// The number of the first entry, in the row's order, that says that an address is dead.
pub fn is_deceased(h: Heap, a: Address) -> Found
    requires { Packed h }
    ensures { result ≡ from_found (death_of here a (heap_view h)) }
{
    let es = h.entries;
    let len = h.len;
    let mut i = 0;
    while i < len {
        let e = es[i];
        let f = death_in(e.gossip, a);
        if let Found::At(n) = f {
            return Found::At(n);
        }
        i += 1;
    }
    Found::Missing
}

// What bounds one choosing: both shares, the size, and the limit of sends.
#[derive(Clone, Copy)]
pub struct Terms {
    pub alive_share: usize,
    pub deceased_share: usize,
    pub max_size: u64,
    pub limit: u64,
}

// The living have the greater half.
pub fn terms_of(max_selected: usize, max_size: usize, limit: u64) -> Terms
    requires { max_selected ≤ 64 }
    ensures { result ≡ from_terms (terms_of max_selected max_size limit) }
{
    let alive_share = (max_selected + 1) / 2;
    Terms {
        alive_share,
        deceased_share: max_selected - alive_share,
        max_size: max_size as u64,
        limit,
    }
}

// The gossip chosen so far, each with the send count that it was noted with, and the bytes of all.
#[derive(Clone, Copy)]
pub struct Chosen {
    pub rows: [Gossip; Chosen::CAPACITY],
    pub sent: [u64; Chosen::CAPACITY],
    pub count: usize,
    pub size: u64,
}

// How far a choosing has come.
#[derive(Clone, Copy)]
pub struct Choice {
    pub alive: Heap,
    pub deceased: Heap,
    pub chosen: Chosen,
    pub from_alive: usize,
    pub from_deceased: usize,
}

impl Chosen {
    // A message has at most 64 gossip records.
    pub const CAPACITY: usize = 64;

    // Nothing is chosen yet.
    pub fn new() -> Chosen
        ensures { result ≡ chosen_none }
    {
        let g = Gossip {
            event: Event::Nothing,
        };
        let rows = [g; Chosen::CAPACITY];
        let sent = [0u64; Chosen::CAPACITY];
        Chosen {
            rows,
            sent,
            count: 0,
            size: 0,
        }
    }
}

// Was an equal gossip noted with this send count? The last one noted is looked at first.
fn noted(
    rows: [Gossip; Chosen::CAPACITY],
    sent: [u64; Chosen::CAPACITY],
    count: usize,
    g: Gossip,
    sends: u64,
) -> bool
    requires { count ≤ 64 }
    ensures { result ≡ was_noted here (to_gossip g) sends (noted_of rows sent count) }
{
    let mut i = count;
    while 0 < i {
        i -= 1;
        if sent[i] == sends {
            if types::same_gossip(g, rows[i]) {
                return true;
            }
        }
    }
    false
}

// Must an entry wait: would it pass the size, or was it noted?
fn barred(n: Chosen, top: Entry, max_size: u64) -> bool
    requires { PackedChosen n × (n.size ≤ greatest_size) × (top.size ≤ greatest_size) }
    ensures { result ≡ (ltb max_size (n.size + top.size) || was_noted here (to_gossip top.gossip) top.sends (noted_of n.rows n.sent n.count)) }
{
    if max_size < n.size + top.size {
        return true;
    }
    let rows = n.rows;
    let sent = n.sent;
    let g = top.gossip;
    noted(rows, sent, n.count, g, top.sends)
}

// An entry is chosen, and noted with one send more.
fn note(n: Chosen, top: Entry) -> Chosen
    requires { Room n top }
    ensures { NotedOne n (to_gossip top.gossip) (top.sends + 1) top.size result }
{
    let count = n.count;
    let mut rows = n.rows;
    let mut sent = n.sent;
    let g = top.gossip;
    rows[count] = g;
    sent[count] = top.sends + 1;
    Chosen {
        rows,
        sent,
        count: count + 1,
        size: n.size + top.size,
    }
}

// The heap after its top was taken: sent often enough it goes, else it sinks.
fn after_top(h: Heap, top: Entry, limit: u64) -> Heap
    requires { Packed h × (0 < h.len) × (top.sends ≤ 22) }
    ensures { result ≡ pack_heap (take_top here limit (to_entry top) (heap_view h)).heap }
{
    let sends = top.sends + 1;
    if limit <= sends {
        return h.pop();
    }
    let g = top.gossip;
    h.sink_top(Entry {
        gossip: g,
        sends,
        size: top.size,
    })
}

// Does a heap give its top: has it one, and need that one not wait?
fn gives(h: Heap, n: Chosen, t: Terms) -> bool
    requires { Open t h n }
    ensures { result ≡ gave here (try_heap here (to_terms t) n.size (noted_of n.rows n.sent n.count) (heap_view h)) }
{
    if h.len == 0 {
        return false;
    }
    let es = h.entries;
    let top = es[0];
    !barred(n, top, t.max_size)
}

// The top of a heap is noted, where it is given.
fn note_top(n: Chosen, h: Heap, given: bool) -> Chosen
    requires { given ≡ true → Room n (top_of h) }
    ensures { NotedIf given n (top_of h) result }
{
    if !given {
        return n;
    }
    let es = h.entries;
    let top = es[0];
    note(n, top)
}

// The heap after its top was taken, where it is given.
fn spend_top(h: Heap, given: bool, limit: u64) -> Heap
    requires { given ≡ true → Packed h × (0 < h.len) × ((top_of h).sends ≤ 22) }
    ensures { result ≡ pick given (pack_heap (take_top here limit (to_entry (top_of h)) (heap_view h)).heap) h }
{
    if !given {
        return h;
    }
    let es = h.entries;
    let top = es[0];
    after_top(h, top, limit)
}

// One more where a heap gave one.
fn plus(n: usize, gave: bool) -> usize
    requires { n ≤ 128 }
    ensures { result ≡ n + one gave }
{
    if gave { n + 1 } else { n }
}

// Is choosing over: no entry held, or both shares reached?
fn over(held: usize, from_alive: usize, from_deceased: usize, t: Terms) -> bool
    ensures { result ≡ (eqb held 0 || (leb t.alive_share from_alive && leb t.deceased_share from_deceased)) }
{
    if held == 0 {
        return true;
    }
    if from_alive < t.alive_share {
        return false;
    }
    t.deceased_share <= from_deceased
}

// Gossip for one message: rounds of one try at each heap, while one of them gives. Each but the last chooses one at least.
pub fn choose(alive: Heap, deceased: Heap, t: Terms) -> Choice
    requires { Packed alive × Packed deceased × GoodHeap here kind.Alive (heap_view alive) × GoodHeap here kind.Deceased (heap_view deceased) × (t.max_size ≤ greatest_size) × (t.limit ≤ 23) }
    ensures { result ≡ pack_choice (chosen_from here (to_terms t) (heap_view alive) (heap_view deceased)) }
{
    let mut a = alive;
    let mut d = deceased;
    let mut n = Chosen::new();
    let mut from_alive: usize = 0;
    let mut from_deceased: usize = 0;
    let mut left = Chosen::CAPACITY;
    while 0 < left {
        if over(a.len + d.len, from_alive, from_deceased, t) {
            break;
        }
        let before = n.count;
        let living = gives(a, n, t);
        n = note_top(n, a, living);
        a = spend_top(a, living, t.limit);
        from_alive = plus(from_alive, living);
        let dead = gives(d, n, t);
        n = note_top(n, d, dead);
        d = spend_top(d, dead, t.limit);
        from_deceased = plus(from_deceased, dead);
        if n.count == before {
            break;
        }
        left -= 1;
    }
    Choice {
        alive: a,
        deceased: d,
        chosen: n,
        from_alive,
        from_deceased,
    }
}

// Gossip for one message of a node with so many members.
pub fn get_gossip(alive: Heap, deceased: Heap, s: Settings, members: usize) -> Choice
    requires { Packed alive × Packed deceased × GoodHeap here kind.Alive (heap_view alive) × GoodHeap here kind.Deceased (heap_view deceased) × (in_range s ≡ true) × (members ≤ 64) }
    ensures { result ≡ pack_choice (chosen_from here (terms_of s.max_selected s.max_size (limit_of members s.send_constant)) (heap_view alive) (heap_view deceased)) }
{
    let limit = limit::send_limit(members, s.send_constant);
    let t = terms_of(s.max_selected, s.max_size, limit);
    choose(alive, deceased, t)
}

// The probing order: a row of 64 places, taken and handed back whole.
#![tactic(auto)]

ghost use Rattle.std.specs.Prelude.{◌≡◌, [], ◌+◌, ◌-◌, ◌≤◌, ◌<◌, min, length, take, get_or, set};
ghost use Rattle.address.specs.Here.{here};
ghost use Rattle.model.specs.Rows.{insert_at, remove_at, pad_to};
ghost use Rattle.model.specs.Members.{passed as passed_over, looks as looks_of, cap as cap_of};
ghost use Rattle.laws_list.specs.Places.{place_of};
ghost use Rattle.order.specs.Views.{shuffled_of, Ready, turned_of, excluded, picks_of, noted_of, goes_further, refused_pick, picked_of};

use address::Address;
use model::{Drew, Refusal};

// The order of a list, and the place that is probed next.
#[derive(Clone, Copy)]
pub struct Order {
    pub row: [Address; Order::CAPACITY],
    pub position: usize,
}

impl Order {
    // As many addresses as a list has at most.
    pub const CAPACITY: usize = 64;
}

// The first place that holds an address, or n where none of the first n does. By value: a lent row of structs isn't walked.
pub fn find_place(row: [Address; Order::CAPACITY], n: usize, a: Address) -> usize
    requires { n ≤ 64 }
    ensures value { result ≡ place_of here.same a (take n row) }
    ensures within { result ≤ n }
{
    let mut i = 0;
    while i < n {
        if address::same(a, row[i]) {
            return i;
        }
        i += 1;
    }
    n
}

// The row by value: one place more. x comes in at a place of the first n; the rest moves up within the row, from its end down.
pub fn insert(
    mut row: [Address; Order::CAPACITY],
    n: usize,
    place: usize,
    x: Address,
) -> [Address; Order::CAPACITY]
    requires { (n < 64) × (place ≤ n) }
    ensures { result ≡ pad_to 64 here.blank (insert_at (take n row) place x) }
{
    let mut i = Order::CAPACITY - 1;
    while place < i {
        if n < i {
            row[i] = address::blank();
        } else {
            row[i] = row[i - 1];
        }
        i -= 1;
    }
    row[place] = x;
    row
}

// The row by value: one place less. A place of the first n goes, and the rest closes up.
pub fn remove(row: [Address; Order::CAPACITY], n: usize, place: usize) -> [Address; Order::CAPACITY]
    requires { (n ≤ 64) × (place < n) }
    ensures { result ≡ pad_to 64 here.blank (remove_at (take n row) place) }
{
    let mut out = [address::blank(); Order::CAPACITY];
    let mut i = 0;
    while i + 1 < n {
        if i < place {
            out[i] = row[i];
        } else {
            out[i] = row[i + 1];
        }
        i += 1;
    }
    out
}

// What a shuffle gives. Where a draw was missing the row is as it came.
#[derive(Clone, Copy)]
pub struct Shuffled {
    pub row: [Address; Order::CAPACITY],
    pub drew: Drew,
}

// The row by value: a permutation. For i from n - 1 down to 1, what stands at i changes places with what stands at draw mod (i + 1).
pub fn shuffle(row: [Address; Order::CAPACITY], n: usize, draws: &[u64], from: usize) -> Shuffled
    requires { (n ≤ 64) × (from ≤ length draws.now) }
    ensures { result ≡ shuffled_of row n draws.now from }
{
    let mut out = row;
    let mut next = from;
    let mut i = n;
    while 1 < i {
        if draws.len() <= next {
            return Shuffled {
                row,
                drew: Drew::Refused(Refusal::DrawsShort),
            };
        }
        let d = draws[next] % (i as u64);
        let j = d as usize;
        i -= 1;
        let x = out[i];
        let y = out[j];
        out[i] = y;
        out[j] = x;
        next += 1;
    }
    Shuffled {
        row: out,
        drew: Drew::Used(next - from),
    }
}

// What an advance gives. Where a draw was missing the order is as it came.
#[derive(Clone, Copy)]
pub struct Turned {
    pub order: Order,
    pub drew: Drew,
}

// Position + 1 mod n; on 0 the first n are shuffled.
pub fn advance(order: Order, n: usize, draws: &[u64], from: usize) -> Turned
    requires { Ready order n × (0 < n) × (from ≤ length draws.now) }
    ensures { result ≡ turned_of order n draws.now from }
{
    let row = order.row;
    let next = (order.position + 1) % n;
    if next != 0 {
        return Turned {
            order: Order {
                row,
                position: next,
            },
            drew: Drew::Used(0),
        };
    }
    let shuffled = shuffle(row, n, draws, from);
    let drew = shuffled.drew;
    let turned = shuffled.row;
    match drew {
        Drew::Used(used) => Turned {
            order: Order {
                row: turned,
                position: next,
            },
            drew: Drew::Used(used),
        },
        Drew::Refused(refusal) => Turned {
            order,
            drew: Drew::Refused(refusal),
        },
    }
}

// Whom a pick passes over besides the own address.
#[derive(Clone, Copy)]
pub enum Exclusion {
    Nobody,
    Peer(Address),
}

// Own and excluded addresses are passed over.
fn passed(own: Address, exclusion: Exclusion, x: Address) -> bool
    ensures { result ≡ passed_over here.same here.blank own (excluded exclusion) x }
{
    if address::same(own, x) {
        return true;
    }
    match exclusion {
        Exclusion::Nobody => false,
        Exclusion::Peer(e) => address::same(e, x),
    }
}

// How many looks each pick may take: they are enough on a sound list.
fn looks(exclusion: Exclusion) -> usize
    ensures value { result ≡ looks_of here.same here.blank here.blank (excluded exclusion) }
    ensures within { result ≤ 5 }
{
    match exclusion {
        Exclusion::Nobody => 3,
        Exclusion::Peer(_) => 5,
    }
}

// As many as are wanted, of n without those that are kept back.
fn at_most(wanted: usize, n: usize, kept: usize) -> usize
    ensures { result ≡ min wanted (n - kept) }
{
    if n <= kept {
        return 0;
    }
    if wanted <= n - kept { wanted } else { n - kept }
}

// Wanted, capped at n - 1, or n - 2 with an exclusion, never below 0.
fn cap(exclusion: Exclusion, wanted: usize, n: usize) -> usize
    ensures value { result ≡ cap_of here.same here.blank here.blank (excluded exclusion) wanted n }
    ensures within { (result ≤ wanted) × (result ≤ n - 1) }
{
    match exclusion {
        Exclusion::Nobody => at_most(wanted, n, 1),
        Exclusion::Peer(_) => at_most(wanted, n, 2),
    }
}

// The addresses that were picked, from the front.
#[derive(Clone, Copy)]
pub struct Picks {
    pub row: [Address; Picks::CAPACITY],
    pub count: usize,
}

impl Picks {
    // A ping request goes to at most so many.
    pub const CAPACITY: usize = 4;

    // Nobody picked yet.
    pub fn none() -> Picks
        ensures { result ≡ picks_of [] }
    {
        let blank = address::blank();
        Picks {
            row: [blank; Picks::CAPACITY],
            count: 0,
        }
    }
}

// One that was looked at, which is picked unless it is passed over.
fn noted(picks: Picks, x: Address, over: bool) -> Picks
    requires { picks.count < 4 }
    ensures { result ≡ noted_of picks x over }
{
    if over {
        return picks;
    }
    let mut row = picks.row;
    let count = picks.count;
    row[count] = x;
    Picks {
        row,
        count: count + 1,
    }
}

// Is a pick to look on?
fn goes_on(left: usize, count: usize, wanted: usize) -> bool
    ensures { result ≡ goes_further left count wanted }
{
    if left == 0 {
        return false;
    }
    count < wanted
}

// What a pick gives. Where a draw was missing the order is as it came, and nobody is picked.
#[derive(Clone, Copy)]
pub struct Picked {
    pub order: Order,
    pub picks: Picks,
    pub drew: Drew,
}

// A pick that was refused: the order as it came, and nobody.
fn without(order: Order, refusal: Refusal) -> Picked
    ensures { result ≡ refused_pick order refusal }
{
    Picked {
        order,
        picks: Picks::none(),
        drew: Drew::Refused(refusal),
    }
}

// As many as are wanted after the cap: each look advances, own and excluded addresses are passed over, and one peer may come twice.
pub fn pick(
    order: Order,
    n: usize,
    own: Address,
    exclusion: Exclusion,
    wanted: usize,
    draws: &[u64],
    from: usize,
) -> Picked
    requires { Ready order n × (wanted ≤ 4) × (from ≤ length draws.now) }
    ensures value { result ≡ picked_of order n own exclusion wanted draws.now from }
    ensures within { result.picks.count ≤ wanted }
{
    let capped = cap(exclusion, wanted, n);
    let mut left = looks(exclusion) * capped;
    let mut ahead = order;
    let mut picks = Picks::none();
    let mut next = from;
    while goes_on(left, picks.count, capped) {
        let row = ahead.row;
        let position = ahead.position;
        let x = row[position];
        let turned = advance(ahead, n, draws, next);
        let drew = turned.drew;
        match drew {
            Drew::Used(used) => next += used,
            Drew::Refused(refusal) => return without(order, refusal),
        }
        ahead = turned.order;
        picks = noted(picks, x, passed(own, exclusion, x));
        left -= 1;
    }
    Picked {
        order: ahead,
        picks,
        drew: Drew::Used(next - from),
    }
}

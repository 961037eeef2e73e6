// A sound node, and nodes with one part of it replaced.
use address::Address;
use departed::{Departed, DepartedRow};
use disseminate::Disseminator;
use heap::{Entry, Heap};
use member::{Member, Members};
use model::{Lamps, Settings, State};
use node::Node;
use order::Order;
use timers::{Timer, Timers};
use types::{Event, Gossip};

fn settings() -> Settings {
    Settings {
        ping_interval: 10,
        ping_timeout: 10,
        ping_req_timeout: 10,
        suspect_timeout: 10,
        ping_req_group_size: 1,
        send_constant: 3,
        max_selected: 6,
        max_size: 1169,
        collect: false,
        remember: false,
    }
}

fn state(kind: u64) -> State {
    match kind {
        0 => State::Alive,
        1 => State::Pending,
        _ => State::Suspected,
    }
}

pub fn member(addr: Address, kind: u64, number: u64) -> Member {
    let state = state(kind);
    Member {
        addr,
        state,
        number,
    }
}

// Kinds 1 to 4 are Joined, Recovered, Suspected, Deceased.
fn event(kind: u64, from: Address, subject: Address, number: u64) -> Event {
    match kind {
        1 => Event::new_node_joined(from, subject, number),
        2 => Event::new_node_recovered(from, subject, number),
        3 => Event::new_node_suspected(from, subject, number),
        4 => Event::new_node_deceased(from, subject, number),
        _ => Event::Nothing,
    }
}

pub fn entry(
    kind: u64,
    from: Address,
    subject: Address,
    number: u64,
    sends: u64,
    size: u64,
) -> Entry {
    let event = event(kind, from, subject, number);
    let gossip = Gossip { event };
    Entry {
        gossip,
        sends,
        size,
    }
}

fn tick(value: u64) -> u32 {
    (value % 4294967296) as u32
}

pub fn timer(addr: Address, number: u64, since: u64) -> Timer {
    Timer {
        addr,
        number,
        since: tick(since),
    }
}

pub fn lit(alive: u64, pending: u64, suspected: u64) -> Lamps {
    Lamps {
        alive: alive as usize,
        pending: pending as usize,
        suspected: suspected as usize,
    }
}

// The addresses of this program are numbers of IPv4, and 0 is that of an unused place.
pub fn at(n: u64) -> Address {
    if n == 0 {
        return address::blank();
    }
    address::from_number(n)
}

fn list() -> Members {
    let mut table = [Member::none(); 64];
    table[0] = member(at(1), 0, 0);
    table[1] = member(at(2), 0, 5);
    let mut row = [address::blank(); 64];
    row[0] = at(2);
    row[1] = at(1);
    Members {
        table,
        len: 2,
        order: Order { row, position: 1 },
        lamps: lit(1, 0, 0),
    }
}

fn living() -> Heap {
    let mut entries = [Entry::empty(); 128];
    entries[0] = entry(1, at(1), at(2), 0, 3, 24);
    entries[1] = entry(2, at(1), at(2), 127, 3, 26);
    entries[2] = entry(3, at(1), at(2), 128, 4, 27);
    Heap { entries, len: 3 }
}

fn dead() -> Heap {
    let mut entries = [Entry::empty(); 128];
    entries[0] = entry(4, at(1), at(3), 0, 0, 24);
    Heap { entries, len: 1 }
}

// Timers stand in starting order, which isn't checked: here they don't.
fn running() -> Timers {
    let mut entries = [Timer::empty(); 16];
    entries[0] = timer(at(2), 5, 100);
    entries[1] = timer(at(9), 0, 50);
    Timers { entries, len: 2 }
}

pub fn left(addr: Address, number: u64) -> Departed {
    Departed { addr, number }
}

// The departed stand with the oldest last removal first, which isn't checked.
fn gone() -> DepartedRow {
    let mut entries = [Departed::empty(); 128];
    entries[0] = left(at(3), 0);
    entries[1] = left(at(2), 4);
    DepartedRow { entries, len: 2 }
}

pub fn sound() -> Node {
    let settings = settings();
    let members = list();
    let alive = living();
    let deceased = dead();
    let disseminator = Disseminator { alive, deceased };
    let timers = running();
    let departed = gone();
    Node {
        settings,
        own: at(1),
        members,
        disseminator,
        timers,
        departed,
    }
}

// The setting of a number, in the order in which they stand.
fn setting(mut settings: Settings, which: u64, value: u64) -> Settings {
    match which {
        0 => settings.ping_interval = tick(value),
        1 => settings.ping_timeout = tick(value),
        2 => settings.ping_req_timeout = tick(value),
        3 => settings.suspect_timeout = tick(value),
        4 => settings.ping_req_group_size = value as usize,
        5 => settings.send_constant = value as usize,
        6 => settings.max_selected = value as usize,
        7 => settings.max_size = value as usize,
        _ => settings.collect = value != 0,
    }
    settings
}

pub fn set_up(mut node: Node, which: u64, value: u64) -> Node {
    let settings = node.settings;
    let changed = setting(settings, which, value);
    node.settings = changed;
    node
}

pub fn owned(mut node: Node, own: Address) -> Node {
    node.own = own;
    node
}

pub fn listed(mut node: Node, len: usize, position: usize) -> Node {
    let members = node.members;
    let table = members.table;
    let mut order = members.order;
    order.position = position;
    let lamps = members.lamps;
    let changed = Members {
        table,
        len,
        order,
        lamps,
    };
    node.members = changed;
    node
}

pub fn member_at(mut node: Node, place: usize, member: Member) -> Node {
    let members = node.members;
    let mut table = members.table;
    let order = members.order;
    if place < 64 {
        table[place] = member;
    }
    let lamps = members.lamps;
    let changed = Members {
        table,
        len: members.len,
        order,
        lamps,
    };
    node.members = changed;
    node
}

pub fn ordered(mut node: Node, place: usize, addr: Address) -> Node {
    let members = node.members;
    let table = members.table;
    let mut order = members.order;
    let mut row = order.row;
    if place < 64 {
        row[place] = addr;
    }
    order.row = row;
    let lamps = members.lamps;
    let changed = Members {
        table,
        len: members.len,
        order,
        lamps,
    };
    node.members = changed;
    node
}

pub fn lamps(mut node: Node, lamps: Lamps) -> Node {
    let members = node.members;
    let table = members.table;
    let order = members.order;
    let changed = Members {
        table,
        len: members.len,
        order,
        lamps,
    };
    node.members = changed;
    node
}

fn heap_with(heap: Heap, place: usize, entry: Entry, len: usize) -> Heap {
    let mut entries = heap.entries;
    if place < 128 {
        entries[place] = entry;
    }
    Heap { entries, len }
}

pub fn alive_at(mut node: Node, place: usize, entry: Entry, len: usize) -> Node {
    let mut disseminator = node.disseminator;
    let heap = disseminator.alive;
    let changed = heap_with(heap, place, entry, len);
    disseminator.alive = changed;
    node.disseminator = disseminator;
    node
}

pub fn deceased_at(mut node: Node, place: usize, entry: Entry, len: usize) -> Node {
    let mut disseminator = node.disseminator;
    let heap = disseminator.deceased;
    let changed = heap_with(heap, place, entry, len);
    disseminator.deceased = changed;
    node.disseminator = disseminator;
    node
}

pub fn timer_at(mut node: Node, place: usize, timer: Timer, len: usize) -> Node {
    let timers = node.timers;
    let mut entries = timers.entries;
    if place < 16 {
        entries[place] = timer;
    }
    let changed = Timers { entries, len };
    node.timers = changed;
    node
}

pub fn departed_at(mut node: Node, place: usize, departed: Departed, len: usize) -> Node {
    let row = node.departed;
    let mut entries = row.entries;
    if place < 128 {
        entries[place] = departed;
    }
    let changed = DepartedRow { entries, len };
    node.departed = changed;
    node
}

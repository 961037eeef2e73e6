// The list of peers over its probing order: a record for each listed address, and the order in which they are probed.
#![tactic(auto)]

pub mod lamps;
pub mod sound;

ghost use Rattle.std.specs.Prelude.{◌≡◌, ◌+◌, ◌-◌, ◌≤◌, ◌<◌, max, length, take, get_or, eqb};
ghost use Rattle.address.specs.Here.{here};
ghost use Rattle.model.specs.Words.{blank_member};
ghost use Rattle.model.specs.Rows.{pad_to, remove_at};
ghost use Rattle.model.specs.Members as list;
ghost use Rattle.member.specs.Views.{to_member, from_member, nobody, view_members, pack_members, fresh_list, Held, Counted, standing_of, added_of, advanced_of, picked_of};

use address::Address;
use lamps::light;
use model::{Drew, Lamps, Refusal, State};
use order::{Exclusion, Order, Picks};

// What is held of a listed peer.
#[derive(Clone, Copy)]
pub struct Member {
    pub addr: Address,
    pub state: State,
    pub number: u64,
}

impl Member {
    // The record of an unused place.
    pub fn none() -> Member
        ensures { result ≡ nobody }
    {
        Member {
            addr: address::blank(),
            state: State::Alive,
            number: 0,
        }
    }
}

// The first len places of both rows are used: the records as they came in, and the order that they are probed in. The lamps count
// them by their states, the own address left out; whoever changes the list says which address that is.
#[derive(Clone, Copy)]
pub struct Members {
    pub table: [Member; Members::CAPACITY],
    pub len: usize,
    pub order: Order,
    pub lamps: Lamps,
}

// What a list says of an address: its place, its state and its number; or the length, Alive and 0 where it is not listed.
#[derive(Clone, Copy)]
pub struct Standing {
    pub listed: bool,
    pub place: usize,
    pub state: State,
    pub number: u64,
}

// The larger of two numbers.
pub fn greater(a: u64, b: u64) -> u64
    ensures { result ≡ max a b }
{
    if a < b { b } else { a }
}

// A place of the first n goes, and the rest closes up.
fn close_up(
    table: [Member; Members::CAPACITY],
    n: usize,
    place: usize,
) -> [Member; Members::CAPACITY]
    requires { (n ≤ 64) × (place < n) × (length table ≡ 64) }
    ensures { result ≡ pad_to 64 nobody (remove_at (take n table) place) }
{
    let mut out = [Member::none(); Members::CAPACITY];
    let mut i = 0;
    while i + 1 < n {
        if i < place {
            out[i] = table[i];
        } else {
            out[i] = table[i + 1];
        }
        i += 1;
    }
    out
}

// If position now equals the length, position - 1, but 0 on an emptied list.
fn position_after(position: usize, len: usize) -> usize
    ensures { result ≡ list.position_after here.same position len }
{
    if position != len {
        return position;
    }
    if len == 0 { 0 } else { len - 1 }
}

// What a rule that reads draws leaves. Where it is refused the members are as they came.
#[derive(Clone, Copy)]
pub struct Kept {
    pub members: Members,
    pub drew: Drew,
}

// What a pick leaves. Where it is refused the members are as they came, and nobody is picked.
#[derive(Clone, Copy)]
pub struct Picked {
    pub members: Members,
    pub picks: Picks,
    pub drew: Drew,
}

impl Members {
    // "The list has at most 64 listed addresses."
    pub const CAPACITY: usize = Order::CAPACITY;

    // The list of a fresh node: its own address, Alive, at place 0.
    pub fn new(own: Address, number: u64) -> Members
        ensures { result ≡ pack_members own (fresh_list own number) }
    {
        let mut table = [Member::none(); Members::CAPACITY];
        table[0] = Member {
            addr: own,
            state: State::Alive,
            number,
        };
        let mut row = [address::blank(); Members::CAPACITY];
        row[0] = own;
        Members {
            table,
            len: 1,
            order: Order { row, position: 0 },
            lamps: Lamps::none(),
        }
    }

    // How many are listed.
    pub fn len(self) -> usize
        requires { Held self }
        ensures value { result ≡ length (view_members self).table }
        ensures within { result ≤ 64 }
    {
        self.len
    }

    // Is nobody listed?
    pub fn is_empty(self) -> bool
        requires { Held self }
        ensures { result ≡ eqb (length (view_members self).table) 0 }
    {
        self.len == 0
    }

    // The record at a place of the list.
    pub fn member(self, place: usize) -> Member
        requires { Held self × (place < self.len) }
        ensures { result ≡ from_member (get_or (view_members self).table place (blank_member here)) }
    {
        let table = self.table;
        table[place]
    }

    // The one scan of the table that every lookup and every change of a record goes by.
    pub fn find(self, a: Address) -> Standing
        requires { Held self }
        ensures value { result ≡ standing_of self a }
        ensures within { result.place ≤ self.len }
    {
        let table = self.table;
        let n = self.len;
        let mut place = 0;
        while place < n {
            let m = table[place];
            if address::same(a, m.addr) {
                let state = m.state;
                return Standing {
                    listed: true,
                    place,
                    state,
                    number: m.number,
                };
            }
            place += 1;
        }
        Standing {
            listed: false,
            place: n,
            state: State::Alive,
            number: 0,
        }
    }

    // Is an address listed?
    pub fn lists(self, a: Address) -> bool
        requires { Held self }
        ensures { result ≡ list.listed here.same a (view_members self).table }
    {
        let held = self.find(a);
        held.listed
    }

    // The state of a listed address; Alive where it is not listed.
    pub fn member_state(self, a: Address) -> State
        requires { Held self }
        ensures { result ≡ list.held_state here.same a (view_members self).table }
    {
        let held = self.find(a);
        held.state
    }

    // The number of a listed address; 0 where it is not listed.
    pub fn member_number(self, a: Address) -> u64
        requires { Held self }
        ensures { result ≡ list.held here.same a (view_members self).table }
    {
        let held = self.find(a);
        held.number
    }

    // An address is added at the end of the table, Alive, and at draw mod (length + 1) of the order. That it is not listed is the caller's test.
    pub fn add_member(
        self,
        own: Address,
        a: Address,
        number: u64,
        draws: &[u64],
        from: usize,
    ) -> Kept
        requires { Held self × Counted own self × (from ≤ length draws.now) }
        ensures { result ≡ added_of own self a number draws.now from }
    {
        let n = self.len;
        if Members::CAPACITY <= n {
            return Kept {
                members: self,
                drew: Drew::Refused(Refusal::ListFull),
            };
        }
        if draws.len() <= from {
            return Kept {
                members: self,
                drew: Drew::Refused(Refusal::DrawsShort),
            };
        }
        let d = draws[from] % ((n + 1) as u64);
        let place = d as usize;
        let order = self.order;
        let row = order.row;
        let mut table = self.table;
        table[n] = Member {
            addr: a,
            state: State::Alive,
            number,
        };
        Kept {
            members: Members {
                table,
                len: n + 1,
                order: Order {
                    // The row by value, one place more.
                    row: order::insert(row, n, place, a),
                    position: order.position,
                },
                lamps: self.lamps.plus(light(own, a, State::Alive)),
            },
            drew: Drew::Used(1),
        }
    }

    // An address leaves the list and the order. One that is not listed leaves the members as they came.
    pub fn remove_member(self, own: Address, a: Address) -> Members
        requires { Held self × Counted own self }
        ensures { result ≡ pack_members own (list.remove here.same a (view_members self)) }
    {
        let n = self.len;
        let held = self.find(a);
        if held.place == n {
            return self;
        }
        let table = self.table;
        let order = self.order;
        let row = order.row;
        let at = order::find_place(row, n, a);
        let was = held.state;
        Members {
            table: close_up(table, n, held.place),
            len: n - 1,
            order: Order {
                // The row by value, one place less.
                row: order::remove(row, n, at),
                position: position_after(order.position, n - 1),
            },
            lamps: self.lamps.minus(light(own, a, was)),
        }
    }

    // A record at the place of its address: the larger of the held and the given number, and the given state. One that is not listed leaves the members as they came.
    fn put(self, own: Address, held: Standing, member: Member) -> Members
        requires { Held self × Counted own self × (held ≡ standing_of self member.addr) × (held.place ≤ self.len) }
        ensures { result ≡ pack_members own (list.update here.same (to_member member) (view_members self)) }
    {
        let n = self.len;
        let place = held.place;
        if place == n {
            return self;
        }
        let addr = member.addr;
        let state = member.state;
        let number = greater(held.number, member.number);
        let mut table = self.table;
        table[place] = Member {
            addr,
            state,
            number,
        };
        let order = self.order;
        let was = held.state;
        let others = self.lamps.minus(light(own, addr, was));
        Members {
            table,
            len: n,
            order,
            lamps: others.plus(light(own, addr, state)),
        }
    }

    // The record of a listed address is replaced, at the larger of the held and the given number.
    pub fn update_member(self, own: Address, member: Member) -> Members
        requires { Held self × Counted own self }
        ensures { result ≡ pack_members own (list.update here.same (to_member member) (view_members self)) }
    {
        let held = self.find(member.addr);
        self.put(own, held, member)
    }

    // The number of a listed address is raised, and its state stays.
    pub fn raise_number(self, own: Address, a: Address, number: u64) -> Members
        requires { Held self × Counted own self }
        ensures { result ≡ pack_members own (list.update here.same (record { addr = a; state = list.held_state here.same a (view_members self).table; number = number }) (view_members self)) }
    {
        let held = self.find(a);
        let state = held.state;
        self.put(
            own,
            held,
            Member {
                addr: a,
                state,
                number,
            },
        )
    }

    // Position + 1 mod length; on 0 the order is shuffled.
    pub fn advance(self, draws: &[u64], from: usize) -> Kept
        requires { Held self × (0 < self.len) × (from ≤ length draws.now) }
        ensures { result ≡ advanced_of self draws.now from }
    {
        let turned = order::advance(self.order, self.len, draws, from);
        let table = self.table;
        let order = turned.order;
        let drew = turned.drew;
        let lamps = self.lamps;
        Kept {
            members: Members {
                table,
                len: self.len,
                order,
                lamps,
            },
            drew,
        }
    }

    // Addresses to probe: as many as are wanted after the cap, own and the excluded one passed over. One peer may come twice.
    pub fn get_member_list(
        self,
        own: Address,
        exclusion: Exclusion,
        wanted: usize,
        draws: &[u64],
        from: usize,
    ) -> Picked
        requires { Held self × Counted own self × (wanted ≤ 4) × (from ≤ length draws.now) }
        ensures { result ≡ picked_of self own exclusion wanted draws.now from }
    {
        let picked = order::pick(self.order, self.len, own, exclusion, wanted, draws, from);
        let table = self.table;
        let order = picked.order;
        let picks = picked.picks;
        let drew = picked.drew;
        let lamps = self.lamps;
        Picked {
            members: Members {
                table,
                len: self.len,
                order,
                lamps,
            },
            picks,
            drew,
        }
    }
}

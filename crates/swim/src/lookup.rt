// What a list says: of an address, of a place, how many it lists, and how many in each state. A lookup changes nothing, so it hands no
// node back.
ghost use Rattle.std.specs.Prelude.{◌≡◌};
ghost use Rattle.swim.specs.Lookups.{look_up, how_many, member_at};

use address::Address;
use model::{Lamps, Refusal, State};
use node::Node;

// What is held of an address or at a place. A node that isn't sound is no proof that a peer has gone, so it gets a refusal.
#[derive(Clone, Copy)]
pub enum Lookup {
    NotListed,
    Listed {
        addr: Address,
        state: State,
        number: u64,
    },
    Refused(Refusal),
}

// How many addresses are listed.
#[derive(Clone, Copy)]
pub enum Tally {
    Listed(usize),
    Refused(Refusal),
}

// Is an address listed, in which state and at which number? 2, then 5.
pub fn look_up(node: Node, a: Address) -> Lookup
    ensures { result ≡ look_up node a }
{
    node::tests::has_rows(node);
    if !node::tests::sound(node) {
        return Lookup::Refused(Refusal::Unsound);
    }
    if !address::in_range(a) {
        return Lookup::Refused(Refusal::AddressRange);
    }
    let members = node.members;
    if !members.lists(a) {
        return Lookup::NotListed;
    }
    let state = members.member_state(a);
    let number = members.member_number(a);
    Lookup::Listed {
        addr: a,
        state,
        number,
    }
}

// How many addresses are listed? 2.
pub fn how_many(node: Node) -> Tally
    ensures { result ≡ how_many node }
{
    node::tests::has_rows(node);
    if !node::tests::sound(node) {
        return Tally::Refused(Refusal::Unsound);
    }
    let members = node.members;
    Tally::Listed(members.len())
}

// Who is listed at a place, counted from 0? 2; nobody at or past the count.
pub fn member_at(node: Node, place: usize) -> Lookup
    ensures { result ≡ member_at node place }
{
    node::tests::has_rows(node);
    if !node::tests::sound(node) {
        return Lookup::Refused(Refusal::Unsound);
    }
    let members = node.members;
    if members.len() <= place {
        return Lookup::NotListed;
    }
    let m = members.member(place);
    let state = m.state;
    let addr = m.addr;
    Lookup::Listed {
        addr,
        state,
        number: m.number,
    }
}

// How many peers are Alive, Pending and Suspected, the own address left out? The stored counts, untested, in constant time: of a node
// that a call handed back they are those of its list, and of any other they are whatever it holds.
pub fn lamps(node: Node) -> Lamps
    ensures { result ≡ node.members.lamps }
{
    let lamps = node.members.lamps;
    lamps
}

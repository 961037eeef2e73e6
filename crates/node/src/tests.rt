// Is a node that was handed in sound? Each part has its own clauses.
ghost use Rattle.std.specs.Prelude.{◌≡◌, length};
ghost use Rattle.address.specs.Here.{here};
ghost use Rattle.laws_node.specs.Good.{FullRows};
ghost use Rattle.model.specs.Sound as tests;
ghost use Rattle.node.specs.Views.{stored_view};

use crate::Node;
use address::Address;
use member::{Member, Members};
use model::{Kind, both};
use timers::{Timer, Timers};

pub fn sound(node: Node) -> bool
    ensures { result ≡ tests.sound here (stored_view node) }
{
    let settings = node.settings;
    let set = crate::settings::in_range(settings);
    let own = address::in_range(node.own);
    let members = node.members;
    let listed = member::sound::sound_members(members, node.own);
    let disseminator = node.disseminator;
    let alive = disseminator.alive;
    let living = heap::sound::heap_sound(alive, Kind::Alive, node.own);
    let deceased = disseminator.deceased;
    let dead = heap::sound::heap_sound(deceased, Kind::Deceased, node.own);
    let timers = node.timers;
    let running = timers::sound_timers(timers);
    let departed = node.departed;
    let gone = departed::sound::sound_departed(departed);
    both(
        both(
            both(both(both(both(set, own), listed), living), dead),
            running,
        ),
        gone,
    )
}

// An array has as many places as its type says. The prover finds this of an array that stands by itself, so each is handed over once.
fn has_table(table: [Member; Members::CAPACITY])
    ensures { length table ≡ 64 }
{}

fn has_order(order: [Address; Members::CAPACITY])
    ensures { length order ≡ 64 }
{}

fn has_timers(entries: [Timer; Timers::CAPACITY])
    ensures { length entries ≡ 16 }
{}

// Every row of a node is whole.
pub fn has_rows(node: Node)
    ensures { FullRows (stored_view node) }
{
    let members = node.members;
    let disseminator = node.disseminator;
    let alive = disseminator.alive;
    let deceased = disseminator.deceased;
    let timers = node.timers;
    let table = members.table;
    has_table(table);
    let order = members.order;
    let row = order.row;
    has_order(row);
    let living = alive.entries;
    heap::sound::has_entries(living);
    let dead = deceased.entries;
    heap::sound::has_entries(dead);
    let running = timers.entries;
    has_timers(running);
    let departed = node.departed;
    let gone = departed.entries;
    departed::sound::has_departed(gone);
}

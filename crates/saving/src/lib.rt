// Restart with the list we had: a node's list saved in bytes, and a node restored from them.
#![tactic(auto)]

ghost use Rattle.std.specs.Prelude.{◌≡◌, ◌≤◌};
ghost use Rattle.member.specs.Views.{Held};
ghost use Rattle.saving.specs.Views.{row_in_order, Saves, members_of, not_restored, set_up_of, restored_of};

use departed::DepartedRow;
use disseminate::Disseminator;
use image::{Loaded, Verdict, Written};
use member::{Member, Members};
use model::{Refusal, Reply, Settings};
use node::{Answer, Node};
use order::Order;
use timers::Timers;
use wait::Wait;

// How many bytes were written; or why none was.
#[derive(Clone, Copy)]
pub enum Saving {
    Whole(usize),
    Refused(Refusal),
}

// What a restart gives: how it ended, the node, and a fresh wait record.
#[derive(Clone, Copy)]
pub struct Restored {
    pub answer: Answer,
    pub wait: Wait,
}

// The records in probing order.
fn in_order(members: Members) -> [Member; 64]
    requires { Held members }
    ensures { result ≡ row_in_order members }
{
    let n = members.len();
    let order = members.order;
    let row = order.row;
    let mut out = [Member::none(); 64];
    let mut i: usize = 0;
    while i < n {
        let addr = row[i];
        let held = members.find(addr);
        let state = held.state;
        out[i] = Member {
            addr,
            state,
            number: held.number,
        };
        i += 1;
    }
    out
}

// The list of a node, saved: 2, then 12. Refused, nothing is written.
pub fn save(node: Node, out: &mut [u8]) -> Saving
    ensures { Saves node out.old result out.new }
{
    node::tests::has_rows(node);
    if !node::tests::sound(node) {
        return Saving::Refused(Refusal::Unsound);
    }
    let members = node.members;
    let order = members.order;
    let n = members.len();
    let rows = in_order(members);
    let written = image::write(out, node.own, rows, n, order.position);
    match written {
        Written::TooLong => Saving::Refused(Refusal::NoRoom),
        Written::Whole(length) => Saving::Whole(length),
    }
}

// The list of an image, in a node's rows, its lamps worked out.
fn members_of(loaded: Loaded) -> Members
    requires { loaded.len ≤ 64 }
    ensures { result ≡ members_of loaded }
{
    let table = loaded.table;
    let row = loaded.order;
    Members {
        table,
        len: loaded.len,
        order: Order {
            row,
            position: loaded.position,
        },
        lamps: member::lamps::lamps_of(table, loaded.len, loaded.own),
    }
}

// Refused, there is no node.
fn refused(refusal: Refusal, tick: u32) -> Restored
    ensures { result ≡ not_restored refusal tick }
{
    Restored {
        answer: Answer::refused(refusal, Node::none()),
        wait: Wait::new(tick),
    }
}

// An accepted list in a node with empty heaps, no timers and nobody departed, if the settings are in range.
fn set_up(loaded: Loaded, settings: Settings, tick: u32) -> Restored
    requires { loaded.len ≤ 64 }
    ensures { result ≡ set_up_of loaded settings tick }
{
    if !node::settings::in_range(settings) {
        return refused(Refusal::Setting, tick);
    }
    let own = loaded.own;
    let node = Node {
        settings,
        own,
        members: members_of(loaded),
        disseminator: Disseminator::new(),
        timers: Timers::new(),
        departed: DepartedRow::new(),
    };
    Restored {
        answer: Answer::plain(Reply::Done(0), node),
        wait: Wait::new(tick),
    }
}

// A node from a saved list: 14, 15, 16, then 1. Refused, there is no node: its place holds zeros.
pub fn restore(bytes: &[u8], settings: Settings, tick: u32) -> Restored
    ensures { result ≡ restored_of bytes.now settings tick }
{
    let loaded = image::load(bytes);
    let verdict = loaded.verdict;
    match verdict {
        Verdict::Accepted => set_up(loaded, settings, tick),
        Verdict::WrongMark => refused(Refusal::WrongMark, tick),
        Verdict::WrongLength => refused(Refusal::WrongLength, tick),
        Verdict::OutOfRule => refused(Refusal::OutOfRule, tick),
    }
}

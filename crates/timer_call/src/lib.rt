// The timer call: the earliest started timer that is over ends.
#![tactic(auto)]

ghost use Rattle.std.specs.Prelude.{◌≡◌, true, ◌≤◌, ◌<◌};
ghost use Rattle.address.specs.Here.{here};
ghost use Rattle.model.specs.declared.Fate.TheVariants as Fate;
ghost use Rattle.model.specs.Rows.{remove_at};
ghost use Rattle.model.specs.Node.{lists};
ghost use Rattle.model.specs.Detector as D;
ghost use Rattle.model.specs.Calls as calls;
ghost use Rattle.member.specs.Views.{Held, view_members};
ghost use Rattle.timers.specs.Views.{to_timer, timers_view, pack_timers};
ghost use Rattle.node.specs.Views.{stored_view, view_node, with_timers};
ghost use Rattle.node.specs.Rows.{Ready};
ghost use Rattle.timer_call.specs.Views.{ended_of, ended_by, end_plain};

use disseminate::{Disseminator, collect};
use member::Members;
use model::{Fate, Kind, Refusal, Reply};
use node::{Answer, Node};
use timers::{Ending, Timer};
use types::{Event, Gossip};

// What a timer call gives: its answer, and the event that it reported.
#[derive(Clone, Copy)]
pub struct Ended {
    pub reported: usize,
    pub events: [Gossip; Ended::EVENTS],
    pub answer: Answer,
}

impl Ended {
    // A timer call needs a row of so many places.
    pub const EVENTS: usize = 1;

    // Nothing reported.
    pub fn plain(reply: Reply, node: Node) -> Ended
        ensures { result ≡ end_plain reply node }
    {
        let nothing = Gossip {
            event: Event::Nothing,
        };
        let events = [nothing; Ended::EVENTS];
        Ended {
            answer: Answer::plain(reply, node),
            events,
            reported: 0,
        }
    }
}

// What becomes of a timer's address: it leaves if it is listed, not Alive, and its number is no greater than the timer's.
fn fate_of(members: Members, timer: Timer) -> Fate
    requires { Held members }
    ensures { result ≡ D.fate_of here (to_timer timer) (view_members members).table }
{
    let held = members.find(timer.addr);
    if !held.listed {
        return Fate::Absent;
    }
    let state = held.state;
    if model::is_alive(state) {
        return Fate::Stays;
    }
    if timer.number < held.number {
        return Fate::Stays;
    }
    Fate::Leaves
}

// The timer at a place ends, and nothing else: its place is reused.
fn only_end(node: Node, place: usize, reply: Reply) -> Ended
    requires { Ready node × (place < node.timers.len) }
    ensures { result ≡ end_plain reply (with_timers node (pack_timers (remove_at (timers_view node.timers) place))) }
{
    let timers = node.timers;
    let after = timers.end(place);
    Ended::plain(reply, node.with_timers(after))
}

// The timer at a place ends and its address leaves: Deceased is emitted at the timer's number, and outdates what is held of the living.
fn remove_at(node: Node, place: usize) -> Ended
    requires { Ready node × (place < node.timers.len) × (lists here (D.timer_at here place (view_node node)).addr (view_node node) ≡ true) }
    ensures { (result ≡ ended_by Fate.Leaves node place) × (result.reported ≤ 1) }
{
    let timers = node.timers;
    let entries = timers.entries;
    let timer = entries[place];
    let after = timers.end(place);
    let members = node.members;
    let left = members.remove_member(node.own, timer.addr);
    let gossip = Gossip {
        event: Event::new_node_deceased(node.own, timer.addr, timer.number),
    };
    let pushed = disseminate::grow(node.disseminator.deceased, gossip);
    if pushed.full {
        return Ended::plain(Reply::Refused(Refusal::DeceasedFull), node);
    }
    let settings = node.settings;
    let own = node.own;
    let held = node.disseminator.alive;
    let old = collect::old_news(settings.collect, held, Kind::Deceased, gossip);
    let alive = collect::clear(held, old, Kind::Deceased, gossip);
    let deceased = pushed.heap;
    let departed = node.departed.leave(members, timer.addr, timer.number);
    let said = Node {
        settings,
        own,
        members: left,
        disseminator: Disseminator { alive, deceased },
        timers: after,
        departed,
    };
    let events = [gossip; Ended::EVENTS];
    Ended {
        answer: Answer::silent(Reply::Done(0), said, old),
        events,
        reported: 1,
    }
}

// The timer at a place ends, by its address's fate.
fn end_at(node: Node, place: usize) -> Ended
    requires { Ready node × (place < node.timers.len) }
    ensures { (result ≡ ended_by (D.fate_at here place (view_node node)) node place) × (result.reported ≤ 1) }
{
    let timers = node.timers;
    let entries = timers.entries;
    let timer = entries[place];
    let fate = fate_of(node.members, timer);
    match fate {
        Fate::Leaves => remove_at(node, place),
        Fate::Stays => only_end(node, place, Reply::Refuted),
        Fate::Absent => only_end(node, place, Reply::Gone),
    }
}

// The timer call: 2, 3, not due, then the earliest started that is over ends.
pub fn end_timer(node: Node, tick: u32, gossip_room: usize, event_room: usize) -> Ended
    ensures { (result ≡ ended_of (calls.end_timer here (stored_view node) tick (record { gossip = gossip_room; events = event_room }))) × (result.reported ≤ event_room) × (result.reported ≤ 1) }
{
    node::tests::has_rows(node);
    if !node::tests::sound(node) {
        return Ended::plain(Reply::Refused(Refusal::Unsound), node);
    }
    if event_room < Ended::EVENTS {
        return Ended::plain(Reply::Refused(Refusal::ShortRow), node);
    }
    let settings = node.settings;
    let timers = node.timers;
    let entries = timers.entries;
    // Here now less start is a wrapping subtract of u32 ticks.
    let ending = timers::first_over(entries, timers.len, settings.suspect_timeout, tick);
    match ending {
        Ending::Nothing => Ended::plain(Reply::NotDue, node),
        Ending::At(place) => end_at(node, place),
    }
}

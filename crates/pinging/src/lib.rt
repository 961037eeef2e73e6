// Pings and ping requests: what is picked, changed and sent.
#![tactic(auto)]

ghost use Rattle.std.specs.Prelude.{◌≡◌, true, [], map, ◌+◌, ◌*◌, ◌≤◌, ◌<◌, length, take};
ghost use Rattle.address.specs.Here.{here};
ghost use Rattle.model.specs.declared.State.TheVariants.{Suspected};
ghost use Rattle.model.specs.Detector as D;
ghost use Rattle.model.specs.Calls as calls;
ghost use Rattle.types.specs.Views.{to_gossip};
ghost use Rattle.disseminate.specs.Fit.{most_chosen};
ghost use Rattle.node.specs.Views.{stored_view, view_node};
ghost use Rattle.node.specs.Rows.{Ready};
ghost use Rattle.wait.specs.Views.{to_wait, kept_of, Gives, PackedMail};
ghost use Rattle.pinging.specs.Views.{asked_one, asked_of, group_asked, suspicion_of};

use address::Address;
use disseminate::{Disseminator, collect};
use member::Member;
use model::{Drew, Refusal, Reply, State};
use node::Node;
use order::{Exclusion, Picks};
use types::{Action, Event, Gossip, Optional};
use wait::mail::Mail;
use wait::{Stepped, Wait, WaitState};

// An array has as many places as its type says. The prover finds this of an array that stands by itself, so it is handed over once.
fn has_picks(row: [Address; Picks::CAPACITY])
    ensures { length row ≡ 4 }
{}

// If one is picked: Ping, set Pending, wait for PingAck. If none: the gossip is spent but not written.
fn pinged(
    node: Node,
    picks: Picks,
    rows: [Gossip; 64],
    count: usize,
    used: usize,
    tick: u32,
) -> Stepped
    requires { Ready node × (picks.count ≤ 4) × (count ≤ most_chosen) }
    ensures { Gives (kept_of used (D.pinged here tick (map to_gossip (take count rows)) (view_node node) (take picks.count picks.row))) result }
{
    if picks.count == 0 {
        return Stepped::plain(Reply::Done(used), node, Wait::new(tick));
    }
    let row = picks.row;
    has_picks(row);
    let target = row[0];
    let members = node.members;
    let number = members.member_number(target);
    let mail = Mail::none();
    let ping = Action::new_ping(node.own, Optional::Absent);
    let sent = mail.post(target, ping, rows, count);
    let after = node.change(target, State::Pending, number);
    let wait = Wait {
        state: WaitState::WaitingForPingAck { target, number },
        since: tick,
    };
    let nothing = Gossip {
        event: Event::Nothing,
    };
    let events = [nothing; Stepped::EVENTS];
    Stepped::kept(used, after, sent, wait, events, 0, 0)
}

// SendingPing: gossip is chosen, then one peer is picked.
pub fn send_ping(node: Node, wait: Wait, tick: u32, draws: &[u64]) -> Stepped
    requires { Ready node }
    ensures { Gives (calls.step_of_kept here (stored_view node) (to_wait wait) draws.now (D.send_ping here tick (view_node node) draws.now)) result }
{
    let spread = node.spread();
    let chosen = spread.node;
    let rows = spread.rows;
    let members = node.members;
    let picked = members.get_member_list(node.own, Exclusion::Nobody, 1, draws, 0);
    let after = picked.members;
    let picks = picked.picks;
    let drew = picked.drew;
    match drew {
        Drew::Used(used) => {
            pinged(
                chosen.with_members(after),
                picks,
                rows,
                spread.count,
                used,
                tick,
            )
        }
        Drew::Refused(refusal) => Stepped::plain(Reply::Refused(refusal), node, wait),
    }
}

// A node, and what it sends to the group so far.
#[derive(Clone, Copy)]
pub struct Asked {
    pub node: Node,
    pub mail: Mail,
}

// One peer of the group is asked, with gossip chosen for it.
fn ask_one(node: Node, mail: Mail, target: Address, suspect: Address) -> Asked
    requires { Ready node × PackedMail mail × (mail.sent < 4) × (mail.written ≤ 3 * most_chosen) }
    ensures value { result ≡ asked_one node mail target suspect }
    ensures within { result.mail.written ≤ mail.written + most_chosen }
{
    let spread = node.spread();
    let chosen = spread.node;
    let rows = spread.rows;
    let ping_req = Action::new_ping_req(node.own, suspect);
    Asked {
        node: chosen,
        mail: mail.post(target, ping_req, rows, spread.count),
    }
}

// Each peer of the group is asked, in the order picked.
fn ask_each(node: Node, picks: Picks, suspect: Address) -> Asked
    requires { Ready node × (picks.count ≤ 4) }
    ensures value { result ≡ asked_of (D.ask_each here suspect (take picks.count picks.row) (view_node node) []) }
    ensures within { result.mail.written ≤ 4 * most_chosen }
{
    let row = picks.row;
    has_picks(row);
    let count = picks.count;
    let mut ahead = node;
    let mut mail = Mail::none();
    let mut i = 0;
    while i < count {
        let asked = ask_one(ahead, mail, row[i], suspect);
        ahead = asked.node;
        mail = asked.mail;
        i += 1;
    }
    Asked { node: ahead, mail }
}

// Of whom a suspicion is, at which number, and the gossip that reports it.
#[derive(Clone, Copy)]
pub struct Suspicion {
    pub target: Address,
    pub number: u64,
    pub gossip: Gossip,
}

// The group is asked about a suspect, and the answer waited for. `collected` events went when the suspicion came.
fn ask_group(
    node: Node,
    picks: Picks,
    s: Suspicion,
    collected: usize,
    used: usize,
    tick: u32,
) -> Stepped
    requires { Ready node × (picks.count ≤ 4) }
    ensures { Gives (kept_of used (group_asked s.target s.number tick (to_gossip s.gossip) collected (D.ask_each here s.target (take picks.count picks.row) (view_node node) []))) result }
{
    let target = s.target;
    let number = s.number;
    let asked = ask_each(node, picks, target);
    let after = asked.node;
    let mail = asked.mail;
    let wait = Wait {
        state: WaitState::WaitingForPingReqAck { target, number },
        since: tick,
    };
    let suspected = s.gossip;
    let events = [suspected; Stepped::EVENTS];
    Stepped::kept(used, after, mail, wait, events, 1, collected)
}

// The record of a suspect.
fn suspect(addr: Address, number: u64) -> Member
    ensures { result ≡ record { addr = addr; state = Suspected; number = number } }
{
    Member {
        addr,
        state: State::Suspected,
        number,
    }
}

// What is said of a suspect.
fn suspicion_of(own: Address, target: Address, number: u64) -> Suspicion
    ensures { result ≡ suspicion_of own target number }
{
    Suspicion {
        target,
        number,
        gossip: Gossip {
            event: Event::new_node_suspected(own, target, number),
        },
    }
}

// SendingPingReq: Suspected at the remembered number, emitted even if absent (9), then the group is picked without the suspect (8) and asked.
pub fn send_ping_req(
    node: Node,
    wait: Wait,
    target: Address,
    number: u64,
    tick: u32,
    draws: &[u64],
) -> Stepped
    requires { Ready node × (here.valid target ≡ true) }
    ensures { Gives (calls.step_of_kept here (stored_view node) (to_wait wait) draws.now (D.send_ping_req here target number tick (view_node node) draws.now)) result }
{
    let own = node.own;
    let members = node.members;
    let changed = members.update_member(own, suspect(target, number));
    let suspected = suspicion_of(own, target, number);
    let settings = node.settings;
    let pushed = collect::renew(node.disseminator.alive, settings.collect, suspected.gossip);
    if pushed.grown.full {
        return Stepped::plain(Reply::Refused(Refusal::AliveFull), node, wait);
    }
    let wanted = settings.ping_req_group_size;
    let picked = changed.get_member_list(own, Exclusion::Peer(target), wanted, draws, 0);
    let after = picked.members;
    let picks = picked.picks;
    let drew = picked.drew;
    match drew {
        Drew::Used(used) => {
            let timers = node.timers;
            let departed = node.departed;
            let alive = pushed.grown.heap;
            let deceased = node.disseminator.deceased;
            let turned = Node {
                settings,
                own,
                members: after,
                disseminator: Disseminator { alive, deceased },
                timers,
                departed,
            };
            ask_group(turned, picks, suspected, pushed.collected, used, tick)
        }
        Drew::Refused(missed) => Stepped::plain(Reply::Refused(missed), node, wait),
    }
}

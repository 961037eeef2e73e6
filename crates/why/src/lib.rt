// Why an event was decided as it was: the judge's verdict in support's words, or the refusal that the handler would give. It changes nothing.
#![tactic(auto)]

ghost use Rattle.std.specs.Prelude.{◌≡◌};
ghost use Rattle.address.specs.Here.{here};
ghost use Rattle.model.specs.Answers.{full_of};
ghost use Rattle.types.specs.Views.{to_gossip, to_event, to_parts};
ghost use Rattle.member.specs.Views.{view_members, Held};
ghost use Rattle.node.specs.Views.{view_node, stored_view};
ghost use Rattle.node.specs.Rows.{Ready};
ghost use Rattle.rules.specs.Views.{to_verdict, to_news};
ghost use Rattle.why.specs.Why as M;
ghost use Rattle.why.specs.Stopped.{add_stop, list_stop, heap_stop, stop_of, parts_grounds};

use address::Address;
use disseminate::Found;
use heap::Heap;
use member::Members;
use model::{Kind, Refusal};
use node::Node;
use rules::{News, Verdict};
use types::{Gossip, Parts};

// Which rule decides an event. None comes first: a record of no event is skipped.
#[derive(Clone, Copy)]
pub enum Reason {
    None,
    Own,
    Unknown,
    Equal,
    Low,
    Raised,
    Accepted,
}

// The reason, with the held number, the event's own number and D, each where it exists; or the refusal.
#[derive(Clone, Copy)]
pub enum Grounds {
    Because {
        reason: Reason,
        held: Found,
        number: Found,
        dead: Found,
    },
    Refused(Refusal),
}

// What stops a verdict that is carried out, if anything does.
#[derive(Clone, Copy)]
pub enum Stop {
    Nothing,
    By(Refusal),
}

// An accepted event is kept at its own number, or at a greater one that a held death asks for.
fn at_number(own_number: u64, kept: u64) -> Reason
    ensures { result ≡ M.at_number own_number kept }
{
    if own_number < kept {
        return Reason::Raised;
    }
    Reason::Accepted
}

// The verdict on an event of a number, as a reason.
fn reason_of(verdict: Verdict, number: u64) -> Reason
    ensures { result ≡ M.reason_of (to_verdict verdict) number }
{
    match verdict {
        Verdict::Skip => Reason::None,
        Verdict::Unknown => Reason::Unknown,
        Verdict::Equal => Reason::Equal,
        Verdict::Low => Reason::Low,
        Verdict::AtEnd => Reason::None,
        Verdict::Refute(_) => Reason::Own,
        Verdict::Enter {
            addr: _,
            number: kept,
        } => at_number(number, kept),
        Verdict::Raise {
            addr: _,
            number: kept,
        } => at_number(number, kept),
        Verdict::Recover { addr: _, number: _ } => Reason::Accepted,
        Verdict::Suspect { addr: _, number: _ } => Reason::Accepted,
        Verdict::Bury { addr: _, number: _ } => Reason::Accepted,
    }
}

// An address is added: 7, then 8.
fn add_stop(listed: usize, draws: usize) -> Stop
    ensures { result ≡ add_stop listed draws }
{
    if Members::CAPACITY <= listed {
        return Stop::By(Refusal::ListFull);
    }
    if draws == 0 {
        return Stop::By(Refusal::DrawsShort);
    }
    Stop::Nothing
}

// What the list says to a verdict, by how many it lists and how many draws are lent: 6, 7, 8.
fn list_stop(verdict: Verdict, listed: usize, draws: usize) -> Stop
    ensures { result ≡ list_stop (to_verdict verdict) listed draws }
{
    match verdict {
        Verdict::Skip => Stop::Nothing,
        Verdict::Unknown => Stop::Nothing,
        Verdict::Equal => Stop::Nothing,
        Verdict::Low => Stop::Nothing,
        Verdict::AtEnd => Stop::By(Refusal::NumberEnd),
        Verdict::Refute(_) => Stop::Nothing,
        Verdict::Enter { addr: _, number: _ } => add_stop(listed, draws),
        Verdict::Raise { addr: _, number: _ } => Stop::Nothing,
        Verdict::Recover { addr: _, number: _ } => Stop::Nothing,
        Verdict::Suspect { addr: _, number: _ } => Stop::Nothing,
        Verdict::Bury { addr: _, number: _ } => Stop::Nothing,
    }
}

// The refusal of a full heap: 9 of the alive heap, 13 of the deceased.
fn full_of(kind: Kind) -> Refusal
    ensures { result ≡ full_of kind }
{
    match kind {
        Kind::Alive => Refusal::AliveFull,
        Kind::Deceased => Refusal::DeceasedFull,
    }
}

// What the heaps say to news, by how many entries they hold: 9 or 13.
fn heap_stop(news: News, alive: usize, deceased: usize) -> Stop
    ensures { result ≡ heap_stop (to_news news) alive deceased }
{
    match news {
        News::Silent => Stop::Nothing,
        News::Emits { kind, event: _ } => {
            if Heap::CAPACITY <= disseminate::of_kind(kind, alive, deceased) {
                return Stop::By(full_of(kind));
            }
            Stop::Nothing
        },
    }
}

// What stops a verdict: the list first, then the heap that its news goes to, where what it outdates makes room. Nothing is added and nothing is pushed to find out.
fn stop_of(node: Node, verdict: Verdict, draws: usize) -> Stop
    requires { Ready node }
    ensures { result ≡ stop_of (view_node node) (to_verdict verdict) draws }
{
    let members = node.members;
    let listed = list_stop(verdict, members.len, draws);
    match listed {
        Stop::By(refusal) => Stop::By(refusal),
        Stop::Nothing => {
            let news = rules::news_of(verdict, node.own);
            let alive = node.disseminator.alive;
            let old = rules::old_news(node.settings.collect, alive, news);
            heap_stop(news, alive.len - old, node.disseminator.deceased.len)
        },
    }
}

// The number that an address is held at, if it is listed.
fn held_number(members: Members, a: Address) -> Found
    requires { Held members }
    ensures { result ≡ M.held_number here a (view_members members).table }
{
    let held = members.find(a);
    if held.listed {
        return Found::At(held.number);
    }
    Found::Missing
}

// The reason with its numbers. A record of no event has none.
fn because(members: Members, parts: Parts, dead: Found, verdict: Verdict) -> Grounds
    requires { Held members }
    ensures { result ≡ parts_grounds (view_members members).table (to_parts parts) dead (to_verdict verdict) }
{
    let reason = reason_of(verdict, parts.number);
    if parts.kind == 0 {
        return Grounds::Because {
            reason,
            held: Found::Missing,
            number: Found::Missing,
            dead: Found::Missing,
        };
    }
    Grounds::Because {
        reason,
        held: held_number(members, parts.subject),
        number: Found::At(parts.number),
        dead,
    }
}

// An event by the judge that the handler goes by. D is read for every kind of event, since it is told for every kind.
fn weigh(node: Node, draws: &[u64], g: Gossip) -> Grounds
    requires { Ready node }
    ensures { result ≡ M.weigh here (to_event g.event) (view_node node) draws.now }
{
    let event = g.event;
    let parts = types::parts_of(event);
    let members = node.members;
    let dead = departed::death_of(
        node.settings.remember,
        node.departed,
        node.disseminator.deceased,
        parts.subject,
    );
    let verdict = rules::judge(members, node.own, dead, event);
    let stop = stop_of(node, verdict, draws.len());
    match stop {
        Stop::By(refusal) => Grounds::Refused(refusal),
        Stop::Nothing => because(members, parts, dead, verdict),
    }
}

// Which rule decides a gossip record on this node with these draws: 2, 5, then the refusal that the handler would give, then the reason.
pub fn why(node: Node, draws: &[u64], g: Gossip) -> Grounds
    ensures { result ≡ M.why here (stored_view node) (to_gossip g) draws.now }
{
    node::tests::has_rows(node);
    if !node::tests::sound(node) {
        return Grounds::Refused(Refusal::Unsound);
    }
    if !types::valid_gossip(g) {
        return Grounds::Refused(Refusal::AddressRange);
    }
    weigh(node, draws, g)
}

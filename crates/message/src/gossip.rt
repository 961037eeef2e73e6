// The gossip records of a message and its sender, one after the other, and what they report.
ghost use Rattle.std.specs.Prelude.{◌≡◌, true, ◌≤◌, ◌<◌, replicate};
ghost use Rattle.address.specs.Here.{here};
ghost use Rattle.model.specs.declared.Drew.TheVariants.{Used};
ghost use Rattle.model.specs.declared.Cause.TheVariants.{Sender};
ghost use Rattle.model.specs.Node as M;
ghost use Rattle.model.specs.Handler as handler;
ghost use Rattle.model.specs.Calls as calls;
ghost use Rattle.types.specs.Views.{to_event, to_optional, no_gossip};
ghost use Rattle.heap.specs.Views.{heap_view, Packed};
ghost use Rattle.member.specs.Views.{view_members, Held};
ghost use Rattle.disseminate.specs.Views.{from_found};
ghost use Rattle.departed.specs.Views as gone;
ghost use Rattle.node.specs.Views.{view_node, with_lists, with_disseminator};
ghost use Rattle.node.specs.Rows.{Ready};
ghost use Rattle.rules.specs.Views.{from_verdict, to_verdict, to_news};
ghost use Rattle.message.specs.Views.{records_of, Heeded, sender_rule, verdict_at, deaths_of, death_for, cleared_for, leaves_all, goes_to, finds_full, RoomFor, told_to, noted, full_for, refused_heard, heard_of};

use address::Address;
use departed::DepartedRow;
use disseminate::{Disseminator, Found, collect};
use heap::Heap;
use member::Members;
use model::{Cause, Drew, Kind, Refusal};
use node::Node;
use rules::{News, Verdict};
use types::{Event, Gossip, Optional};

// What a message brings: its records, and the sender if it is to come in.
#[derive(Clone, Copy)]
pub struct Lent {
    pub rows: [Gossip; 64],
    pub given: usize,
    pub sender: Optional,
}

// What was heard: the node, the events to report and the draws used. Where a rule was refused, the node as it came and whose rule it was.
#[derive(Clone, Copy)]
pub struct Heard {
    pub node: Node,
    pub events: [Gossip; Heard::EVENTS],
    pub reported: usize,
    // How many held events were collected.
    pub collected: usize,
    pub drew: Drew,
    // The sender, where no rule was refused.
    pub at: Cause,
}

impl Heard {
    // One for each of 64 records, and one for the sender.
    pub const EVENTS: usize = 65;
}

// No events yet.
pub fn no_events() -> [Gossip; Heard::EVENTS]
    ensures { result ≡ replicate 65 no_gossip }
{
    let nothing = Gossip {
        event: Event::Nothing,
    };
    [nothing; Heard::EVENTS]
}

// D of the address that joined. No other event is judged by it, so row and heap are read for this one alone.
fn death_of(on: bool, departed: DepartedRow, deceased: Heap, event: Event) -> Found
    requires { gone.Packed departed × Packed deceased }
    ensures { result ≡ from_found (death_for (to_event event) (deaths_of on departed deceased)) }
{
    match event {
        Event::Joined {
            from: _,
            subject,
            number: _,
        } => departed::death_of(on, departed, deceased, subject),
        _ => Found::Missing,
    }
}

// The verdict whose turn it is: on the records in their order, and behind them on the sender.
fn verdict_at(
    members: Members,
    own: Address,
    on: bool,
    departed: DepartedRow,
    deceased: Heap,
    lent: Lent,
    i: usize,
) -> Verdict
    requires { Held members × gone.Packed departed × Packed deceased × Heeded lent.rows lent.given }
    ensures { result ≡ from_verdict (verdict_at own (view_members members).table (deaths_of on departed deceased) (records_of lent.rows lent.given) (to_optional lent.sender) i) }
{
    if i < lent.given {
        let rows = lent.rows;
        let g = rows[i];
        let event = g.event;
        return rules::judge(members, own, death_of(on, departed, deceased, event), event);
    }
    let sender = lent.sender;
    match sender {
        Optional::Absent => Verdict::Skip,
        Optional::Given(a) => {
            if members.lists(a) {
                return Verdict::Skip;
            }
            let dead = departed::death_of(on, departed, deceased, a);
            rules::judge_sender(members, dead, a)
        },
    }
}

// Does a verdict leave list, departed and heaps as they are, and say nothing? Such a record is passed over, so that none of them is copied for old news.
fn leaves_all(verdict: Verdict) -> bool
    ensures { result ≡ leaves_all (to_verdict verdict) }
{
    match verdict {
        Verdict::Skip => true,
        Verdict::Unknown => true,
        Verdict::Equal => true,
        Verdict::Low => true,
        Verdict::AtEnd => false,
        Verdict::Refute(_) => false,
        Verdict::Enter { addr: _, number: _ } => false,
        Verdict::Raise { addr: _, number: _ } => false,
        Verdict::Recover { addr: _, number: _ } => false,
        Verdict::Suspect { addr: _, number: _ } => false,
        Verdict::Bury { addr: _, number: _ } => false,
    }
}

// The alive heap without the events that news outdates, `old` of them.
fn clear(alive: Heap, old: usize, news: News) -> Heap
    requires { Packed alive }
    ensures { result ≡ cleared_for old (to_news news) alive }
{
    match news {
        News::Silent => alive,
        News::Emits { kind, event } => collect::clear(alive, old, kind, Gossip { event }),
    }
}

// Is the heap full that news goes to? `alive` and `deceased` are how many entries they hold.
fn finds_full(news: News, alive: usize, deceased: usize) -> bool
    ensures { result ≡ finds_full (to_news news) alive deceased }
{
    match news {
        News::Silent => false,
        News::Emits { kind, event: _ } => Heap::CAPACITY
            <= disseminate::of_kind(kind, alive, deceased),
    }
}

// Does news go to the heap of a kind?
fn goes_to(news: News, kind: Kind) -> bool
    ensures { result ≡ goes_to kind (to_news news) }
{
    match news {
        News::Silent => false,
        News::Emits { kind: to, event: _ } => disseminate::same_kind(to, kind),
    }
}

// The heap of a kind with the news that goes to it, or as it came. One heap at a time, since both would be copied where one changes.
fn tell(heap: Heap, kind: Kind, news: News) -> Heap
    requires { Packed heap × RoomFor kind (to_news news) heap.len }
    ensures { result ≡ told_to kind (to_news news) heap }
{
    match news {
        News::Silent => heap,
        News::Emits { kind: to, event } => {
            if disseminate::same_kind(to, kind) {
                heap.push(disseminate::entry_of(Gossip { event }))
            } else {
                heap
            }
        },
    }
}

// The events so far, and how many held ones were collected.
#[derive(Clone, Copy)]
pub struct Report {
    pub events: [Gossip; Heard::EVENTS],
    pub count: usize,
    pub collected: usize,
}

// No news yet.
fn no_report() -> Report
    ensures { result ≡ record { events = replicate 65 no_gossip; count = 0; collected = 0 } }
{
    Report {
        events: no_events(),
        count: 0,
        collected: 0,
    }
}

// News stands behind the other events, and so many were collected for it.
fn note(report: Report, news: News, old: usize) -> Report
    requires { (report.count < 65) × (report.collected ≤ 8192) × (old ≤ 128) }
    ensures { result ≡ noted report (to_news news) old }
{
    match news {
        News::Silent => report,
        News::Emits { kind: _, event } => {
            let at = report.count;
            let mut events = report.events;
            events[at] = Gossip { event };
            Report {
                events,
                count: at + 1,
                collected: report.collected + old,
            }
        },
    }
}

// Whose turn it is: a record's, or behind them the sender's.
fn cause_at(i: usize, given: usize) -> Cause
    ensures { result ≡ handler.cause_at i given }
{
    if i < given {
        return Cause::Record(i);
    }
    Cause::Sender
}

// A rule was refused, as it was the turn of a record or, behind them, of the sender.
fn refused(node: Node, refusal: Refusal, i: usize, given: usize) -> Heard
    ensures { result ≡ refused_heard node refusal (handler.cause_at i given) }
{
    Heard {
        node,
        events: no_events(),
        reported: 0,
        collected: 0,
        drew: Drew::Refused(refusal),
        at: cause_at(i, given),
    }
}

// All were heard: the node with its list, the departed and the heaps after them, and what they reported.
fn all_heard(
    node: Node,
    members: Members,
    departed: DepartedRow,
    alive: Heap,
    deceased: Heap,
    report: Report,
    used: usize,
) -> Heard
    ensures { result ≡ record { node = with_disseminator (with_lists node members departed) (record { alive = alive; deceased = deceased }); events = report.events; reported = report.count; collected = report.collected; drew = Used used; at = Sender } }
{
    let settings = node.settings;
    let own = node.own;
    let timers = node.timers;
    let events = report.events;
    Heard {
        node: Node {
            settings,
            own,
            members,
            disseminator: Disseminator { alive, deceased },
            timers,
            departed,
        },
        events,
        reported: report.count,
        collected: report.collected,
        drew: Drew::Used(used),
        at: Cause::Sender,
    }
}

// The refusal of news that finds its heap full: 9 of the alive heap, 13 of the deceased.
fn full_heap(news: News) -> Refusal
    ensures { result ≡ full_for (to_news news) }
{
    match news {
        News::Silent => Refusal::AliveFull,
        News::Emits { kind, event: _ } => match kind {
            Kind::Alive => Refusal::AliveFull,
            Kind::Deceased => Refusal::DeceasedFull,
        },
    }
}

// The records in their order and then the sender: each is judged, the list changes, and the news is pushed and reported. A heap and the departed are handed on only where they change, since each is copied.
pub fn handle_gossip(node: Node, lent: Lent, draws: &[u64]) -> Heard
    requires { Ready node × Heeded lent.rows lent.given × (calls.valid_option here (to_optional lent.sender) ≡ true) }
    ensures { result ≡ heard_of node draws.now (handler.stops_at here (records_of lent.rows lent.given) (view_node node) draws.now) (M.and_more (handler.gossip here (records_of lent.rows lent.given) (view_node node) draws.now) (sender_rule (to_optional lent.sender))) }
{
    let on = node.settings.remember;
    let mut members = node.members;
    let mut departed = node.departed;
    let mut alive = node.disseminator.alive;
    let mut deceased = node.disseminator.deceased;
    let mut report = no_report();
    let mut used = 0;
    let mut i = 0;
    while i <= lent.given {
        let verdict = verdict_at(members, node.own, on, departed, deceased, lent, i);
        if leaves_all(verdict) {
            i += 1;
            continue;
        }
        let kept = rules::list_after(members, node.own, verdict, draws, used);
        let drew = kept.drew;
        match drew {
            Drew::Used(more) => used += more,
            Drew::Refused(refusal) => return refused(node, refusal, i, lent.given),
        }
        let news = rules::news_of(verdict, node.own);
        let old = rules::old_news(node.settings.collect, alive, news);
        if finds_full(news, alive.len - old, deceased.len) {
            return refused(node, full_heap(news), i, lent.given);
        }
        if old > 0 {
            alive = clear(alive, old, news);
        }
        if goes_to(news, Kind::Alive) {
            alive = tell(alive, Kind::Alive, news);
        } else {
            departed = rules::row_after(departed, members, verdict);
            deceased = tell(deceased, Kind::Deceased, news);
        }
        members = kept.members;
        report = note(report, news, old);
        i += 1;
    }
    all_heard(node, members, departed, alive, deceased, report, used)
}

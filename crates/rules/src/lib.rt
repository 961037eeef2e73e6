// The rules of an event: the verdict on it, what that does to the list, and what is said of it.
#![tactic(auto)]

ghost use Rattle.std.specs.Prelude.{◌≡◌, ◌&&◌, not, ◌≤◌, length, eqb};
ghost use Rattle.address.specs.Here.{here};
ghost use Rattle.model.specs.Rows as rows;
ghost use Rattle.model.specs.Words.{is_alive};
ghost use Rattle.model.specs.Node.{one_added, death_plus_one};
ghost use Rattle.model.specs.Members as list;
ghost use Rattle.model.specs.Handler as handler;
ghost use Rattle.types.specs.Views.{to_event};
ghost use Rattle.heap.specs.Views.{heap_view, Packed};
ghost use Rattle.disseminate.specs.Views.{from_found};
ghost use Rattle.member.specs.Views.{view_members, pack_members, Held, Counted};
ghost use Rattle.departed.specs.Views as gone;
ghost use Rattle.rules.specs.Views.{to_found, from_verdict, to_verdict, from_news, to_news, collects_for, stayed, list_after_of};

use address::Address;
use departed::DepartedRow;
use disseminate::{Found, collect};
use heap::Heap;
use member::{Kept, Member, Members};
use model::{Drew, Kind, Refusal, State};
use types::{Event, Gossip};

// What an event comes to. Nothing happens: there is none, the address is unknown, a suspicion's number equals that of a peer that isn't Alive, or the number is not high enough.
// Or a number plus one is needed and there is none. Or the own address refutes a suspicion; an address comes in; a listed one is raised, recovers, is suspected or dies.
#[derive(Clone, Copy)]
pub enum Verdict {
    Skip,
    Unknown,
    Equal,
    Low,
    AtEnd,
    Refute(u64),
    Enter { addr: Address, number: u64 },
    Raise { addr: Address, number: u64 },
    Recover { addr: Address, number: u64 },
    Suspect { addr: Address, number: u64 },
    Bury { addr: Address, number: u64 },
}

// An event that is emitted, and the heap that it goes to.
#[derive(Clone, Copy)]
pub enum News {
    Silent,
    Emits { kind: Kind, event: Event },
}

// The verdict on a listed address by a test of its record, or that on one that is not listed. All are at hand, so that a rule has one way out.
fn weighed(listed: bool, passes: bool, passed: Verdict, failed: Verdict, absent: Verdict) -> Verdict
    ensures { result ≡ rows.pick listed (rows.pick passes passed failed) absent }
{
    if listed {
        if passes { passed } else { failed }
    } else {
        absent
    }
}

fn plus_one(number: u64) -> Found
    ensures { result ≡ from_found (one_added number) }
{
    if number == u64::MAX {
        return Found::Missing;
    }
    Found::At(number + 1)
}

// D + 1 or 0, if there is one.
fn death_plus_one(dead: Found) -> Found
    ensures { result ≡ from_found (death_plus_one (to_found dead)) }
{
    match dead {
        Found::Missing => Found::At(0),
        Found::At(number) => plus_one(number),
    }
}

// Joined at its number. Listed: if greater, raise it and keep the state; else nothing. Absent: add.
fn joined_at(members: Members, a: Address, number: u64) -> Verdict
    requires { Held members }
    ensures { result ≡ from_verdict (handler.joined_at here a number (view_members members).table) }
{
    let held = members.find(a);
    let higher = held.number < number;
    let raised = Verdict::Raise { addr: a, number };
    weighed(
        held.listed,
        higher,
        raised,
        Verdict::Low,
        Verdict::Enter { addr: a, number },
    )
}

// Joined: number = max(D + 1 or 0, joined).
fn joined(members: Members, dead: Found, a: Address, number: u64) -> Verdict
    requires { Held members }
    ensures { result ≡ from_verdict (handler.joined here (to_found dead) a number (view_members members).table) }
{
    let next = death_plus_one(dead);
    match next {
        Found::Missing => Verdict::AtEnd,
        Found::At(least) => joined_at(members, a, member::greater(least, number)),
    }
}

// Recovered: listed and greater: Alive, emit.
fn recovered(members: Members, a: Address, number: u64) -> Verdict
    requires { Held members }
    ensures { result ≡ from_verdict (handler.recovered here a number (view_members members).table) }
{
    let held = members.find(a);
    let higher = held.number < number;
    let back = Verdict::Recover { addr: a, number };
    weighed(held.listed, higher, back, Verdict::Low, Verdict::Unknown)
}

// if Alive and ≥, or not Alive and >
fn believed(state: State, held: u64, number: u64) -> bool
    ensures { result ≡ handler.believed state held number }
{
    if model::is_alive(state) {
        held <= number
    } else {
        held < number
    }
}

// A number that is not believed is equal to that of a peer that isn't Alive, or too low.
fn doubted(state: State, held: u64, number: u64) -> Verdict
    ensures { result ≡ rows.pick (not (is_alive state) && eqb number held) Verdict.Equal Verdict.Low }
{
    if model::is_alive(state) {
        return Verdict::Low;
    }
    if number == held {
        return Verdict::Equal;
    }
    Verdict::Low
}

// Suspected of another: listed and believed: set Suspected, emit.
fn suspected_other(members: Members, a: Address, number: u64) -> Verdict
    requires { Held members }
    ensures { result ≡ from_verdict (handler.suspected_other here a number (view_members members).table) }
{
    let held = members.find(a);
    let state = held.state;
    weighed(
        held.listed,
        believed(state, held.number, number),
        Verdict::Suspect { addr: a, number },
        doubted(state, held.number, number),
        Verdict::Unknown,
    )
}

// The own address is suspected: emit Recovered with number + 1; own record unmoved.
fn refuted(number: u64) -> Verdict
    ensures { result ≡ from_verdict (handler.or_end (one_added number) handler.Refute) }
{
    let next = plus_one(number);
    match next {
        Found::Missing => Verdict::AtEnd,
        Found::At(more) => Verdict::Refute(more),
    }
}

// Suspected, of the own address or of another.
fn suspected(members: Members, own: Address, a: Address, number: u64) -> Verdict
    requires { Held members }
    ensures { result ≡ from_verdict (handler.suspected here own a number (view_members members).table) }
{
    if address::same(own, a) {
        return refuted(number);
    }
    suspected_other(members, a, number)
}

// Deceased: listed and ≥: remove, emit to the deceased heap. The own address is no exception.
fn deceased(members: Members, a: Address, number: u64) -> Verdict
    requires { Held members }
    ensures { result ≡ from_verdict (handler.deceased here a number (view_members members).table) }
{
    let held = members.find(a);
    let reaches = held.number <= number;
    let gone = Verdict::Bury { addr: a, number };
    weighed(held.listed, reaches, gone, Verdict::Low, Verdict::Unknown)
}

// The verdict on an event, by the list, the own address and D of the address that it is about. No event is skipped.
pub fn judge(members: Members, own: Address, dead: Found, event: Event) -> Verdict
    requires { Held members }
    ensures { result ≡ from_verdict (handler.judge here own (view_members members).table (to_found dead) (to_event event)) }
{
    match event {
        Event::Nothing => Verdict::Skip,
        Event::Joined {
            from: _,
            subject,
            number,
        } => joined(members, dead, subject, number),
        Event::Recovered {
            from: _,
            subject,
            number,
        } => recovered(members, subject, number),
        Event::Suspected {
            from: _,
            subject,
            number,
        } => suspected(members, own, subject, number),
        Event::Deceased {
            from: _,
            subject,
            number,
        } => deceased(members, subject, number),
    }
}

// A Ping's sender: not listed, it is added with D + 1 or 0.
pub fn judge_sender(members: Members, dead: Found, a: Address) -> Verdict
    requires { Held members }
    ensures { result ≡ from_verdict (handler.judge_sender here (view_members members).table (to_found dead) a) }
{
    if members.lists(a) {
        return Verdict::Skip;
    }
    let next = death_plus_one(dead);
    match next {
        Found::Missing => Verdict::AtEnd,
        Found::At(number) => Verdict::Enter { addr: a, number },
    }
}

// No draw was needed.
fn kept(members: Members) -> Kept
    ensures { result ≡ stayed members }
{
    Kept {
        members,
        drew: Drew::Used(0),
    }
}

// The record of a listed address is replaced.
fn set(members: Members, own: Address, addr: Address, state: State, number: u64) -> Kept
    requires { Held members × Counted own members }
    ensures { result ≡ stayed (pack_members own (list.update here.same (record { addr = addr; state = state; number = number }) (view_members members))) }
{
    kept(members.update_member(
        own,
        Member {
            addr,
            state,
            number,
        },
    ))
}

// The list after a verdict: refusals 6, 7 and 8.
pub fn list_after(
    members: Members,
    own: Address,
    verdict: Verdict,
    draws: &[u64],
    from: usize,
) -> Kept
    requires { Held members × Counted own members × (from ≤ length draws.now) }
    ensures { result ≡ list_after_of own members (to_verdict verdict) draws.now from }
{
    match verdict {
        Verdict::Skip => kept(members),
        Verdict::Unknown => kept(members),
        Verdict::Equal => kept(members),
        Verdict::Low => kept(members),
        Verdict::AtEnd => Kept {
            members,
            drew: Drew::Refused(Refusal::NumberEnd),
        },
        Verdict::Refute(_) => kept(members),
        Verdict::Enter { addr, number } => members.add_member(own, addr, number, draws, from),
        Verdict::Raise { addr, number } => kept(members.raise_number(own, addr, number)),
        Verdict::Recover { addr, number } => set(members, own, addr, State::Alive, number),
        Verdict::Suspect { addr, number } => set(members, own, addr, State::Suspected, number),
        Verdict::Bury { addr, number: _ } => kept(members.remove_member(own, addr)),
    }
}

// The row of the departed after a verdict, by the list before it: one that is buried comes into it.
pub fn row_after(departed: DepartedRow, members: Members, verdict: Verdict) -> DepartedRow
    requires { gone.Packed departed × Held members }
    ensures { result ≡ gone.pack_departed (handler.row_after here (to_verdict verdict) (view_members members).table (gone.departed_view departed)) }
{
    match verdict {
        Verdict::Bury { addr, number } => departed.leave(members, addr, number),
        _ => departed,
    }
}

// An event of the living.
fn alive(event: Event) -> News
    ensures { result ≡ News.Emits Kind.Alive event }
{
    News::Emits {
        kind: Kind::Alive,
        event,
    }
}

// What a verdict says. Emitted events name this node as from.
pub fn news_of(verdict: Verdict, own: Address) -> News
    ensures { result ≡ from_news (handler.news_of here (to_verdict verdict) own) }
{
    match verdict {
        Verdict::Skip => News::Silent,
        Verdict::Unknown => News::Silent,
        Verdict::Equal => News::Silent,
        Verdict::Low => News::Silent,
        Verdict::AtEnd => News::Silent,
        Verdict::Refute(number) => alive(Event::new_node_recovered(own, own, number)),
        Verdict::Enter { addr, number } => alive(Event::new_node_joined(own, addr, number)),
        Verdict::Raise { addr, number } => alive(Event::new_node_joined(own, addr, number)),
        Verdict::Recover { addr, number } => alive(Event::new_node_recovered(own, addr, number)),
        Verdict::Suspect { addr, number } => alive(Event::new_node_suspected(own, addr, number)),
        Verdict::Bury { addr, number } => News::Emits {
            kind: Kind::Deceased,
            event: Event::new_node_deceased(own, addr, number),
        },
    }
}

// How many held events news outdates, where collecting is on.
pub fn old_news(on: bool, alive: Heap, news: News) -> usize
    requires { Packed alive }
    ensures value { result ≡ collects_for on (to_news news) (heap_view alive) }
    ensures within { result ≤ alive.len }
{
    match news {
        News::Silent => 0,
        News::Emits { kind, event } => collect::old_news(on, alive, kind, Gossip { event }),
    }
}

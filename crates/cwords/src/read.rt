// Words that a C program holds, read as the values of the rules. Every row of words is read: one that no value has is read as a value
// with an address that is in range nowhere, so that the rules refuse it.
ghost use Rattle.std.specs.Prelude.{◌≡◌, ◌&&◌, map, ◌%◌, ◌<◌, take, ltb};
ghost use Rattle.model.specs.Rows.{pad_to};
ghost use Rattle.types.specs.Views.{no_gossip};
ghost use Rattle.cwords.specs.Reading.{nowhere as nowhere_at, address_of, address_in, capped_to, first_wait, settings_of, zeroed as all_zero, event_of, gossip_of, entry_of, member_of, timer_of, departed_of, state_of, wait_of, optional_of, action_of};

use address::Address;
use departed::Departed;
use heap::Entry;
use member::Member;
use model::{Settings, State, both};
use timers::Timer;
use types::{Action, Event, Gossip, Optional};
use wait::{Wait, WaitState};

// 2^32: a tick is below it.
const END_32: u64 = 4294967296;

// 2^24: a family and a port in one word are below it.
const END_24: u64 = 16777216;

// In the place of an address: there is none. No family and port are this word.
pub const ABSENT: u64 = 18446744073709551615;

// An address that is in range nowhere: it is of no family, and it isn't blank.
pub fn nowhere() -> Address
    ensures { result ≡ nowhere_at }
{
    Address {
        family: 255,
        port: 0,
        high: 0,
        low: 0,
    }
}

fn family_of(n: u64) -> u8
    requires { n < 256 }
    ensures { result ≡ n }
{
    n as u8
}

fn port_of(n: u64) -> u16
    requires { n < 65536 }
    ensures { result ≡ n }
{
    n as u16
}

// An address: family × 65536 + port, then the two halves of its bits.
pub fn address_of(first: u64, high: u64, low: u64) -> Address
    ensures { result ≡ address_of first high low }
{
    if first < END_24 {
        return Address {
            family: family_of(first / 65536),
            port: port_of(first % 65536),
            high,
            low,
        };
    }
    nowhere()
}

pub fn address_in(w: [u64; 3]) -> Address
    ensures { result ≡ address_in w }
{
    address_of(w[0], w[1], w[2])
}

// A number of 32 bits; a greater one is the greatest, which no wait may be.
fn capped(w: u64) -> u32
    ensures { result ≡ capped_to w }
{
    if w < END_32 {
        return (w % END_32) as u32;
    }
    4294967295
}

// The first of the waits. Where a switch is neither 0 nor 1 it is one that no wait may be, so that the settings are refused.
fn first_wait(w: u64, collect: u64, remember: u64) -> u32
    ensures { result ≡ first_wait w collect remember }
{
    if both(collect < 2, remember < 2) {
        return capped(w);
    }
    4294967295
}

// The settings, from the first ten words of a row.
pub fn settings_of(w: [u64; 10]) -> Settings
    ensures { result ≡ settings_of w }
{
    Settings {
        ping_interval: first_wait(w[0], w[8], w[9]),
        ping_timeout: capped(w[1]),
        ping_req_timeout: capped(w[2]),
        suspect_timeout: capped(w[3]),
        ping_req_group_size: w[4] as usize,
        send_constant: w[5] as usize,
        max_selected: w[6] as usize,
        max_size: w[7] as usize,
        collect: w[8] == 1,
        remember: w[9] == 1,
    }
}

// Do a kind, an address and a number say nothing?
fn zeroed(kind: u64, a: Address, number: u64) -> bool
    ensures { result ≡ all_zero kind a number }
{
    let free = address::same(a, address::blank());
    both(both(kind == 0, free), number == 0)
}

// 0 none, 1 Joined, 2 Recovered, 3 Suspected, 4 Deceased.
pub fn event_of(kind: u64, from: Address, subject: Address, number: u64) -> Event
    ensures { result ≡ event_of kind from subject number }
{
    if kind == 1 {
        return Event::new_node_joined(from, subject, number);
    }
    if kind == 2 {
        return Event::new_node_recovered(from, subject, number);
    }
    if kind == 3 {
        return Event::new_node_suspected(from, subject, number);
    }
    if kind == 4 {
        return Event::new_node_deceased(from, subject, number);
    }
    let free = address::same(subject, address::blank());
    if both(zeroed(kind, from, number), free) {
        return Event::Nothing;
    }
    Event::new_node_joined(nowhere(), subject, number)
}

// A record: kind, from, subject, number.
pub fn gossip_of(w: [u64; 8]) -> Gossip
    ensures { result ≡ gossip_of w }
{
    let from = address_of(w[1], w[2], w[3]);
    let subject = address_of(w[4], w[5], w[6]);
    Gossip {
        event: event_of(w[0], from, subject, w[7]),
    }
}

// A place of a heap: a record, how often it was sent, and its size.
pub fn entry_of(w: [u64; 10]) -> Entry
    ensures { result ≡ entry_of w }
{
    let from = address_of(w[1], w[2], w[3]);
    let subject = address_of(w[4], w[5], w[6]);
    let gossip = Gossip {
        event: event_of(w[0], from, subject, w[7]),
    };
    Entry {
        gossip,
        sends: w[8],
        size: w[9],
    }
}

// A place of the list: address, state, number. The states are 0 Alive, 1 Pending, 2 Suspected.
pub fn member_of(w: [u64; 5]) -> Member
    ensures { result ≡ member_of w }
{
    let addr = address_of(w[0], w[1], w[2]);
    let state = w[3];
    let number = w[4];
    if state == 0 {
        return Member {
            addr,
            state: State::Alive,
            number,
        };
    }
    if state == 1 {
        return Member {
            addr,
            state: State::Pending,
            number,
        };
    }
    if state == 2 {
        return Member {
            addr,
            state: State::Suspected,
            number,
        };
    }
    Member {
        addr: nowhere(),
        state: State::Alive,
        number,
    }
}

// A timer: address, number, and the tick it was started at.
pub fn timer_of(w: [u64; 5]) -> Timer
    ensures { result ≡ timer_of w }
{
    let addr = address_of(w[0], w[1], w[2]);
    let number = w[3];
    let since = w[4];
    if since < END_32 {
        return Timer {
            addr,
            number,
            since: (since % END_32) as u32,
        };
    }
    Timer {
        addr: nowhere(),
        number,
        since: 0,
    }
}

// A departed address, and its number.
pub fn departed_of(w: [u64; 4]) -> Departed
    ensures { result ≡ departed_of w }
{
    Departed {
        addr: address_of(w[0], w[1], w[2]),
        number: w[3],
    }
}

// 0 SendingPing, 1 waiting for PingAck, 2 SendingPingReq, 3 waiting for PingReqAck, 4 Declaring.
fn state_of(kind: u64, target: Address, number: u64) -> WaitState
    ensures { result ≡ state_of kind target number }
{
    if kind == 1 {
        return WaitState::WaitingForPingAck { target, number };
    }
    if kind == 2 {
        return WaitState::SendingPingReq { target, number };
    }
    if kind == 3 {
        return WaitState::WaitingForPingReqAck { target, number };
    }
    if kind == 4 {
        return WaitState::Declaring { target, number };
    }
    if zeroed(kind, target, number) {
        return WaitState::SendingPing;
    }
    WaitState::WaitingForPingAck {
        target: nowhere(),
        number,
    }
}

// A wait record: state, target, number, since.
pub fn wait_of(w: [u64; 6]) -> Wait
    ensures { result ≡ wait_of w }
{
    let target = address_of(w[1], w[2], w[3]);
    let since = w[5];
    if since < END_32 {
        return Wait {
            state: state_of(w[0], target, w[4]),
            since: (since % END_32) as u32,
        };
    }
    Wait {
        state: WaitState::WaitingForPingAck {
            target: nowhere(),
            number: w[4],
        },
        since: 0,
    }
}

fn optional_of(first: u64, high: u64, low: u64) -> Optional
    ensures { result ≡ optional_of first high low }
{
    if first == ABSENT {
        return Optional::Absent;
    }
    Optional::Given(address_of(first, high, low))
}

// 1 Ping, 2 PingReq, 3 Ack; then its sender, and requested_by, the suspect, or forward_to.
pub fn action_of(w: [u64; 7]) -> Action
    ensures { result ≡ action_of w }
{
    let kind = w[0];
    let from = address_of(w[1], w[2], w[3]);
    if kind == 1 {
        return Action::Ping {
            from,
            requested_by: optional_of(w[4], w[5], w[6]),
        };
    }
    if kind == 3 {
        return Action::Ack {
            from,
            forward_to: optional_of(w[4], w[5], w[6]),
        };
    }
    let suspect = address_of(w[4], w[5], w[6]);
    if kind == 2 {
        return Action::PingReq { from, suspect };
    }
    Action::PingReq {
        from: nowhere(),
        suspect,
    }
}

// The first records of a lent row, at most 64, and no gossip behind them.
pub fn records_of(rows: &[[u64; 8]]) -> [Gossip; 64]
    ensures { result ≡ pad_to 64 no_gossip (take 64 (map gossip_of rows.now)) }
{
    let nothing = Gossip {
        event: Event::Nothing,
    };
    let mut out = [nothing; 64];
    let mut i = 0;
    while i < 64 {
        if rows.len() <= i {
            return out;
        }
        let w = rows[i];
        out[i] = gossip_of(w);
        i += 1;
    }
    out
}

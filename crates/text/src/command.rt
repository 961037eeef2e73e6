// The commands of a script, without their records and draws.
use crate::records::{RecordAt, record_at};
use address::Address;
use model::Settings;
use types::{Action, Event};
use words::{
    AddressAt, NumberAt, OptionalAt, TickAt, address_at, find, number_at, optional_at, tick_at,
};

// The state of a wait record.
#[derive(Clone, Copy)]
pub enum Phase {
    SendingPing,
    WaitingForPingAck { target: Address, number: u64 },
    SendingPingReq { target: Address, number: u64 },
    WaitingForPingReqAck { target: Address, number: u64 },
    Declaring { target: Address, number: u64 },
}

#[derive(Clone, Copy)]
pub enum Command {
    Malformed,
    New {
        settings: Settings,
        own: Address,
        number: u64,
        tick: u32,
    },
    Add {
        peer: Address,
        number: u64,
    },
    Message(Action),
    Step {
        now: u32,
    },
    Timer {
        now: u32,
    },
    Wait {
        phase: Phase,
        tick: u32,
    },
    Rows {
        gossip: usize,
        events: usize,
    },
    Why(Event),
    Read {
        places: usize,
    },
    Write {
        room: usize,
        action: Action,
    },
    Save {
        room: usize,
    },
    Restore {
        settings: Settings,
        tick: u32,
    },
    Salvage {
        room: usize,
    },
}

// A command, and the place of the word after it.
#[derive(Clone, Copy)]
pub struct Head {
    pub command: Command,
    pub next: usize,
}

// The eight numbers among the settings of a `new` or a `restore` line.
#[derive(Clone, Copy)]
pub struct Ticks {
    pub values: [u32; 8],
    pub next: usize,
    pub is_whole: bool,
}

pub fn malformed() -> Head {
    Head {
        command: Command::Malformed,
        next: 0,
    }
}

fn ticks_at(s: &[u8], from: usize) -> Ticks {
    let mut values = [0u32; 8];
    let mut at = from;
    let mut i = 0;
    while i < 8 {
        let TickAt::Found { value, next } = tick_at(s, at) else {
            return Ticks {
                values: [0u32; 8],
                next: 0,
                is_whole: false,
            };
        };
        values[i] = value;
        at = next;
        i += 1;
    }
    Ticks {
        values,
        next: at,
        is_whole: true,
    }
}

// The settings that are words, at the end of such a line.
#[derive(Clone, Copy)]
pub struct Options {
    pub collect: bool,
    pub remember: bool,
    pub next: usize,
}

// The place behind a word, or the same place where another stands.
fn behind(s: &[u8], at: usize, word: &[u8]) -> usize {
    if at <= s.len() {
        let end = find(s, at, b' ');
        if check::same(&s[at..end], word) {
            return end + 1;
        }
    }
    at
}

pub fn options_at(s: &[u8], at: usize) -> Options {
    let first = behind(s, at, b"collect");
    let next = behind(s, first, b"remember");
    Options {
        collect: at < first,
        remember: first < next,
        next,
    }
}

fn settings_of(values: [u32; 8], collect: bool, remember: bool) -> Settings {
    Settings {
        ping_interval: values[0],
        ping_timeout: values[1],
        ping_req_timeout: values[2],
        suspect_timeout: values[3],
        ping_req_group_size: values[4] as usize,
        send_constant: values[5] as usize,
        max_selected: values[6] as usize,
        max_size: values[7] as usize,
        collect,
        remember,
    }
}

fn new_at(s: &[u8], at: usize) -> Head {
    let ticks = ticks_at(s, at);
    if !ticks.is_whole {
        return malformed();
    }
    let values = ticks.values;
    let AddressAt::Found {
        address: own,
        next: after_own,
    } = address_at(s, ticks.next)
    else {
        return malformed();
    };
    let NumberAt::Found {
        value: number,
        next: after_number,
    } = number_at(s, after_own)
    else {
        return malformed();
    };
    let TickAt::Found {
        value: tick,
        next: after_tick,
    } = tick_at(s, after_number)
    else {
        return malformed();
    };
    let options = options_at(s, after_tick);
    let settings = settings_of(values, options.collect, options.remember);
    let command = Command::New {
        settings,
        own,
        number,
        tick,
    };
    Head {
        command,
        next: options.next,
    }
}

// Settings and a tick; the image follows, and behind it the settings that are words.
fn restore_at(s: &[u8], at: usize) -> Head {
    let ticks = ticks_at(s, at);
    if !ticks.is_whole {
        return malformed();
    }
    let values = ticks.values;
    let TickAt::Found { value: tick, next } = tick_at(s, ticks.next) else {
        return malformed();
    };
    let settings = settings_of(values, false, false);
    let command = Command::Restore { settings, tick };
    Head { command, next }
}

// A save is lent at most 65536 bytes.
fn save_at(s: &[u8], at: usize) -> Head {
    let NumberAt::Found { value: room, next } = number_at(s, at) else {
        return malformed();
    };
    if 65536 < room {
        return malformed();
    }
    let command = Command::Save {
        room: room as usize,
    };
    Head { command, next }
}

// A salvage is lent at most 65536 bytes; the image follows.
fn salvage_at(s: &[u8], at: usize) -> Head {
    let NumberAt::Found { value: room, next } = number_at(s, at) else {
        return malformed();
    };
    if 65536 < room {
        return malformed();
    }
    let command = Command::Salvage {
        room: room as usize,
    };
    Head { command, next }
}

fn add_at(s: &[u8], at: usize) -> Head {
    let AddressAt::Found {
        address: peer,
        next: after_peer,
    } = address_at(s, at)
    else {
        return malformed();
    };
    let NumberAt::Found {
        value: number,
        next,
    } = number_at(s, after_peer)
    else {
        return malformed();
    };
    let command = Command::Add { peer, number };
    Head { command, next }
}

fn ping_at(s: &[u8], at: usize) -> Head {
    let AddressAt::Found {
        address: from,
        next: after_from,
    } = address_at(s, at)
    else {
        return malformed();
    };
    let OptionalAt::Found {
        address: requested_by,
        next,
    } = optional_at(s, after_from)
    else {
        return malformed();
    };
    let command = Command::Message(Action::new_ping(from, requested_by));
    Head { command, next }
}

fn req_at(s: &[u8], at: usize) -> Head {
    let AddressAt::Found {
        address: from,
        next: after_from,
    } = address_at(s, at)
    else {
        return malformed();
    };
    let AddressAt::Found {
        address: suspect,
        next,
    } = address_at(s, after_from)
    else {
        return malformed();
    };
    let command = Command::Message(Action::new_ping_req(from, suspect));
    Head { command, next }
}

fn ack_at(s: &[u8], at: usize) -> Head {
    let AddressAt::Found {
        address: from,
        next: after_from,
    } = address_at(s, at)
    else {
        return malformed();
    };
    let OptionalAt::Found {
        address: forward_to,
        next,
    } = optional_at(s, after_from)
    else {
        return malformed();
    };
    let command = Command::Message(Action::new_ack(from, forward_to));
    Head { command, next }
}

fn step_at(s: &[u8], at: usize) -> Head {
    let TickAt::Found { value: now, next } = tick_at(s, at) else {
        return malformed();
    };
    let command = Command::Step { now };
    Head { command, next }
}

fn timer_at(s: &[u8], at: usize) -> Head {
    let TickAt::Found { value: now, next } = tick_at(s, at) else {
        return malformed();
    };
    let command = Command::Timer { now };
    Head { command, next }
}

// A host lends at most 1024 places.
fn rows_at(s: &[u8], at: usize) -> Head {
    let NumberAt::Found {
        value: gossip,
        next: after_gossip,
    } = number_at(s, at)
    else {
        return malformed();
    };
    let NumberAt::Found {
        value: events,
        next,
    } = number_at(s, after_gossip)
    else {
        return malformed();
    };
    if 1024 < gossip {
        return malformed();
    }
    if 1024 < events {
        return malformed();
    }
    let command = Command::Rows {
        gossip: gossip as usize,
        events: events as usize,
    };
    Head { command, next }
}

fn wait_for(phase: Phase, s: &[u8], at: usize) -> Head {
    let TickAt::Found { value: tick, next } = tick_at(s, at) else {
        return malformed();
    };
    let command = Command::Wait { phase, tick };
    Head { command, next }
}

// A state that holds an address and a number: which one, its first word says.
fn wait_of_peer(word: &[u8], s: &[u8], at: usize) -> Head {
    let AddressAt::Found {
        address: target,
        next: after_target,
    } = address_at(s, at)
    else {
        return malformed();
    };
    let NumberAt::Found {
        value: number,
        next,
    } = number_at(s, after_target)
    else {
        return malformed();
    };
    if check::same(word, b"ack") {
        return wait_for(Phase::WaitingForPingAck { target, number }, s, next);
    }
    if check::same(word, b"req") {
        return wait_for(Phase::SendingPingReq { target, number }, s, next);
    }
    if check::same(word, b"reqack") {
        return wait_for(Phase::WaitingForPingReqAck { target, number }, s, next);
    }
    if check::same(word, b"dead") {
        return wait_for(Phase::Declaring { target, number }, s, next);
    }
    malformed()
}

fn wait_at(s: &[u8], at: usize) -> Head {
    if s.len() < at {
        return malformed();
    }
    let end = find(s, at, b' ');
    let word = &s[at..end];
    if check::same(word, b"ping") {
        return wait_for(Phase::SendingPing, s, end + 1);
    }
    wait_of_peer(word, s, end + 1)
}

// One record, and no more.
fn why_at(s: &[u8], at: usize) -> Head {
    let RecordAt::Found { event, next } = record_at(s, at) else {
        return malformed();
    };
    let command = Command::Why(event);
    Head { command, next }
}

fn message_at(verb: &[u8], s: &[u8], at: usize) -> Head {
    if check::same(verb, b"ping") {
        return ping_at(s, at);
    }
    if check::same(verb, b"req") {
        return req_at(s, at);
    }
    if check::same(verb, b"ack") {
        return ack_at(s, at);
    }
    malformed()
}

// The reader is lent at most 1024 places; its bytes follow.
fn read_at(s: &[u8], at: usize) -> Head {
    let NumberAt::Found {
        value: places,
        next,
    } = number_at(s, at)
    else {
        return malformed();
    };
    if 1024 < places {
        return malformed();
    }
    let command = Command::Read {
        places: places as usize,
    };
    Head { command, next }
}

// The writer is lent at most 65536 bytes; a message follows.
fn write_at(s: &[u8], at: usize) -> Head {
    let NumberAt::Found {
        value: room,
        next: start,
    } = number_at(s, at)
    else {
        return malformed();
    };
    if 65536 < room {
        return malformed();
    }
    if s.len() < start {
        return malformed();
    }
    let end = find(s, start, b' ');
    let message = message_at(&s[start..end], s, end + 1);
    let command = message.command;
    writing(room as usize, command, message.next)
}

fn writing(room: usize, message: Command, next: usize) -> Head {
    let Command::Message(action) = message else {
        return malformed();
    };
    let command = Command::Write { room, action };
    Head { command, next }
}

// A line's first words.
pub fn head_of(s: &[u8]) -> Head {
    let end = find(s, 0, b' ');
    let verb = &s[0..end];
    let at = end + 1;
    if check::same(verb, b"add") {
        return add_at(s, at);
    }
    if check::same(verb, b"step") {
        return step_at(s, at);
    }
    if check::same(verb, b"timer") {
        return timer_at(s, at);
    }
    if check::same(verb, b"read") {
        return read_at(s, at);
    }
    if check::same(verb, b"write") {
        return write_at(s, at);
    }
    other_head(verb, s, at)
}

fn other_head(verb: &[u8], s: &[u8], at: usize) -> Head {
    if check::same(verb, b"new") {
        return new_at(s, at);
    }
    if check::same(verb, b"wait") {
        return wait_at(s, at);
    }
    if check::same(verb, b"rows") {
        return rows_at(s, at);
    }
    if check::same(verb, b"why") {
        return why_at(s, at);
    }
    if check::same(verb, b"save") {
        return save_at(s, at);
    }
    if check::same(verb, b"restore") {
        return restore_at(s, at);
    }
    if check::same(verb, b"salvage") {
        return salvage_at(s, at);
    }
    message_at(verb, s, at)
}

// A line's command, called and answered.
#![tactic(auto)]

use address::Address;
use keeper::{Host, is_refused, lend_rows, lend_wait, rows_for};
use model::{Reply, Settings};
use node::{Answer, Node};
use report::put_reply;
use show::{
    least, put_answer, put_collected, put_events, put_grounds, put_one, put_reading, put_salvaged,
    put_saving, put_writing, widen,
};
use std::io::Write;
use text::{Command, Records};
use types::{Action, Event, Gossip};
use wait::Wait;

// A creation or a restart that is refused leaves no node.
fn begin<W: Write>(
    mut host: Host,
    reply: Reply,
    node: Node,
    wait: Wait,
    to: &mut W,
    out: &mut [u8],
) -> Host {
    let at = put_reply(to, out, host.unwritten, reply);
    if is_refused(reply) {
        host.has_node = false;
        host.unwritten = at;
        return host;
    }
    let renewed = host.renewed(node, wait);
    renewed.shown(node, wait, at, to, out)
}

fn create<W: Write>(
    host: Host,
    settings: Settings,
    own: Address,
    number: u64,
    tick: u32,
    to: &mut W,
    out: &mut [u8],
) -> Host {
    let answer = swim::create(settings, own, number);
    let reply = answer.reply;
    let node = answer.node;
    begin(host, reply, node, Wait::new(tick), to, out)
}

// A node from an image, whose bytes, so many, stand at the front of their row.
fn restore<W: Write>(
    host: Host,
    settings: Settings,
    tick: u32,
    bytes: &[u8],
    length: usize,
    to: &mut W,
    out: &mut [u8],
) -> Host {
    if length <= bytes.len() {
        let restored = swim::saved::restore(&bytes[0..length], settings, tick);
        let answer = restored.answer;
        let wait = restored.wait;
        let reply = answer.reply;
        let node = answer.node;
        return begin(host, reply, node, wait, to, out);
    }
    host.at_odds(to, out)
}

fn save<W: Write>(host: Host, room: usize, bytes: &mut [u8], to: &mut W, out: &mut [u8]) -> Host {
    if !host.has_node {
        return host.without_node(to, out);
    }
    if room <= bytes.len() {
        let node = host.node;
        let wait = host.wait;
        let saving = swim::saved::save(node, &mut bytes[0..room]);
        let at = put_saving(to, out, host.unwritten, saving, bytes);
        return host.shown(node, wait, at, to, out);
    }
    host.at_odds(to, out)
}

fn salvage<W: Write>(
    mut host: Host,
    room: usize,
    image: &[u8],
    row: &mut [u8],
    to: &mut W,
    out: &mut [u8],
) -> Host {
    if room <= row.len() {
        let done = swim::salvaged::salvage(image, &mut row[0..room]);
        host.unwritten = put_salvaged(to, out, host.unwritten, done, row);
        return host;
    }
    host.at_odds(to, out)
}

// The image's bytes, so many, stand at the front of their row. No result is longer than 1818 bytes, so a row of 4096 stands for any longer one.
fn salvage_first<W: Write>(
    host: Host,
    room: usize,
    bytes: &[u8],
    length: usize,
    to: &mut W,
    out: &mut [u8],
) -> Host {
    if length <= bytes.len() {
        let mut row = [0u8; 4096];
        return salvage(
            host,
            least(room, 4096),
            &bytes[0..length],
            &mut row,
            to,
            out,
        );
    }
    host.at_odds(to, out)
}

fn add<W: Write>(
    host: Host,
    peer: Address,
    number: u64,
    draws: &[u64],
    to: &mut W,
    out: &mut [u8],
) -> Host {
    if !host.has_node {
        return host.without_node(to, out);
    }
    let before = host.node;
    let wait = host.wait;
    let answer = swim::add_peer(before, peer, number, draws);
    let reply = answer.reply;
    let after = answer.node;
    let told = put_reply(to, out, host.unwritten, reply);
    let at = put_collected(to, out, told, answer);
    host.shown(after, wait, at, to, out)
}

// The records with a place more, so that a row of more than 64 can be lent.
fn one_longer(rows: [Gossip; 64]) -> [Gossip; 65] {
    let none = Gossip::none();
    let mut out = [none; 65];
    for i in 0..64 {
        out[i] = rows[i];
    }
    out
}

// The events of a message's call, and what it collected.
fn put_heard<W: Write>(
    to: &mut W,
    out: &mut [u8],
    at: usize,
    answer: Answer,
    events: [Gossip; 65],
    reported: usize,
) -> usize {
    let told = put_events(to, out, at, events, least(reported, 65));
    put_collected(to, out, told, answer)
}

fn receive<W: Write>(
    host: Host,
    action: Action,
    records: Records,
    draws: &[u64],
    to: &mut W,
    out: &mut [u8],
) -> Host {
    if !host.has_node {
        return host.without_node(to, out);
    }
    let before = host.node;
    let wait = host.wait;
    let rooms = host.rooms;
    let lent = rows_for(rooms, 64, 65);
    let rows = records.rows;
    let none = Gossip::none();
    let received = lender::receive(
        before,
        action,
        one_longer(rows),
        least(records.given, 65),
        draws,
        [none; 64],
        least(lent.gossip, 64),
        [none; 65],
        least(lent.events, 65),
    );
    let answer = received.answer;
    let gossip = received.gossip;
    let events = received.events;
    let after = answer.node;
    let sent = put_answer(to, out, host.unwritten, answer, widen(gossip));
    let at = put_heard(to, out, sent, answer, events, received.reported);
    host.shown(after, wait, at, to, out)
}

fn step<W: Write>(host: Host, now: u32, draws: &[u64], to: &mut W, out: &mut [u8]) -> Host {
    if !host.has_node {
        return host.without_node(to, out);
    }
    let before = host.node;
    let held = host.wait;
    let rooms = host.rooms;
    let lent = rows_for(rooms, 256, 1);
    let none = Gossip::none();
    let stepped = lender::step(
        before,
        held,
        now,
        draws,
        [none; 256],
        least(lent.gossip, 256),
        [none; 1],
        least(lent.events, 1),
    );
    let answer = stepped.answer;
    let gossip = stepped.gossip;
    let events = stepped.events;
    let wait = stepped.wait;
    let after = answer.node;
    let sent = put_answer(to, out, host.unwritten, answer, gossip);
    let told = put_one(to, out, sent, events, stepped.reported);
    let at = put_collected(to, out, told, answer);
    host.shown(after, wait, at, to, out)
}

fn end_timer<W: Write>(host: Host, now: u32, to: &mut W, out: &mut [u8]) -> Host {
    if !host.has_node {
        return host.without_node(to, out);
    }
    let before = host.node;
    let wait = host.wait;
    let rooms = host.rooms;
    let lent = rows_for(rooms, 0, 1);
    let none = Gossip::none();
    let ended = lender::end_timer(before, now, [none; 1], least(lent.events, 1));
    let answer = ended.answer;
    let events = ended.events;
    let reply = answer.reply;
    let after = answer.node;
    let replied = put_reply(to, out, host.unwritten, reply);
    let told = put_one(to, out, replied, events, ended.reported);
    let at = put_collected(to, out, told, answer);
    host.shown(after, wait, at, to, out)
}

// It changes nothing: the state that follows is the one before.
fn why<W: Write>(host: Host, event: Event, draws: &[u64], to: &mut W, out: &mut [u8]) -> Host {
    if !host.has_node {
        return host.without_node(to, out);
    }
    let node = host.node;
    let wait = host.wait;
    let grounds = swim::why(node, draws, Gossip { event });
    let at = put_grounds(to, out, host.unwritten, grounds);
    host.shown(node, wait, at, to, out)
}

// The reader's call: it needs no node, and no state follows.
fn read<W: Write>(mut host: Host, places: usize, bytes: &[u8], to: &mut W, out: &mut [u8]) -> Host {
    let taken = incoming::read(bytes, places);
    let row = taken.row;
    let answer = taken.answer;
    let end = put_reading(to, out, host.unwritten, answer, row);
    host.unwritten = end;
    host
}

fn read_first<W: Write>(
    host: Host,
    places: usize,
    bytes: &[u8],
    length: usize,
    to: &mut W,
    out: &mut [u8],
) -> Host {
    if length <= bytes.len() {
        return read(host, places, &bytes[0..length], to, out);
    }
    host.at_odds(to, out)
}

// The writer's call, likewise.
fn write<W: Write>(
    mut host: Host,
    room: usize,
    action: Action,
    records: Records,
    bytes: &mut [u8],
    to: &mut W,
    out: &mut [u8],
) -> Host {
    if room <= bytes.len() {
        let row = records.rows;
        let writing = outgoing::send(&mut bytes[0..room], action, row, records.given);
        let end = put_writing(to, out, host.unwritten, writing, bytes);
        host.unwritten = end;
        return host;
    }
    host.at_odds(to, out)
}

// Answers a line, whose bytes, so many, stand at the front of their row.
pub fn answer<W: Write>(
    host: Host,
    command: Command,
    records: Records,
    draws: &[u64],
    bytes: &mut [u8],
    length: usize,
    to: &mut W,
    out: &mut [u8],
) -> Host {
    match command {
        Command::Malformed => host.at_odds(to, out),
        Command::New {
            settings,
            own,
            number,
            tick,
        } => create(host, settings, own, number, tick, to, out),
        Command::Add { peer, number } => add(host, peer, number, draws, to, out),
        Command::Message(action) => receive(host, action, records, draws, to, out),
        Command::Step { now } => step(host, now, draws, to, out),
        Command::Timer { now } => end_timer(host, now, to, out),
        Command::Wait { phase, tick } => lend_wait(host, phase, tick),
        Command::Rows { gossip, events } => lend_rows(host, gossip, events),
        Command::Why(event) => why(host, event, draws, to, out),
        Command::Read { places } => read_first(host, places, bytes, length, to, out),
        Command::Write { room, action } => write(host, room, action, records, bytes, to, out),
        Command::Save { room } => save(host, room, bytes, to, out),
        Command::Restore { settings, tick } => restore(
            host, settings, tick, bytes, length, to, out,
        ),
        Command::Salvage { room } => salvage_first(host, room, bytes, length, to, out),
    }
}

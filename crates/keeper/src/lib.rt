// What the program keeps from line to line of a script: the node, what is lent, its words, and how far it is.
#![tactic(auto)]

use model::Reply;
use node::Node;
use report::{put_byte, put_bytes, put_marked, put_number};
use show::put_state;
use std::io::Write;
use text::Phase;
use wait::{Wait, WaitState};

// How many gossip and event places are lent, if a script says so.
#[derive(Clone, Copy)]
pub enum Rooms {
    AsNeeded,
    Lent { gossip: usize, events: usize },
}

#[derive(Clone, Copy)]
pub struct Host {
    pub node: Node,
    pub wait: Wait,
    pub rooms: Rooms,
    pub has_node: bool,
    pub is_quiet: bool,
    // The line's number stands before each answer.
    pub is_numbered: bool,
    // What is told is not the answers but what each call did to the list.
    pub is_audit: bool,
    // The number of lines so far goes to standard error now and then.
    pub is_watched: bool,
    pub has_ended: bool,
    // The input could not be read to its end.
    pub is_broken: bool,
    pub calls: u64,
    pub malformed: u64,
    // The number of the line last read.
    pub line: u64,
    // How many bytes of a line are kept; more than there is room for if it is too long.
    pub kept: usize,
    // How many bytes wait to be written.
    pub unwritten: usize,
}

impl Host {
    pub fn new(is_quiet: bool, is_numbered: bool, is_audit: bool, is_watched: bool) -> Host {
        let node = Node::none();
        let wait = Wait::new(0);
        Host {
            node,
            wait,
            rooms: Rooms::AsNeeded,
            has_node: false,
            is_quiet,
            is_numbered,
            is_audit,
            is_watched,
            has_ended: false,
            is_broken: false,
            calls: 0,
            malformed: 0,
            line: 0,
            kept: 0,
            unwritten: 0,
        }
    }

    // A creation or a restart that succeeded ends what was lent before.
    pub fn renewed(self, node: Node, wait: Wait) -> Host {
        Host {
            node,
            wait,
            rooms: Rooms::AsNeeded,
            has_node: true,
            is_quiet: self.is_quiet,
            is_numbered: self.is_numbered,
            is_audit: self.is_audit,
            is_watched: self.is_watched,
            has_ended: self.has_ended,
            is_broken: self.is_broken,
            calls: self.calls,
            malformed: self.malformed,
            line: self.line,
            kept: self.kept,
            unwritten: self.unwritten,
        }
    }

    // The node and the wait record that a call left, shown as they are from now on.
    pub fn shown<W: Write>(
        mut self,
        node: Node,
        wait: Wait,
        at: usize,
        to: &mut W,
        out: &mut [u8],
    ) -> Host {
        self.node = node;
        self.wait = wait;
        self.unwritten = at;
        if self.is_quiet {
            return self;
        }
        let lamps = swim::lookup::lamps(node);
        let end = put_state(to, out, at, node, lamps, wait);
        self.unwritten = end;
        self
    }

    // A call without a node.
    pub fn without_node<W: Write>(mut self, to: &mut W, out: &mut [u8]) -> Host {
        let end = put_bytes(to, out, self.unwritten, b"= none\n");
        self.unwritten = end;
        self
    }

    // The line's number stands before an answer, where that is asked for.
    fn numbered<W: Write>(mut self, to: &mut W, out: &mut [u8]) -> Host {
        if !self.is_numbered {
            return self;
        }
        let number = put_number(to, out, self.unwritten, self.line);
        let start = put_byte(to, out, number, b' ');
        self.unwritten = start;
        self
    }

    // A call, before it is answered.
    pub fn called<W: Write>(mut self, to: &mut W, out: &mut [u8]) -> Host {
        self.calls = std::num::wrapping_add_u64(self.calls, 1);
        self.numbered(to, out)
    }

    // A line that is not of the form.
    pub fn at_odds<W: Write>(self, to: &mut W, out: &mut [u8]) -> Host {
        let mut host = self.numbered(to, out);
        host.malformed = std::num::wrapping_add_u64(host.malformed, 1);
        let mark = put_byte(to, out, host.unwritten, b'?');
        let number = put_marked(to, out, mark, b' ', host.line);
        let end = put_byte(to, out, number, b'\n');
        host.unwritten = end;
        host
    }
}

// The places lent to a call.
#[derive(Clone, Copy)]
pub struct Rows {
    pub gossip: usize,
    pub events: usize,
}

// The places lent to a call that needs so many.
pub fn rows_for(rooms: Rooms, gossip: usize, events: usize) -> Rows {
    match rooms {
        Rooms::AsNeeded => Rows { gossip, events },
        Rooms::Lent {
            gossip: lent,
            events: others,
        } => Rows {
            gossip: lent,
            events: others,
        },
    }
}

pub fn is_refused(reply: Reply) -> bool {
    match reply {
        Reply::Done(_) => false,
        Reply::Already => false,
        Reply::NotDue => false,
        Reply::Refuted => false,
        Reply::Gone => false,
        Reply::Refused(_) => true,
        Reply::RefusedAt(_, _) => true,
    }
}

fn wait_state(phase: Phase) -> WaitState {
    match phase {
        Phase::SendingPing => WaitState::SendingPing,
        Phase::WaitingForPingAck { target, number } => {
            WaitState::WaitingForPingAck { target, number }
        }
        Phase::SendingPingReq { target, number } => WaitState::SendingPingReq { target, number },
        Phase::WaitingForPingReqAck { target, number } => {
            WaitState::WaitingForPingReqAck { target, number }
        }
        Phase::Declaring { target, number } => WaitState::Declaring { target, number },
    }
}

// Before there is a node, what is lent is forgotten: a creation starts afresh.
pub fn lend_wait(mut host: Host, phase: Phase, tick: u32) -> Host {
    let state = wait_state(phase);
    let wait = Wait { state, since: tick };
    host.wait = wait;
    host
}

pub fn lend_rows(host: Host, gossip: usize, events: usize) -> Host {
    let node = host.node;
    let wait = host.wait;
    Host {
        node,
        wait,
        rooms: Rooms::Lent { gossip, events },
        has_node: host.has_node,
        is_quiet: host.is_quiet,
        is_numbered: host.is_numbered,
        is_audit: host.is_audit,
        is_watched: host.is_watched,
        has_ended: host.has_ended,
        is_broken: host.is_broken,
        calls: host.calls,
        malformed: host.malformed,
        line: host.line,
        kept: host.kept,
        unwritten: host.unwritten,
    }
}

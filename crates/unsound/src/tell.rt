// A node is handed to each of those calls, and the refusals' numbers are written; 0 is no refusal.
use crate::made::at;
use model::Reply;
use node::Node;
use std::io::Write;
use types::{Action, Gossip, Optional};
use wait::Wait;
use why::Grounds;

fn refusal(reply: Reply) -> u64 {
    match reply {
        Reply::Done(_) => 0,
        Reply::Already => 0,
        Reply::NotDue => 0,
        Reply::Refuted => 0,
        Reply::Gone => 0,
        Reply::Refused(refusal) => model::refusal_number(refusal) as u64,
        Reply::RefusedAt(refusal, _) => model::refusal_number(refusal) as u64,
    }
}

fn tell_refusal<W: Write>(to: &mut W, reply: Reply) {
    let number = refusal(reply);
    let _ = write!(to, " {number}");
}

fn tell_add<W: Write>(to: &mut W, node: Node) {
    let draws = [0u64; 1];
    let answer = node::add_peer(node, at(7), 0, &draws);
    let reply = answer.reply;
    tell_refusal(to, reply);
}

fn tell_message<W: Write>(to: &mut W, node: Node) {
    let nothing = Gossip::none();
    let rows = [nothing; 64];
    let draws = [0u64; 1];
    let action = Action::new_ack(at(2), Optional::Absent);
    let received = message::receive(node, action, rows, 0, &draws, 64, 65);
    let answer = received.answer;
    let reply = answer.reply;
    tell_refusal(to, reply);
}

// Not due yet.
fn tell_step<W: Write>(to: &mut W, node: Node) {
    let draws = [0u64; 1];
    let stepped = detection::step(node, Wait::new(0), 5, &draws, 256, 1);
    let answer = stepped.answer;
    let reply = answer.reply;
    tell_refusal(to, reply);
}

fn tell_timer<W: Write>(to: &mut W, node: Node) {
    let ended = timer_call::end_timer(node, 55, 0, 1);
    let answer = ended.answer;
    let reply = answer.reply;
    tell_refusal(to, reply);
}

fn tell_why<W: Write>(to: &mut W, node: Node) {
    let draws = [0u64; 1];
    let grounds = why::why(node, &draws, Gossip::none());
    match grounds {
        Grounds::Because {
            reason: _,
            held: _,
            number: _,
            dead: _,
        } => tell_refusal(to, Reply::Done(0)),
        Grounds::Refused(refusal) => tell_refusal(to, Reply::Refused(refusal)),
    }
}

pub fn tell<W: Write>(to: &mut W, node: Node) {
    tell_add(to, node);
    tell_message(to, node);
    tell_step(to, node);
    tell_timer(to, node);
    tell_why(to, node);
    let _ = to.write_all(b"\n");
}

// Refusal 2: a sound node, changed as each line of a script says, is handed to the calls that change a node, and to `why`.
// A line is a clause, then changes, each behind a bar: a letter and numbers (see `change.rt`).
#![tactic(auto)]

mod change;
mod made;
mod tell;

ghost use Rattle.std.specs.Prelude.{◌≡◌, ◌+◌, ◌≤◌, length};

use change::changed;
use made::sound;
use node::Node;
use std::io;
use std::io::Write;
use streams::{Outlet, read_full};
use tell::tell;
use words::find;

// The place after a mark, or after the end.
fn past(s: &[u8], mark: usize) -> usize
    requires { mark ≤ length s.now }
    ensures { result ≡ mark + 1 }
{
    mark + 1
}

// The sound node with every change behind the clause.
fn changed_by(line: &[u8], clause: usize) -> Node {
    let mut node = sound();
    let mut at = clause;
    while at < line.len() {
        let end = find(line, at, b'|');
        let next = changed(node, &line[at..end]);
        node = next;
        at = past(line, end);
    }
    node
}

fn tell_line<W: Write>(to: &mut W, line: &[u8]) {
    let bar = find(line, 0, b'|');
    let _ = to.write_all(&line[0..bar]);
    tell(to, changed_by(line, past(line, bar)));
}

fn tell_all<W: Write>(to: &mut W, lines: &[u8]) {
    let mut at = 0;
    while at < lines.len() {
        let feed = find(lines, at, b'\n');
        tell_line(to, &lines[at..feed]);
        at = past(lines, feed);
    }
}

fn main(rt: HostRuntime) -> io::Result<()> {
    let mut lines = [0u8; 65536];
    let mut to = Outlet::new(rt.stdout());
    let got = read_full(&mut rt.stdin(), &mut lines);
    tell_all(&mut to, &lines[..got]);
    to.finish()
}

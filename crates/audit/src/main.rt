// Tells of a recorded history on standard input what each call did to the list, for `bin/audit`.
#![tactic(auto)]

use std::io;

fn main(rt: HostRuntime) -> io::Result<()> {
    replayer::audit(&rt, &mut rt.stdin(), rt.stdout(), &mut rt.stderr())
}

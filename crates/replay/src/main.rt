// Answers a script on standard input, call by call. The argument `quiet` leaves the states out.
#![tactic(auto)]

use std::io;

fn main(rt: HostRuntime) -> io::Result<()> {
    replayer::run(&rt, &mut rt.stdin(), rt.stdout(), &mut rt.stderr())
}

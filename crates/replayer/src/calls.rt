// What becomes of a line: it is answered, or what it did is told.
use answering::answer;
use keeper::Host;
use std::io::Write;
use telling::tell;
use text::{Command, Records};

// Is a line a call, which has an answer?
fn is_call(command: Command) -> bool {
    match command {
        Command::Malformed => false,
        Command::Wait { phase: _, tick: _ } => false,
        Command::Rows {
            gossip: _,
            events: _,
        } => false,
        _ => true,
    }
}

// A line, answered or told; its bytes, so many, stand at the front of their row.
pub fn obey<W: Write>(
    host: Host,
    command: Command,
    records: Records,
    draws: &[u64],
    bytes: &mut [u8],
    length: usize,
    to: &mut W,
    out: &mut [u8],
) -> Host {
    if host.is_audit {
        return tell(host, command, records, draws, bytes, length, to, out);
    }
    if is_call(command) {
        return answer(
            host.called(to, out),
            command,
            records,
            draws,
            bytes,
            length,
            to,
            out,
        );
    }
    answer(host, command, records, draws, bytes, length, to, out)
}

// A whole line of a script.
use crate::command::{Command, Options, head_of, options_at};
use crate::records::{Records, no_records, records_at};
use words::{BytesAt, MarkAt, NumberAt, bytes_at, mark_at, number_at};

// A command with its records, and how many draws and bytes it brings.
#[derive(Clone, Copy)]
pub struct Line {
    pub command: Command,
    pub records: Records,
    pub drawn: usize,
    pub length: usize,
}

#[derive(Clone, Copy)]
pub enum Drawn {
    Malformed,
    Count(usize),
}

// What stands after the first words of a command.
#[derive(Clone, Copy)]
pub enum Tail {
    Nothing,
    Draws,
    Message,
    Bytes,
    Image,
    Records,
}

fn tail_of(command: Command) -> Tail {
    match command {
        Command::Malformed => Tail::Nothing,
        Command::New {
            settings: _,
            own: _,
            number: _,
            tick: _,
        } => Tail::Nothing,
        Command::Add { peer: _, number: _ } => Tail::Draws,
        Command::Message(_) => Tail::Message,
        Command::Step { now: _ } => Tail::Draws,
        Command::Timer { now: _ } => Tail::Nothing,
        Command::Wait { phase: _, tick: _ } => Tail::Nothing,
        Command::Rows {
            gossip: _,
            events: _,
        } => Tail::Nothing,
        Command::Why(_) => Tail::Draws,
        Command::Read { places: _ } => Tail::Bytes,
        Command::Write { room: _, action: _ } => Tail::Records,
        Command::Save { room: _ } => Tail::Nothing,
        Command::Restore {
            settings: _,
            tick: _,
        } => Tail::Image,
        Command::Salvage { room: _ } => Tail::Bytes,
    }
}

fn no_line() -> Line {
    let records = no_records();
    Line {
        command: Command::Malformed,
        records,
        drawn: 0,
        length: 0,
    }
}

fn put_draw(draws: &mut [u64], place: usize, value: u64) {
    if place < draws.len() {
        draws[place] = value;
    }
}

// The draws up to the end of the line, at most 1024 of them.
fn draws_at(s: &[u8], from: usize, draws: &mut [u64]) -> Drawn {
    let mut at = from;
    let mut drawn: usize = 0;
    while drawn < 1025 {
        if s.len() < at {
            return Drawn::Count(drawn);
        }
        let NumberAt::Found { value, next } = number_at(s, at) else {
            return Drawn::Malformed;
        };
        put_draw(draws, drawn, value);
        at = next;
        drawn += 1;
    }
    Drawn::Malformed
}

fn with_draws(command: Command, records: Records, s: &[u8], at: usize, draws: &mut [u64]) -> Line {
    let Drawn::Count(drawn) = draws_at(s, at, draws) else {
        return no_line();
    };
    Line {
        command,
        records,
        drawn,
        length: 0,
    }
}

fn after_bar(command: Command, s: &[u8], at: usize, draws: &mut [u64]) -> Line {
    let MarkAt::Found(next) = mark_at(s, at, b'|') else {
        return no_line();
    };
    with_draws(command, no_records(), s, next, draws)
}

fn after_records(command: Command, s: &[u8], at: usize, draws: &mut [u64]) -> Line {
    let records = records_at(s, at, true);
    if records.is_whole {
        return with_draws(command, records, s, records.next, draws);
    }
    no_line()
}

// Records up to the end of the line.
fn with_records(command: Command, s: &[u8], at: usize) -> Line {
    let records = records_at(s, at, false);
    if records.is_whole {
        return Line {
            command,
            records,
            drawn: 0,
            length: 0,
        };
    }
    no_line()
}

// One word of bytes, the last of the line.
fn with_bytes(command: Command, s: &[u8], at: usize, bytes: &mut [u8]) -> Line {
    let BytesAt::Found { length, next } = bytes_at(s, at, bytes) else {
        return no_line();
    };
    if next <= s.len() {
        return no_line();
    }
    let records = no_records();
    Line {
        command,
        records,
        drawn: 0,
        length,
    }
}

// A restart with the settings that are words.
fn chosen(command: Command, options: Options) -> Command {
    let Command::Restore { mut settings, tick } = command else {
        return command;
    };
    settings.collect = options.collect;
    settings.remember = options.remember;
    Command::Restore { settings, tick }
}

// One word of bytes, and the settings that are words.
fn with_image(command: Command, s: &[u8], at: usize, bytes: &mut [u8]) -> Line {
    let BytesAt::Found { length, next } = bytes_at(s, at, bytes) else {
        return no_line();
    };
    let options = options_at(s, next);
    if options.next <= s.len() {
        return no_line();
    }
    let records = no_records();
    Line {
        command: chosen(command, options),
        records,
        drawn: 0,
        length,
    }
}

fn at_end(command: Command, s: &[u8], at: usize) -> Line {
    if s.len() < at {
        let records = no_records();
        return Line {
            command,
            records,
            drawn: 0,
            length: 0,
        };
    }
    no_line()
}

// Reads a line without its line feed; its draws and its bytes go to the lent rows.
pub fn read_line(s: &[u8], draws: &mut [u64], bytes: &mut [u8]) -> Line {
    let head = head_of(s);
    let command = head.command;
    let next = head.next;
    match tail_of(command) {
        Tail::Nothing => at_end(command, s, next),
        Tail::Draws => after_bar(command, s, next, draws),
        Tail::Message => after_records(command, s, next, draws),
        Tail::Bytes => with_bytes(command, s, next, bytes),
        Tail::Image => with_image(command, s, next, bytes),
        Tail::Records => with_records(command, s, next),
    }
}

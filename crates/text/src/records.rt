// The gossip records of a message.
use address::Address;
use types::{Event, Gossip};
use words::{AddressAt, MarkAt, NumberAt, address_field_at, find, mark_at, number_at};

#[derive(Clone, Copy)]
pub enum Record {
    Malformed,
    Read(Event),
}

#[derive(Clone, Copy)]
pub enum RecordAt {
    Malformed,
    Bar(usize),
    End,
    Found { event: Event, next: usize },
}

// The records of a line. The first 64 are kept; of the others only the form is tested.
#[derive(Clone, Copy)]
pub struct Records {
    pub rows: [Gossip; 64],
    pub given: usize,
    pub next: usize,
    pub is_whole: bool,
}

fn event_of(letter: u8, from: Address, subject: Address, number: u64) -> Record {
    match letter {
        b'j' => Record::Read(Event::Joined {
            from,
            subject,
            number,
        }),
        b'r' => Record::Read(Event::Recovered {
            from,
            subject,
            number,
        }),
        b's' => Record::Read(Event::Suspected {
            from,
            subject,
            number,
        }),
        b'd' => Record::Read(Event::Deceased {
            from,
            subject,
            number,
        }),
        _ => Record::Malformed,
    }
}

// A word that starts with a letter and a colon: two addresses and a number follow, parted by colons.
fn fields(word: &[u8]) -> Record {
    if word.len() < 2 {
        return Record::Malformed;
    }
    if word[1] != b':' {
        return Record::Malformed;
    }
    let AddressAt::Found {
        address: from,
        next: second,
    } = address_field_at(word, 2)
    else {
        return Record::Malformed;
    };
    let AddressAt::Found {
        address: subject,
        next: third,
    } = address_field_at(word, second)
    else {
        return Record::Malformed;
    };
    let NumberAt::Found {
        value: number,
        next: _,
    } = number_at(word, third)
    else {
        return Record::Malformed;
    };
    event_of(word[0], from, subject, number)
}

// `n` is a record of no event.
fn record_of(word: &[u8]) -> Record {
    if word.len() == 1 {
        if word[0] == b'n' {
            return Record::Read(Event::Nothing);
        }
        return Record::Malformed;
    }
    fields(word)
}

// The bar, the end of the line, or a record.
pub fn record_at(s: &[u8], at: usize) -> RecordAt {
    if let MarkAt::Found(next) = mark_at(s, at, b'|') {
        return RecordAt::Bar(next);
    }
    if s.len() < at {
        return RecordAt::End;
    }
    let end = find(s, at, b' ');
    let Record::Read(event) = record_of(&s[at..end]) else {
        return RecordAt::Malformed;
    };
    RecordAt::Found {
        event,
        next: end + 1,
    }
}

fn keep(mut rows: [Gossip; 64], place: usize, event: Event) -> [Gossip; 64] {
    if place < 64 {
        rows[place] = Gossip { event };
    }
    rows
}

pub fn no_records() -> Records {
    let nothing = Gossip {
        event: Event::Nothing,
    };
    let rows = [nothing; 64];
    Records {
        rows,
        given: 0,
        next: 0,
        is_whole: false,
    }
}

// All records up to the bar, or up to the end where there is to be none, at most 256 of them; and the place past them.
pub fn records_at(s: &[u8], from: usize, has_bar: bool) -> Records {
    let nothing = Gossip {
        event: Event::Nothing,
    };
    let mut rows = [nothing; 64];
    let mut at = from;
    let mut given: usize = 0;
    while given < 257 {
        match record_at(s, at) {
            RecordAt::Malformed => {
                return no_records();
            }
            RecordAt::Bar(next) => {
                return Records {
                    rows,
                    given,
                    next,
                    is_whole: has_bar,
                };
            }
            RecordAt::End => {
                return Records {
                    rows,
                    given,
                    next: at,
                    is_whole: !has_bar,
                };
            }
            RecordAt::Found { event, next } => {
                let kept = keep(rows, given, event);
                rows = kept;
                given += 1;
                at = next;
            }
        }
    }
    no_records()
}

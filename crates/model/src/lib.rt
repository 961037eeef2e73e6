// The words that the rules and the code share: whatever holds no address. The rules themselves stand in specs/.
#![tactic(auto)]

ghost use Rattle.std.specs.Prelude.{◌≡◌, ◌&&◌, ◌+◌, ◌≤◌};
ghost use Rattle.model.specs.Answers.{number_of};
ghost use Rattle.model.specs.Words.{is_alive};
ghost use Rattle.model.specs.Lamps.{dark, lamp_of, more, less, same_lamps};

// What a list says of a peer. Alive comes first: it is the state of an unused place.
#[derive(Clone, Copy)]
pub enum State {
    Alive,
    Pending,
    Suspected,
}

// What the front panel shows: how many peers are in each state, the own address left out.
#[derive(Clone, Copy)]
pub struct Lamps {
    pub alive: usize,
    pub pending: usize,
    pub suspected: usize,
}

impl Lamps {
    // Nobody is counted.
    pub fn none() -> Lamps
        ensures { result ≡ dark }
    {
        Lamps {
            alive: 0,
            pending: 0,
            suspected: 0,
        }
    }

    // The one lamp of a state.
    pub fn one(state: State) -> Lamps
        ensures { result ≡ lamp_of state }
    {
        match state {
            State::Alive => Lamps {
                alive: 1,
                pending: 0,
                suspected: 0,
            },
            State::Pending => Lamps {
                alive: 0,
                pending: 1,
                suspected: 0,
            },
            State::Suspected => Lamps {
                alive: 0,
                pending: 0,
                suspected: 1,
            },
        }
    }

    // So many more.
    pub fn plus(self, by: Lamps) -> Lamps
        requires { (self.alive + by.alive ≤ 128) × (self.pending + by.pending ≤ 128) × (self.suspected + by.suspected ≤ 128) }
        ensures { result ≡ more self by }
    {
        Lamps {
            alive: self.alive + by.alive,
            pending: self.pending + by.pending,
            suspected: self.suspected + by.suspected,
        }
    }

    // So many less.
    pub fn minus(self, by: Lamps) -> Lamps
        requires { (by.alive ≤ self.alive) × (by.pending ≤ self.pending) × (by.suspected ≤ self.suspected) }
        ensures { result ≡ less self by }
    {
        Lamps {
            alive: self.alive - by.alive,
            pending: self.pending - by.pending,
            suspected: self.suspected - by.suspected,
        }
    }

    // Are all three counts the same?
    pub fn same(self, other: Lamps) -> bool
        ensures { result ≡ same_lamps self other }
    {
        both(
            both(self.alive == other.alive, self.pending == other.pending),
            self.suspected == other.suspected,
        )
    }
}

// The two heaps of a node: what is known of the living, and the deaths.
#[derive(Clone, Copy)]
pub enum Kind {
    Alive,
    Deceased,
}

// The refusals, in the order of their numbers.
#[derive(Clone, Copy)]
pub enum Refusal {
    Setting,
    Unsound,
    ShortRow,
    ManyRecords,
    AddressRange,
    NumberEnd,
    ListFull,
    DrawsShort,
    AliveFull,
    TimersFull,
    Malformed,
    NoRoom,
    DeceasedFull,
    WrongMark,
    WrongLength,
    OutOfRule,
}

// Where the rules of a message stopped: at a gossip record, counted from 0 in the lent row, or at the sender's own admission.
#[derive(Clone, Copy)]
pub enum Cause {
    Record(usize),
    Sender,
}

// What becomes of a timer's address when the timer ends: it leaves, it stays, or it is absent already.
#[derive(Clone, Copy)]
pub enum Fate {
    Leaves,
    Stays,
    Absent,
}

// How a call ended: kept, with how many draws it used; kept with nothing to do; of a timer call alone, a timer ended and removed
// nobody, since its address was refuted or gone already; refused; or, of a message alone, refused by its rules, and where.
#[derive(Clone, Copy)]
pub enum Reply {
    Done(usize),
    Already,
    NotDue,
    Refuted,
    Gone,
    Refused(Refusal),
    RefusedAt(Refusal, Cause),
}

// How a rule that reads draws ended: how many it used, or why it was refused.
#[derive(Clone, Copy)]
pub enum Drew {
    Used(usize),
    Refused(Refusal),
}

// What a node is set up with.
#[derive(Clone, Copy)]
pub struct Settings {
    pub ping_interval: u32,
    pub ping_timeout: u32,
    pub ping_req_timeout: u32,
    pub suspect_timeout: u32,
    pub ping_req_group_size: usize,
    pub send_constant: usize,
    pub max_selected: usize,
    pub max_size: usize,
    // Is old news taken from the alive heap before newer is pushed?
    pub collect: bool,
    // Is D taken from the row of the departed where it has the address?
    pub remember: bool,
}

// The ranges of the settings: waits end below, the others at the number itself.
impl Settings {
    pub const WAIT_END: u32 = 2147483648;

    pub const MOST_GROUP: usize = 4;

    pub const MOST_CONSTANT: usize = 8;

    pub const LEAST_SELECTED: usize = 1;

    pub const MOST_SELECTED: usize = 64;

    pub const LEAST_SIZE: usize = 111;

    pub const GREATEST_SIZE: usize = 1169;
}

// A refusal's number in the table of refusals.
pub fn refusal_number(refusal: Refusal) -> u8
    ensures { result ≡ number_of refusal }
{
    match refusal {
        Refusal::Setting => 1,
        Refusal::Unsound => 2,
        Refusal::ShortRow => 3,
        Refusal::ManyRecords => 4,
        Refusal::AddressRange => 5,
        Refusal::NumberEnd => 6,
        Refusal::ListFull => 7,
        Refusal::DrawsShort => 8,
        Refusal::AliveFull => 9,
        Refusal::TimersFull => 10,
        Refusal::Malformed => 11,
        Refusal::NoRoom => 12,
        Refusal::DeceasedFull => 13,
        Refusal::WrongMark => 14,
        Refusal::WrongLength => 15,
        Refusal::OutOfRule => 16,
    }
}

pub fn is_alive(state: State) -> bool
    ensures { result ≡ is_alive state }
{
    match state {
        State::Alive => true,
        State::Pending => false,
        State::Suspected => false,
    }
}

// Two tests are passed. Joining them by a function leaves one way out, however many tests there are.
pub fn both(a: bool, b: bool) -> bool
    ensures { result ≡ (a && b) }
{
    if a { b } else { false }
}

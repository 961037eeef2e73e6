// The exports of `host` for C: every call of `swim` over rows of words. Each calls the function of its name, under the same clauses.
#![tactic(auto)]

ghost use Rattle.std.specs.Prelude.{length};
ghost use Rattle.cwords.specs.Reading.{rows, address_in, node_of};
ghost use Rattle.swim.specs.Lookups.{look_up, how_many, member_at};
ghost use Rattle.host.specs.Promised.{created_at, added_at, received_at, stepped_at, ended_in, why_at, Creates, Adds, Receives, Steps, EndsTimer, Looks, Tallies, Explains, Shows};

// Creation: 5, then 1.
#[unsafe(no_mangle)]
pub extern "C" fn swim_words_create(
    head: &mut [u64; 22],
    order: &mut [[u64; 3]; 64],
    members: &mut [[u64; 5]; 64],
    alive: &mut [[u64; 10]; 128],
    deceased: &mut [[u64; 10]; 128],
    timers: &mut [[u64; 5]; 16],
    gone: &mut [[u64; 4]; 128],
    settings: &[u64; 10],
    own: &[u64; 3],
    number: u64,
) -> u64
    ensures { Creates (created_at settings.now own.now number) (rows head.old order.old members.old alive.old deceased.old timers.old gone.old) result (rows head.new order.new members.new alive.new deceased.new timers.new gone.new) }
{
    host::swim_words_create(
        head, order, members, alive, deceased, timers, gone, settings, own, number,
    )
}

// Adding a peer: 2, 5, "already", 7, 8.
#[unsafe(no_mangle)]
pub extern "C" fn swim_words_add_peer(
    head: &mut [u64; 22],
    order: &mut [[u64; 3]; 64],
    members: &mut [[u64; 5]; 64],
    alive: &mut [[u64; 10]; 128],
    deceased: &mut [[u64; 10]; 128],
    timers: &mut [[u64; 5]; 16],
    gone: &mut [[u64; 4]; 128],
    peer: &[u64; 3],
    number: u64,
    draws: &[u64],
    counts: &mut [u64; 6],
) -> u64
    ensures { Adds (added_at (rows head.old order.old members.old alive.old deceased.old timers.old gone.old) peer.now number draws.now) (rows head.old order.old members.old alive.old deceased.old timers.old gone.old) result (rows head.new order.new members.new alive.new deceased.new timers.new gone.new) counts.new }
{
    host::swim_words_add_peer(
        head, order, members, alive, deceased, timers, gone, peer, number, draws, counts,
    )
}

// The message: 2, 3, 4, 5, then the first of 6 to 9 and 13 that the rules reach, with where.
#[unsafe(no_mangle)]
pub extern "C" fn swim_words_receive(
    head: &mut [u64; 22],
    order: &mut [[u64; 3]; 64],
    members: &mut [[u64; 5]; 64],
    alive: &mut [[u64; 10]; 128],
    deceased: &mut [[u64; 10]; 128],
    timers: &mut [[u64; 5]; 16],
    gone: &mut [[u64; 4]; 128],
    action: &[u64; 7],
    records: &[[u64; 8]],
    draws: &[u64],
    gossip: &mut [[u64; 8]],
    events: &mut [[u64; 8]],
    letters: &mut [[u64; 11]; 4],
    counts: &mut [u64; 6],
) -> u64
    ensures { Receives (received_at (rows head.old order.old members.old alive.old deceased.old timers.old gone.old) action.now records.now draws.now (length gossip.old) (length events.old)) (rows head.old order.old members.old alive.old deceased.old timers.old gone.old) gossip.old events.old letters.old result (rows head.new order.new members.new alive.new deceased.new timers.new gone.new) gossip.new events.new letters.new counts.new }
{
    host::swim_words_receive(
        head, order, members, alive, deceased, timers, gone, action, records, draws, gossip,
        events, letters, counts,
    )
}

// The detector step: 2, 3, 5, "not due", then the rules.
#[unsafe(no_mangle)]
pub extern "C" fn swim_words_step(
    head: &mut [u64; 22],
    order: &mut [[u64; 3]; 64],
    members: &mut [[u64; 5]; 64],
    alive: &mut [[u64; 10]; 128],
    deceased: &mut [[u64; 10]; 128],
    timers: &mut [[u64; 5]; 16],
    gone: &mut [[u64; 4]; 128],
    wait: &mut [u64; 6],
    tick: u32,
    draws: &[u64],
    gossip: &mut [[u64; 8]],
    events: &mut [[u64; 8]],
    letters: &mut [[u64; 11]; 4],
    counts: &mut [u64; 6],
) -> u64
    ensures { Steps (stepped_at (rows head.old order.old members.old alive.old deceased.old timers.old gone.old) wait.old tick draws.now (length gossip.old) (length events.old)) (rows head.old order.old members.old alive.old deceased.old timers.old gone.old) wait.old gossip.old events.old letters.old result (rows head.new order.new members.new alive.new deceased.new timers.new gone.new) wait.new gossip.new events.new letters.new counts.new }
{
    host::swim_words_step(
        head, order, members, alive, deceased, timers, gone, wait, tick, draws, gossip, events,
        letters, counts,
    )
}

// The timer call: 2, 3, "not due", then the rules.
#[unsafe(no_mangle)]
pub extern "C" fn swim_words_end_timer(
    head: &mut [u64; 22],
    order: &mut [[u64; 3]; 64],
    members: &mut [[u64; 5]; 64],
    alive: &mut [[u64; 10]; 128],
    deceased: &mut [[u64; 10]; 128],
    timers: &mut [[u64; 5]; 16],
    gone: &mut [[u64; 4]; 128],
    tick: u32,
    events: &mut [[u64; 8]],
    counts: &mut [u64; 6],
) -> u64
    ensures { EndsTimer (ended_in (rows head.old order.old members.old alive.old deceased.old timers.old gone.old) tick (length events.old)) (rows head.old order.old members.old alive.old deceased.old timers.old gone.old) events.old result (rows head.new order.new members.new alive.new deceased.new timers.new gone.new) events.new counts.new }
{
    host::swim_words_end_timer(
        head, order, members, alive, deceased, timers, gone, tick, events, counts,
    )
}

// What the list holds of an address: 2, 5, 22 where it isn't listed. `found` gets its address, state and number.
#[unsafe(no_mangle)]
pub extern "C" fn swim_words_look_up(
    head: &[u64; 22],
    order: &[[u64; 3]; 64],
    members: &[[u64; 5]; 64],
    alive: &[[u64; 10]; 128],
    deceased: &[[u64; 10]; 128],
    timers: &[[u64; 5]; 16],
    gone: &[[u64; 4]; 128],
    peer: &[u64; 3],
    found: &mut [u64; 5],
) -> u64
    ensures { Looks (look_up (node_of (rows head.now order.now members.now alive.now deceased.now timers.now gone.now)) (address_in peer.now)) found.old result found.new }
{
    host::swim_words_look_up(
        head, order, members, alive, deceased, timers, gone, peer, found,
    )
}

// Who is listed at a place, counted from 0: 2, 22 at or past the count.
#[unsafe(no_mangle)]
pub extern "C" fn swim_words_member_at(
    head: &[u64; 22],
    order: &[[u64; 3]; 64],
    members: &[[u64; 5]; 64],
    alive: &[[u64; 10]; 128],
    deceased: &[[u64; 10]; 128],
    timers: &[[u64; 5]; 16],
    gone: &[[u64; 4]; 128],
    place: u64,
    found: &mut [u64; 5],
) -> u64
    ensures { Looks (member_at (node_of (rows head.now order.now members.now alive.now deceased.now timers.now gone.now)) place) found.old result found.new }
{
    host::swim_words_member_at(
        head, order, members, alive, deceased, timers, gone, place, found,
    )
}

// How many addresses are listed: 2.
#[unsafe(no_mangle)]
pub extern "C" fn swim_words_how_many(
    head: &[u64; 22],
    order: &[[u64; 3]; 64],
    members: &[[u64; 5]; 64],
    alive: &[[u64; 10]; 128],
    deceased: &[[u64; 10]; 128],
    timers: &[[u64; 5]; 16],
    gone: &[[u64; 4]; 128],
    count: &mut [u64; 1],
) -> u64
    ensures { Tallies (how_many (node_of (rows head.now order.now members.now alive.now deceased.now timers.now gone.now))) count.old result count.new }
{
    host::swim_words_how_many(head, order, members, alive, deceased, timers, gone, count)
}

// Which rule decides a record: 2, 5, then the refusal that the message would meet. `grounds` gets the reason, then the held number, the
// record's own and D, each after 1, or 0 and 0 where there is none.
#[unsafe(no_mangle)]
pub extern "C" fn swim_words_why(
    head: &[u64; 22],
    order: &[[u64; 3]; 64],
    members: &[[u64; 5]; 64],
    alive: &[[u64; 10]; 128],
    deceased: &[[u64; 10]; 128],
    timers: &[[u64; 5]; 16],
    gone: &[[u64; 4]; 128],
    event: &[u64; 8],
    draws: &[u64],
    grounds: &mut [u64; 7],
) -> u64
    ensures { Explains (why_at (rows head.now order.now members.now alive.now deceased.now timers.now gone.now) event.now draws.now) grounds.old result grounds.new }
{
    host::swim_words_why(
        head, order, members, alive, deceased, timers, gone, event, draws, grounds,
    )
}

// The lamps: Alive, Pending, Suspected. They stand in the head at a fixed place, so a panel may read them there without a call.
#[unsafe(no_mangle)]
pub extern "C" fn swim_words_lamps(head: &[u64; 22], lamps: &mut [u64; 3])
    ensures { Shows head.now lamps.new }
{
    host::swim_words_lamps(head, lamps)
}

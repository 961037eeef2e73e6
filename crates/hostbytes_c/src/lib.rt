// The exports of `hostbytes` for C: a list saved, restored and salvaged, and datagrams read and written. Each calls the function of its name, under the same clauses.
#![tactic(auto)]

ghost use Rattle.std.specs.Prelude.{map};
ghost use Rattle.cwords.specs.Reading.{rows, settings_of, gossip_of, action_of, node_of};
ghost use Rattle.saving.specs.Views.{restored_of};
ghost use Rattle.hostbytes.specs.Promised.{Saves, Restores, Salvages, Reads, Writes};

// The list of a node, saved to a lent row: 2, then 12 if the row is shorter than the image. `count` gets how many bytes were written.
#[unsafe(no_mangle)]
pub extern "C" fn swim_words_save(
    head: &[u64; 22],
    order: &[[u64; 3]; 64],
    members: &[[u64; 5]; 64],
    alive: &[[u64; 10]; 128],
    deceased: &[[u64; 10]; 128],
    timers: &[[u64; 5]; 16],
    gone: &[[u64; 4]; 128],
    out: &mut [u8],
    count: &mut [u64; 1],
) -> u64
    ensures { Saves (node_of (rows head.now order.now members.now alive.now deceased.now timers.now gone.now)) out.old result out.new count.new }
{
    hostbytes::swim_words_save(
        head, order, members, alive, deceased, timers, gone, out, count,
    )
}

// A node from a saved list, and a fresh wait record: 14, 15, 16, then 1.
#[unsafe(no_mangle)]
pub extern "C" fn swim_words_restore(
    head: &mut [u64; 22],
    order: &mut [[u64; 3]; 64],
    members: &mut [[u64; 5]; 64],
    alive: &mut [[u64; 10]; 128],
    deceased: &mut [[u64; 10]; 128],
    timers: &mut [[u64; 5]; 16],
    gone: &mut [[u64; 4]; 128],
    wait: &mut [u64; 6],
    bytes: &[u8],
    settings: &[u64; 10],
    tick: u32,
) -> u64
    ensures { Restores (restored_of bytes.now (settings_of settings.now) tick) (rows head.old order.old members.old alive.old deceased.old timers.old gone.old) wait.old result (rows head.new order.new members.new alive.new deceased.new timers.new gone.new) wait.new }
{
    hostbytes::swim_words_restore(
        head, order, members, alive, deceased, timers, gone, wait, bytes, settings, tick,
    )
}

// What can be kept of a damaged saved list, as an image in a lent row: 14, 16, then 12. `said` gets a word for each place, and `counts` how many
// bytes were written, the count as it stands in the image, and how many places were read.
#[unsafe(no_mangle)]
pub extern "C" fn swim_words_salvage(
    bytes: &[u8],
    out: &mut [u8],
    said: &mut [u64; 64],
    counts: &mut [u64; 3],
) -> u64
    ensures { Salvages bytes.now out.old said.old result out.new said.new counts.new }
{
    hostbytes::swim_words_salvage(bytes, out, said, counts)
}

// A datagram, read: 3 if fewer than 64 places are lent, then 11 with its place, then 4. `action` gets its action, `count` how many records.
#[unsafe(no_mangle)]
pub extern "C" fn swim_words_read(
    bytes: &[u8],
    action: &mut [u64; 7],
    records: &mut [[u64; 8]],
    count: &mut [u64; 1],
) -> u64
    ensures { Reads bytes.now action.old records.old result action.new records.new count.new }
{
    hostbytes::swim_words_read(bytes, action, records, count)
}

// An action and its records, written as a datagram: 4, 5, then 12 if the row is too short. `count` gets how many bytes were written.
#[unsafe(no_mangle)]
pub extern "C" fn swim_words_write(
    action: &[u64; 7],
    records: &[[u64; 8]],
    out: &mut [u8],
    count: &mut [u64; 1],
) -> u64
    ensures { Writes (action_of action.now) (map gossip_of records.now) out.old result out.new count.new }
{
    hostbytes::swim_words_write(action, records, out, count)
}

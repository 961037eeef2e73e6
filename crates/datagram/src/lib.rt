// What a host calls for bytes: a datagram read into a lent row of gossip records, and written into a lent row of bytes.
#![tactic(auto)]

ghost use Rattle.std.specs.Prelude.{◌≡◌};
ghost use Rattle.datagram.specs.Promises.{Reads, Writes};

use incoming::Reading;
use outgoing::Writing;
use types::{Action, Gossip};

// A datagram, read: 3 if fewer than 64 places are lent, then 11 with its place, then 4. Refused, no place of the row is touched.
pub fn read(bytes: &[u8], records: &mut [Gossip]) -> Reading
    ensures { Reads bytes.now records.old result records.new }
{
    let taken = incoming::read(bytes, records.len());
    lent::write_65(records, taken.row, taken.count);
    taken.answer
}

// An action and its records, written: 4, 5, then 12 if the row is too short. Refused, no place of the row is touched.
pub fn write(action: Action, records: &[Gossip], out: &mut [u8]) -> Writing
    ensures { Writes action records.now out.old result out.new }
{
    let first = lent::first_64(records);
    outgoing::send(out, action, first, records.len())
}

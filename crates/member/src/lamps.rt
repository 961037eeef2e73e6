// The three counts of a list, the own address left out.
ghost use Rattle.std.specs.Prelude.{◌≡◌, map, ◌≤◌, take};
ghost use Rattle.address.specs.Here.{here};
ghost use Rattle.model.specs.Lamps.{lamps_of};
ghost use Rattle.laws_list.specs.Counting.{light_of};
ghost use Rattle.member.specs.Views.{to_member};

use crate::{Member, Members};
use address::Address;
use model::{Lamps, State};

// The lamp of one peer: none for the own address.
pub fn light(own: Address, a: Address, state: State) -> Lamps
    ensures { result ≡ light_of here.same own a state }
{
    if address::same(own, a) {
        return Lamps::none();
    }
    Lamps::one(state)
}

// All three worked out in one walk: of a list that was handed in, whose counts may be anything.
pub fn lamps_of(table: [Member; Members::CAPACITY], n: usize, own: Address) -> Lamps
    requires { n ≤ 64 }
    ensures { result ≡ lamps_of here.same own (map to_member (take n table)) }
{
    let mut lamps = Lamps::none();
    let mut i = 0;
    while i < n {
        let m = table[i];
        let state = m.state;
        lamps = lamps.plus(light(own, m.addr, state));
        i += 1;
    }
    lamps
}

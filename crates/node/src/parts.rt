// The parts of a node that rules replace, and what a rule does to one of them.
ghost use Rattle.std.specs.Prelude.{◌≡◌, ◌&&◌, ◌≤◌, eqb};
ghost use Rattle.address.specs.Here.{here};
ghost use Rattle.model.specs.Node as M;
ghost use Rattle.disseminate.specs.Fit.{most_chosen};
ghost use Rattle.node.specs.Views.{view_node, pack_node, with_members, with_timers, spread_of};
ghost use Rattle.node.specs.Rows.{Ready};

use crate::Node;
use address::Address;
use disseminate::Disseminator;
use member::{Member, Members};
use model::{State, both};
use timers::Timers;
use types::Gossip;

// Do both heaps hold nothing?
fn none_held(alive: usize, deceased: usize) -> bool
    ensures { result ≡ (eqb alive 0 && eqb deceased 0) }
{
    both(alive == 0, deceased == 0)
}

impl Node {
    pub fn with_members(self, members: Members) -> Node
        ensures { result ≡ with_members self members }
    {
        let settings = self.settings;
        let own = self.own;
        let disseminator = self.disseminator;
        let timers = self.timers;
        let departed = self.departed;
        Node {
            settings,
            own,
            members,
            disseminator,
            timers,
            departed,
        }
    }

    pub fn with_timers(self, timers: Timers) -> Node
        ensures { result ≡ with_timers self timers }
    {
        let settings = self.settings;
        let own = self.own;
        let members = self.members;
        let disseminator = self.disseminator;
        let departed = self.departed;
        Node {
            settings,
            own,
            members,
            disseminator,
            timers,
            departed,
        }
    }

    // The record of a listed address is replaced.
    pub fn change(self, a: Address, state: State, number: u64) -> Node
        requires { Ready self }
        ensures { result ≡ pack_node (M.change here a state number (view_node self)) }
    {
        let members = self.members;
        let after = members.update_member(
            self.own,
            Member {
                addr: a,
                state,
                number,
            },
        );
        self.with_members(after)
    }

    // Gossip is chosen for a message, at as many members as are listed.
    pub fn spread(self) -> Spread
        requires { Ready self }
        ensures value { result ≡ spread_of (M.spread here (view_node self)) }
        ensures within { result.count ≤ most_chosen }
    {
        if none_held(self.disseminator.alive.len, self.disseminator.deceased.len) {
            let nothing = Gossip::none();
            return Spread {
                node: self,
                rows: [nothing; 64],
                count: 0,
            };
        }
        let settings = self.settings;
        let own = self.own;
        let members = self.members;
        let timers = self.timers;
        let departed = self.departed;
        let alive = self.disseminator.alive;
        let deceased = self.disseminator.deceased;
        let choice = disseminate::get_gossip(alive, deceased, settings, members.len);
        let alive = choice.alive;
        let deceased = choice.deceased;
        let rows = choice.chosen.rows;
        // Written out: handed over, the heaps would be copied once more.
        Spread {
            node: Node {
                settings,
                own,
                members,
                disseminator: Disseminator { alive, deceased },
                timers,
                departed,
            },
            rows,
            count: choice.chosen.count,
        }
    }
}

// A node whose heaps gave gossip for a message.
#[derive(Clone, Copy)]
pub struct Spread {
    pub node: Node,
    pub rows: [Gossip; 64],
    pub count: usize,
}

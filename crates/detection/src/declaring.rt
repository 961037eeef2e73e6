// A node that has not answered is declared dead when its timer ends.
ghost use Rattle.std.specs.Prelude.{◌≡◌, []};
ghost use Rattle.address.specs.Here.{here};
ghost use Rattle.model.specs.Detector as D;
ghost use Rattle.model.specs.Calls as calls;
ghost use Rattle.node.specs.Views.{stored_view, view_node};
ghost use Rattle.node.specs.Rows.{Ready};
ghost use Rattle.wait.specs.Views.{to_wait, Gives};

use address::Address;
use model::{Refusal, Reply};
use node::Node;
use timers::{Timer, Timers};
use wait::{Stepped, Wait};

// A declaration timer is started, or 16 are running: 10.
pub fn declare_node_as_dead(
    node: Node,
    wait: Wait,
    target: Address,
    number: u64,
    tick: u32,
) -> Stepped
    requires { Ready node }
    ensures { Gives (calls.step_of_kept here (stored_view node) (to_wait wait) [] (D.declare here target number tick (view_node node) [])) result }
{
    let timers = node.timers;
    if Timers::CAPACITY <= timers.len {
        return Stepped::plain(Reply::Refused(Refusal::TimersFull), node, wait);
    }
    let after = timers.start(Timer {
        addr: target,
        number,
        since: tick,
    });
    Stepped::plain(Reply::Done(0), node.with_timers(after), Wait::new(tick))
}

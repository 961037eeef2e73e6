// The wait for an answer is over.
ghost use Rattle.std.specs.Prelude.{◌≡◌};
ghost use Rattle.model.specs.Rows.{pick};
ghost use Rattle.member.specs.Views.{Held};
ghost use Rattle.detection.specs.Views.{heard_in};

use address::Address;
use member::Members;
use model::State;
use wait::{Wait, WaitState};

// Alive or absent: it has answered, or it is gone.
fn heard(members: Members, target: Address) -> bool
    requires { Held members }
    ensures { result ≡ heard_in members target }
{
    if !members.lists(target) {
        return true;
    }
    let state = members.member_state(target);
    match state {
        State::Alive => true,
        State::Pending => false,
        State::Suspected => false,
    }
}

// The wait for an answer is over: back to SendingPing if it was heard of, else on to the next state.
pub fn wait_for_ack(members: Members, target: Address, next: WaitState, tick: u32) -> Wait
    requires { Held members }
    ensures { result ≡ record { state = pick (heard_in members target) WaitState.SendingPing next; since = tick } }
{
    if heard(members, target) {
        return Wait::new(tick);
    }
    Wait {
        state: next,
        since: tick,
    }
}

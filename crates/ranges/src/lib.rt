// Is every address of a message in range?
#![tactic(auto)]

ghost use Rattle.std.specs.Prelude.{◌≡◌, map, ◌≤◌, take};
ghost use Rattle.address.specs.Here.{here};
ghost use Rattle.model.specs.Rows.{every};
ghost use Rattle.model.specs.Sound.{valid_gossip};
ghost use Rattle.model.specs.Calls as calls;
ghost use Rattle.types.specs.Views.{to_gossip, to_action, to_optional};

use types::{Action, Gossip, Optional};

fn valid_optional(o: Optional) -> bool
    ensures { result ≡ calls.valid_option here (to_optional o) }
{
    match o {
        Optional::Absent => true,
        Optional::Given(a) => address::in_range(a),
    }
}

pub fn valid_action(action: Action) -> bool
    ensures { result ≡ calls.valid_action here (to_action action) }
{
    match action {
        Action::Ping { from, requested_by } => {
            if !address::in_range(from) {
                return false;
            }
            valid_optional(requested_by)
        },
        Action::PingReq { from, suspect } => {
            if !address::in_range(from) {
                return false;
            }
            address::in_range(suspect)
        },
        Action::Ack { from, forward_to } => {
            if !address::in_range(from) {
                return false;
            }
            valid_optional(forward_to)
        },
    }
}

pub fn valid_rows(rows: [Gossip; 64], given: usize) -> bool
    requires { given ≤ 64 }
    ensures { result ≡ every (valid_gossip here) (map to_gossip (take given rows)) }
{
    let mut i = 0;
    while i < given {
        let g = rows[i];
        if !types::valid_gossip(g) {
            return false;
        }
        i += 1;
    }
    true
}

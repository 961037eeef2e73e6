// Laws of saved lists: round trips, and that a restored node is good. They stand in specs/.
#![tactic(auto)]

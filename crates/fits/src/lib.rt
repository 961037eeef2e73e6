// How long a message is that a node sends with gossip that it chose: theorems in specs/. There is no code here.
#![tactic(auto)]

// Laws of choosing, in specs/: a good heap, the send limit, and what choosing gossip keeps. There is no code here.
#![tactic(auto)]

// Laws of rules and calls, in specs/: each keeps a good node good. There is no code here.
#![tactic(auto)]

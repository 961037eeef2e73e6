// Laws of a pick, in specs/: it ends, and gives as many as were wanted after the cap. There is no code here.
#![tactic(auto)]

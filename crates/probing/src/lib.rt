// How soon each peer is probed, whatever the draws: theorems about the rules, in specs/. There is no code here.
#![tactic(auto)]

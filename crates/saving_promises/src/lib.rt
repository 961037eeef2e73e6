// What is promised of saving and restoring a list, for every host that makes the calls: theorems, in specs/. There is no code here.
#![tactic(auto)]

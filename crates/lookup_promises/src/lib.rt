// What a collector sees, in plain words: theorems, in specs/. There is no code here.
#![tactic(auto)]

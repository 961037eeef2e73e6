// The row of the departed over every history: theorems about the rules, in specs/. There is no code here.
#![tactic(auto)]

// What the papers say of updates, refusals, time-outs and death notices, in their words and not by the rules' own lists: theorems, in specs/. There is no code here.
#![tactic(auto)]

// What is promised of `swim::why`, for every program that calls it: theorems, in specs/. There is no code here.
#![tactic(auto)]

// What is promised of the calls of `swim`, for every program that makes them: theorems, in specs/. There is no code here.
#![tactic(auto)]

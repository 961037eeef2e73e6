// What is promised of the calls of `datagram`, for every host that makes them: theorems, in specs/. There is no code here.
#![tactic(auto)]

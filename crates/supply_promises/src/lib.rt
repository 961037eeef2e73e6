// What a host has to lend, of the calls of swim: theorems about every result that meets their contracts, in specs/. There is no code here.
#![tactic(auto)]

// The worked numbers, and wrong programs each beside its rule: tables and theorems, in specs/. There is no code here.
#![tactic(auto)]

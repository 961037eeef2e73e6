// No forged death, of every history of a cabinet of controllers: theorems about the rules, in specs/. There is no code here.
#![tactic(auto)]

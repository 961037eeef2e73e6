// Demand 3: the ledger, and what holds of every history. Theorems about the rules, in specs/. There is no code here.
#![tactic(auto)]

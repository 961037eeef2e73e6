// What a host has to lend: how many draws a call may take, and what frees a node that is full. Theorems about the rules, in specs/. There is no code here.
#![tactic(auto)]

// No forged death, of the programs of a cabinet: theorems about the calls of `swim` and about the datagrams between them, in specs/. There is no code here.
#![tactic(auto)]

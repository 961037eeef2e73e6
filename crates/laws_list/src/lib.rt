// Laws of the list and its order, in specs/: what each operation keeps, and what a loop over them finds. There is no code here.
#![tactic(auto)]

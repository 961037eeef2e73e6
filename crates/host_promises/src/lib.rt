// What holds of the calls of a C program: theorems alone, in specs/.
#![tactic(auto)]

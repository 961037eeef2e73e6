// Laws that proofs cite, in specs/: of answers, tests, counts, lists, padded rows and settings. There is no code here.
#![tactic(auto)]

// Laws of the node, in specs/: a good node is what a sound stored node holds, and nothing is lost between them. There is no code here.
#![tactic(auto)]

// Laws of the heap, in specs/: the same entries, heap order, and what stands behind the used places. There is no code here.
#![tactic(auto)]

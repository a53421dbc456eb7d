// The trials of the rules' "Trials at the edges" that are marked P, as one table with its proof. It holds no code.

#![tactic(auto)]

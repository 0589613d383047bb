// The tree of sums over the slots: definitions and laws, no code.
#![tactic(auto)]

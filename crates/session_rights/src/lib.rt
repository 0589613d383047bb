// Right-hand sums over the marks, and one count of all: definitions and laws, no code.
#![tactic(auto)]

// The claim about whole runs: definitions and their proof, no code.
#![tactic(auto)]

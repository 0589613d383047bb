// Sessions that have read a trace: laws, no code.
#![tactic(auto)]

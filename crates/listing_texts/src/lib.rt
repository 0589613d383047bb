// The listing of a log text: its definitions and laws, no code.
#![tactic(auto)]

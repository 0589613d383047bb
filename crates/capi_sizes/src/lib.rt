// Every count of words that a call answers fits a signed number: laws, no code.
#![tactic(auto)]

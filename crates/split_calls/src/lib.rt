// One store split among customers: the definitions behind the call, and their laws.
#![tactic(auto)]

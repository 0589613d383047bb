// What one more read does to the misses of a trace: the definitions behind the call, and their laws.
#![tactic(auto)]

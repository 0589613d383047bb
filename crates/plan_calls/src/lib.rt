// What carrying a plan out answers: the definitions and their laws, no code.
#![tactic(auto)]

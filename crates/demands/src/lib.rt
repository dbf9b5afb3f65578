// The three demands as theorems over the definitions, and the marked cases as one list. No code.
#![tactic(auto)]

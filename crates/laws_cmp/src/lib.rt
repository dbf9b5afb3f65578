// The laws of the orders, as theorems over the definitions of cmp: what vstd/laws_cmp.rs asks of a comparison. No code.
#![tactic(auto)]

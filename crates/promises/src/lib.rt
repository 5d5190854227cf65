// No function: the promises to the customer (specs/) and their proofs, over the definitions of the layers below.
#![tactic(auto)]

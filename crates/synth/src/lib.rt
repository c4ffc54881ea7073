// No function: specs/ has the definitions of the synthesis filter.
#![tactic(auto)]

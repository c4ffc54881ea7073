// No function: specs/ says where a sum of 40 bits can wrap, and of what is a plain sum that it cannot.
#![tactic(auto)]

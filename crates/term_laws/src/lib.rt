// No function: what holds of the term report's figures.
#![tactic(auto)]

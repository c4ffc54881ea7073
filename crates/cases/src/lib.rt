// No function: specs/ has document 01's marked cases, and inputs of docs/DIFFERENCES.md.
#![tactic(auto)]

// No function: specs/ has core.rs's full state, stepped as there, and that no answer depends on what ours leaves out of it.
#![tactic(auto)]

// No function: where decode answers 9 in a mended recording.
#![tactic(auto)]

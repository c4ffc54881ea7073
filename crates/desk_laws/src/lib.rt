// No function: that the calls on images are the calls on states, over any sequence, and that what they give can be held.
#![tactic(auto)]

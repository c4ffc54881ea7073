// No function: what the calls over lent memory answer and write, as definitions, and that decoding images is decoding states.
#![tactic(auto)]

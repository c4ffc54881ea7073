// No function: specs/ has what holds of every accepted frame: its figures are numbers, its lags in range, its frequencies sorted.
#![tactic(auto)]

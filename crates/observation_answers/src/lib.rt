// What a change of the observation memory answers and leaves: definitions alone.

#![tactic(auto)]

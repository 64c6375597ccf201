// Laws of the free cells and the next name, counted as a run goes: no code. They stand apart from `rules`, whose
// must-fail edits prove it again one by one.

#![tactic(auto)]

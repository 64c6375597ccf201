// Laws of how runs end: no code. They stand apart from `rules`, whose must-fail edits prove it again one by one.

#![tactic(auto)]

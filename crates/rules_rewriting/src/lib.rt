// Laws of programs rewritten: no code. They stand apart from `rules`, whose must-fail edits prove it again one by one.

#![tactic(auto)]

// The block of each variable at the start of a run.

#![tactic(auto)]

ghost use Rattle.std.specs.Prelude.{◌≡◌};
ghost use Rattle.rules.specs.Plain.{start_variables};
ghost use Rattle.evaluation.specs.State.{variables_of};

use rules::{VARIABLE_COUNT, Variables};

// Variable 0 is block 1.
pub fn start_variables() -> Variables
    ensures { variables_of result ≡ start_variables }
{
    let mut variables = [0u16; VARIABLE_COUNT];
    variables[0] = 1;
    variables
}

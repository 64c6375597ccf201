// The mark that a pointer leads to.

#![tactic(auto)]

ghost use Rattle.std.specs.Prelude.{◌≡◌};
ghost use Rattle.rules.specs.Observation.{locate_mark};
ghost use Rattle.rules.specs.Layout.{observation_of};

use rules::{Located, ObservationMemory, Pointer};

pub fn locate_mark(obs: &ObservationMemory, p: Pointer) -> Located
    ensures { result ≡ locate_mark (observation_of obs.now) p }
{
    value_offsets::locate_in(observation_records::record_of(obs, p.name), p.offset)
}

// The observation memory's block records, read: 8 bytes each, in front of the marks.

#![tactic(auto)]

ghost use Rattle.std.specs.Prelude.{◌≡◌, ◌<◌};
ghost use Rattle.rules.specs.Sizes.{name_count};
ghost use Rattle.rules.specs.Observation.{record_of};
ghost use Rattle.rules.specs.Layout.{recorded_at, observation_of};

use rules::{NAME_COUNT, ObservationMemory, Recorded};

// Block record k, counted from 0.
#[tactic(auto, unfolding(rules::specs::Layout::recorded_at))]
pub fn read_record(obs: &ObservationMemory, k: usize) -> Recorded
    requires { k < name_count }
    ensures { result ≡ recorded_at obs.now k }
{
    let at = k * 8;
    let first = byte_words::read_word(&obs[..], at + 2, 2) as u16;
    let n = byte_words::read_word(&obs[..], at + 4, 2) as u16;
    match obs[at] {
        0 => Recorded::Unused,
        1 => Recorded::Live(first, n),
        _ => Recorded::Dead,
    }
}

// The record of a name; a name that has none is as a dead one's.
#[tactic(auto, using(crate::proofs::ObservationLaws::records))]
pub fn record_of(obs: &ObservationMemory, name: u16) -> Recorded
    ensures { result ≡ record_of (observation_of obs.now) name }
{
    match usize::from(name) {
        k @ 1..=NAME_COUNT => read_record(obs, k - 1),
        _ => Recorded::Dead,
    }
}

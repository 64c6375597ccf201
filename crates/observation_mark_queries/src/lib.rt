// The observation memory's queries of a pointer; here those by the mark that it leads to: valid and initialised.

#![tactic(auto)]

ghost use Rattle.std.specs.Prelude.{◌≡◌};
ghost use Rattle.rules.specs.Trees.{valid, initialised};
ghost use Rattle.rules.specs.Observation.{query_observation, is_marked};
ghost use Rattle.rules.specs.Layout.{observation_of};

use rules::{BLOCKS_LENGTH, CELL_COUNT, Evaluated, ObservationMemory, Pointer, Query, Value};

#[tactic(auto, using(observation_records::proofs::ObservationLaws::marks), unfolding(rules::specs::Layout::mark_at))]
fn is_marked(obs: &ObservationMemory, i: usize) -> bool
    ensures { result ≡ is_marked (observation_of obs.now) i }
{
    i < CELL_COUNT && obs[BLOCKS_LENGTH + i] == 1
}

// A query of a pointer, by the record of its block and by the marks.
pub fn query(obs: &ObservationMemory, q: Query, v: Value) -> Evaluated
    ensures { result ≡ query_observation q (observation_of obs.now) v }
{
    let p = Pointer::try_from(v)?;
    let block = observation_records::record_of(obs, p.name);
    block_places::query(block, |i| is_marked(obs, i), q, p)
}

pub fn is_valid(obs: &ObservationMemory, v: Value) -> Evaluated
    ensures { result ≡ query_observation valid (observation_of obs.now) v }
{
    query(obs, Query::Valid, v)
}

pub fn is_initialised(obs: &ObservationMemory, v: Value) -> Evaluated
    ensures { result ≡ query_observation initialised (observation_of obs.now) v }
{
    query(obs, Query::Initialised, v)
}

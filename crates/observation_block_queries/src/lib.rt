// The observation memory's queries by the block that a pointer names: base address, offset and block length; and
// whether a block is live.

#![tactic(auto)]

ghost use Rattle.std.specs.Prelude.{◌≡◌};
ghost use Rattle.rules.specs.Trees.{base, offset, block_length};
ghost use Rattle.rules.specs.Observation.{live_record, query_observation};
ghost use Rattle.rules.specs.Layout.{observation_of};

use observation_mark_queries::query;
use rules::{Evaluated, ObservationMemory, Query, Recorded, Value};

// Whether a block is recorded live; one never recorded is not.
pub fn is_live(obs: &ObservationMemory, name: u16) -> bool
    ensures { result ≡ live_record (observation_of obs.now) name }
{
    let block = observation_records::record_of(obs, name);
    matches!(block, Recorded::Live(..))
}

pub fn base_address(obs: &ObservationMemory, v: Value) -> Evaluated
    ensures { result ≡ query_observation base (observation_of obs.now) v }
{
    query(obs, Query::Base, v)
}

pub fn offset(obs: &ObservationMemory, v: Value) -> Evaluated
    ensures { result ≡ query_observation offset (observation_of obs.now) v }
{
    query(obs, Query::Offset, v)
}

pub fn block_length(obs: &ObservationMemory, v: Value) -> Evaluated
    ensures { result ≡ query_observation block_length (observation_of obs.now) v }
{
    query(obs, Query::BlockLength, v)
}

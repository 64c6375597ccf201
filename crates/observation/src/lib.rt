// The observation memory: its nine calls, and clearing it. What stands above it uses these promises only.

#![tactic(auto)]

ghost use Rattle.std.specs.Prelude.{◌≡◌};
ghost use Rattle.rules.specs.Observation.{empty_observation};
ghost use Rattle.rules.specs.Layout.{observation_image};

pub use observation_block_queries::{base_address, block_length, is_live, offset};
pub use observation_deleting::delete_block;
pub use observation_initialising::initialise;
pub use observation_mark_queries::{is_initialised, is_valid};
pub use observation_storing::store_block;
use rules::{OBSERVATION_LENGTH, ObservationMemory};

pub fn clear(obs: &mut ObservationMemory)
    ensures { obs.new ≡ observation_image empty_observation }
{
    byte_fills::fill_bytes(&mut obs[..], 0, OBSERVATION_LENGTH, 0);
}

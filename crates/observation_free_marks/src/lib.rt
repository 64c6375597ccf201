// The search for free marks in the observation memory.

#![tactic(auto)]

ghost use Rattle.std.specs.Prelude.{◌≡◌, ◌<◌, eqb, get_or};
ghost use Rattle.rules.specs.Observation.{mark_run};
ghost use Rattle.rules.specs.Layout.{observation_of};
ghost use Rattle.rules.proofs.Memory.MarkOwners.{MarksOwned};

use block_places::Places;
use rules::{MarkOwners, ObservationMemory};

// The marks, free where they have no owner.
#[derive(Clone, Copy)]
struct Marks<'a> {
    obs: &'a ObservationMemory,
    owners: &'a MarkOwners,
}

impl Places for Marks<'_> {
    ghost free = { λ marks i. eqb (get_or marks.owners.now.names i 0) 0 };

    ghost ready = { λ marks. MarksOwned (observation_of marks.obs.now) marks.owners.now };

    fn is_free(&self, mark: usize) -> bool {
        self.owners.names[mark] == 0
    }

    // By the record of the mark's owner.
    fn end_of(&self, mark: usize) -> usize {
        let obs = self.obs;
        block_places::end(&obs[..], usize::from(self.owners.names[mark]))
    }
}

// The lowest run of n marks that lie in no live block, looked for from a mark below which each has an owner.
pub fn find_marks(obs: &ObservationMemory, owners: &MarkOwners, n: usize) -> Option<usize>
    requires { (0 < n) × MarksOwned (observation_of obs.now) owners.now }
    ensures { result ≡ mark_run (observation_of obs.now) n }
{
    let marks = Marks { obs, owners };
    block_places::find_run(&marks, owners.lowest, n)
}

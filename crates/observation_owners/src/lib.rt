// The owner of each mark: the live block that has it, kept beside the observation memory.

#![tactic(auto)]

ghost use Rattle.std.specs.Prelude.{◌≡◌, ◌+◌, ◌≤◌, length};
ghost use Rattle.rules.specs.Sizes.{cell_count};
ghost use Rattle.rules.proofs.Memory.MarkOwners.{owners_taken, owners_given};

use rules::MarkOwners;

// A block has taken n marks from first on.
pub fn take(owners: &mut MarkOwners, name: u16, first: u16, n: u16)
    requires { first + n ≤ cell_count }
    ensures owners { owners.new ≡ owners_taken owners.old name first n }
    ensures marks { length owners.old.names ≡ cell_count }
{
    let first = usize::from(first);
    let n = usize::from(n);
    owners.names[first..first + n].fill(name);
    owners.lowest = block_places::lowest_taken(first, n, owners.lowest);
}

// A block has given back n marks from first on.
pub fn give_back(owners: &mut MarkOwners, first: u16, n: u16)
    requires { first + n ≤ cell_count }
    ensures owners { owners.new ≡ owners_given owners.old first n }
    ensures marks { length owners.old.names ≡ cell_count }
{
    let first = usize::from(first);
    owners.names[first..first + usize::from(n)].fill(0);
    owners.lowest = block_places::lowest_given(first, owners.lowest);
}

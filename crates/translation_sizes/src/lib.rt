// How many records a record is translated to, by recursion on the record number.

#![tactic(auto)]

ghost use Rattle.std.specs.Prelude.{◌≡◌, ◌≤◌};
ghost use Rattle.rules.specs.Sizes.{target_limit};
ghost use Rattle.rules.specs.Emission.{tree_size};
ghost use Rattle.rules.specs.Origins.{own_records, copies_of_child};
ghost use Rattle.rules.specs.RecordTrees.{tree_at, Sorted, size_from};

// How many records are a kind's own, not its children's.
fn own_records(kind: u8) -> usize
    ensures { result ≡ own_records kind }
{
    match kind {
        21..=23 | 30 | 31 | 33 | 48 => 2,
        24 | 32 | 34 | 35 => 3,
        41 | 43 => 5,
        42 => 13,
        47 => 14,
        _ => 1,
    }
}

// How often the translation has the records of a child, A being 0.
fn copies(kind: u8, child: usize) -> usize
    ensures { result ≡ copies_of_child kind child }
{
    match (kind, child) {
        (41..=43, 0) | (42, 1) => 2,
        _ => 1,
    }
}

// The records that a record of a kind is translated to, with those of its children.
fn total(kind: u8, a: usize, b: usize, c: usize) -> usize
    requires { size_from kind a b c ≤ target_limit }
    ensures { result ≡ size_from kind a b c }
{
    own_records(kind) + copies(kind, 0) * a + copies(kind, 1) * b + c
}

// How many records record n is translated to.
#[tactic(auto, using(crate::proofs::SizeSteps::within_sorted, crate::proofs::SizeSteps::size_none))]
pub fn tree_size(table: &[u8], n: usize) -> usize
    requires { (Sorted table.now n) × (tree_size (tree_at table.now n 0 0) ≤ target_limit) }
    ensures { result ≡ tree_size (tree_at table.now n 0 0) }
{
    if n == 0 {
        return 0;
    }
    let a = tree_size(table, table::child_a(table, n));
    let b = tree_size(table, table::child_b(table, n));
    let c = tree_size(table, table::child_c(table, n));
    total(table::kind(table, n), a, b, c)
}

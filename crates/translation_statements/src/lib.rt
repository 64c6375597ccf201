// The records of a statement that has no statement below it.

#![tactic(auto)]

ghost use Rattle.std.specs.Prelude.{◌≤◌};
ghost use Rattle.rules.specs.Sizes.{source_limit};
ghost use Rattle.rules.specs.Records.{kind_of};
ghost use Rattle.translation_emission.specs.Emission.{Room, Emitted, Copied};
ghost use Rattle.translation_sizes.specs.Trees.{copy_at};
ghost use Rattle.translation_statements.specs.Statements.{fetch_tree, saved_tree, stored_tree, new_tree, StatementAt};
ghost use Rattle.translation_statements.specs.Statements.{Simple};

use rules::Record;
use translation_emission::{EMPTY, Output};

// The pointer that temporary 0 points to, into temporary 1.
fn emit_fetch(out: &mut Output, s: usize)
    requires fact_1 { s ≤ source_limit }
    requires fact_2 { Room out.old (fetch_tree s) }
    ensures { Emitted out.old (fetch_tree s) out.new }
{
    out.push(Record { kind: 12, ..EMPTY });
    out.push(Record {
        kind: 2,
        a: out.count,
        ..EMPTY
    });
    out.push(Record {
        a: out.count,
        ..translation_emission::statement_record(61, 1, s)
    });
}

// A copy of record a is saved, the statement runs, an observation follows.
fn emit_saved(
    table: &[u8],
    a: usize,
    b: usize,
    out: &mut Output,
    first: u8,
    kind: u8,
    last: u8,
    s: usize,
)
    requires fact_1 { Copied table.now a }
    requires fact_2 { Copied table.now b }
    requires fact_3 { s ≤ source_limit }
    requires fact_4 { Room out.old (saved_tree table.now s first kind last a b) }
    ensures { Emitted out.old (saved_tree table.now s first kind last a b) out.new }
{
    out.part(table, first, 0, a, 0, s);
    let saved = out.count;
    out.part(table, kind, 0, a, b, s);
    let done = out.count;
    out.leaf(last, 0, 0, s);
    out.sequence(done, s);
    out.sequence(saved, s);
}

// A new block is recorded: its pointer and its length.
fn emit_stored(out: &mut Output, s: usize)
    requires fact_1 { s ≤ source_limit }
    requires fact_2 { Room out.old (stored_tree s) }
    ensures { Emitted out.old (stored_tree s) out.new }
{
    emit_fetch(out, s);
    let fetched = out.count;
    out.leaf(68, 1, 0, s);
    let stored = out.count;
    out.leaf(70, 0, 0, s);
    out.sequence(stored, s);
    out.sequence(fetched, s);
}

// Address and size are saved, the block is made, and then recorded.
fn emit_new(table: &[u8], a: usize, b: usize, out: &mut Output, s: usize)
    requires fact_1 { Copied table.now a }
    requires fact_2 { Copied table.now b }
    requires fact_3 { s ≤ source_limit }
    requires fact_4 { Room out.old (new_tree table.now s a b) }
    ensures { Emitted out.old (new_tree table.now s a b) out.new }
{
    out.part(table, 60, 0, a, 0, s);
    let addressed = out.count;
    out.part(table, 61, 2, b, 0, s);
    let sized = out.count;
    out.part(table, 42, 0, a, b, s);
    let made = out.count;
    emit_stored(out, s);
    out.sequence(made, s);
    out.sequence(sized, s);
    out.sequence(addressed, s);
}

// A statement that has no statement below it.
#[tactic(auto, using(crate::proofs::Statements::within_statement))]
pub fn emit_simple(table: &[u8], n: usize, out: &mut Output)
    requires fact_1 { StatementAt table.now n }
    requires fact_2 { Simple (kind_of table.now n) }
    requires fact_3 { Room out.old (copy_at table.now n) }
    ensures { Emitted out.old (copy_at table.now n) out.new }
{
    let a = table::child_a(table, n);
    let b = table::child_b(table, n);
    match table::kind(table, n) {
        40 => out.leaf(40, 0, 0, n),
        41 => emit_saved(table, a, b, out, 60, 41, 70, n),
        42 => emit_new(table, a, b, out, n),
        43 => emit_saved(table, a, 0, out, 61, 43, 69, n),
        _ => translation_assertions::emit_assert(table, a, out, n),
    }
}

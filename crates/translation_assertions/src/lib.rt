// The records of an assertion: its terms and predicates by recursion on the record number, each at a level.

#![tactic(auto)]

ghost use Rattle.std.specs.Prelude.{◌⊎◌, ◌≡◌, true, ◌≤◌};
ghost use Rattle.rules.specs.Sizes.{source_limit};
ghost use Rattle.rules.specs.Records.{kind_of};
ghost use Rattle.rules.specs.Checker.{is_unary};
ghost use Rattle.translation_emission.specs.Emission.{RoomFor, Room, Emitted};
ghost use Rattle.translation_sizes.specs.Trees.{tree_at};
ghost use Rattle.translation_assertions.specs.Tests.{LevelsAt, Ready, last_kind, last_field, Branched, assert_tree};

use rules::Record;
use translation_emission::Output;

// The query of 21 to 23, 30 and 31, by its number; of 33 there is none.
fn query(kind: u8) -> usize
    ensures { result ≡ last_field kind }
{
    match kind {
        30 => 1,
        31 => 2,
        21 => 3,
        22 => 4,
        23 => 5,
        _ => 0,
    }
}

// The kind of the last record of one of a child: 65 for 33, and 64 for a query.
fn observer(kind: u8) -> u8
    ensures { result ≡ last_kind kind }
{
    match kind {
        33 => 65,
        _ => 64,
    }
}

// Kind 66 over the last two parts, behind the one that ends with record `first`.
fn emit_branch(out: &mut Output, first: usize, yes: usize, mark: u8, s: usize)
    requires fact_1 { s ≤ source_limit }
    requires fact_2 { RoomFor out.old 2 }
    ensures { Branched out.old first yes mark s out.new }
{
    out.push(Record {
        b: yes,
        c: out.count,
        ..translation_emission::statement_record(66, mark, s)
    });
    out.sequence(first, s);
}

// A term or a predicate at a level, under statement s.
#[cycle(emit)]
fn emit_test(table: &[u8], n: usize, out: &mut Output, s: usize, level: u8)
    requires { Ready table.now n out.old s level }
    ensures { Emitted out.old (tree_at table.now n s level) out.new }
{
    match table::kind(table, n) {
        20 => out.part(table, 61, level, table::child_a(table, n), 0, s),
        24 | 32 => emit_binary(table, n, out, s, level),
        34 => emit_both(table, n, out, s, level),
        35 => emit_either(table, n, out, s, level),
        _ => emit_unary(table, n, out, s, level),
    }
}

// One of a child: its records, then the one that asks or negates it.
#[cycle(emit)]
fn emit_unary(table: &[u8], n: usize, out: &mut Output, s: usize, level: u8)
    requires { Ready table.now n out.old s level × (is_unary (kind_of table.now n) ≡ true) }
    ensures { Emitted out.old (tree_at table.now n s level) out.new }
{
    let kind = table::kind(table, n);
    emit_test(table, table::child_a(table, n), out, s, level + 1);
    let first = out.count;
    out.leaf(observer(kind), level, query(kind), s);
    out.sequence(first, s);
}

// An operation on two terms.
#[cycle(emit)]
fn emit_binary(table: &[u8], n: usize, out: &mut Output, s: usize, level: u8)
    requires { Ready table.now n out.old s level
        × ((kind_of table.now n ≡ 24) ⊎ (kind_of table.now n ≡ 32)) }
    ensures { Emitted out.old (tree_at table.now n s level) out.new }
{
    let a = table::child_a(table, n);
    let b = table::child_b(table, n);
    let operator = usize::from(table::mark(table, n));
    emit_test(table, a, out, s, level + 1);
    let first = out.count;
    emit_test(table, b, out, s, level + 2);
    let second = out.count;
    out.leaf(63, level, operator, s);
    out.sequence(second, s);
    out.sequence(first, s);
}

// A and B: B only where A is true.
#[cycle(emit)]
fn emit_both(table: &[u8], n: usize, out: &mut Output, s: usize, level: u8)
    requires { Ready table.now n out.old s level × (kind_of table.now n ≡ 34) }
    ensures { Emitted out.old (tree_at table.now n s level) out.new }
{
    let a = table::child_a(table, n);
    let b = table::child_b(table, n);
    emit_test(table, a, out, s, level);
    let first = out.count;
    emit_test(table, b, out, s, level);
    let yes = out.count;
    out.leaf(40, 0, 0, s);
    emit_branch(out, first, yes, level, s);
}

// A or B: B only where A is false.
#[cycle(emit)]
fn emit_either(table: &[u8], n: usize, out: &mut Output, s: usize, level: u8)
    requires { Ready table.now n out.old s level × (kind_of table.now n ≡ 35) }
    ensures { Emitted out.old (tree_at table.now n s level) out.new }
{
    let a = table::child_a(table, n);
    let b = table::child_b(table, n);
    emit_test(table, a, out, s, level);
    let first = out.count;
    out.leaf(40, 0, 0, s);
    let yes = out.count;
    emit_test(table, b, out, s, level);
    emit_branch(out, first, yes, level, s);
}

// An assertion: its predicate at level 0, then 67.
pub fn emit_assert(table: &[u8], a: usize, out: &mut Output, s: usize)
    requires fact_1 { LevelsAt table.now a 0 }
    requires fact_2 { s ≤ source_limit }
    requires fact_3 { Room out.old (assert_tree table.now s a) }
    ensures { Emitted out.old (assert_tree table.now s a) out.new }
{
    emit_test(table, a, out, s, 0);
    let first = out.count;
    out.leaf(67, 0, 0, s);
    out.sequence(first, s);
}

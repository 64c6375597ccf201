// A source table's translation: its record count, then its records, by recursion on the record number.

#![tactic(auto, using(translation_statements::proofs::Statements::within_statement))]

ghost use Rattle.std.specs.Prelude.{◌≡◌, ◌+◌, ◌≤◌, pos, Ok};
ghost use Rattle.rules.specs.Sizes.{source_limit};
ghost use Rattle.rules.specs.Kinds.{source};
ghost use Rattle.rules.specs.Records.{kind_of};
ghost use Rattle.rules.specs.Checker.{check};
ghost use Rattle.rules.specs.Answers.{translated_by};
ghost use Rattle.translation_emission.specs.Emission.{RoomFor, Room, Emitted};
ghost use Rattle.translation_sizes.specs.Trees.{copy_at};
ghost use Rattle.translation.specs.Lets.{over_tree, ending_tree, inside_tree, Opened, Enclosed};
ghost use Rattle.translation.specs.Answers.{translated_answer};
ghost use Rattle.translation_statements.specs.Statements.{StatementAt};

use rules::{Record, Rule};
use translation_emission::{EMPTY, Output};

// A record without children, then one of statement s over it.
fn emit_over(out: &mut Output, below: Record, kind: u8, mark: u8, s: usize)
    requires fact_1 { s ≤ source_limit }
    requires fact_2 { (below.a ≡ 0) × (below.b ≡ 0) × (below.c ≡ 0) }
    requires fact_3 { Room out.old (over_tree below.kind below.mark below.literal s kind mark) }
    ensures { Emitted out.old (over_tree below.kind below.mark below.literal s kind mark) out.new }
{
    out.push(below);
    out.push(Record {
        a: out.count,
        ..translation_emission::statement_record(kind, mark, s)
    });
}

// The place of a variable, into temporary 0.
fn emit_address(out: &mut Output, variable: u8, s: usize)
    requires fact_1 { s ≤ source_limit }
    requires fact_2 { RoomFor out.old 2 }
    ensures { Emitted out.old (over_tree 10 variable (pos 0) s 60 0) out.new }
{
    let place = Record {
        kind: 10,
        mark: variable,
        ..EMPTY
    };
    emit_over(out, place, 60, 0, s);
}

// At the end of a let its block is deleted.
fn emit_ending(out: &mut Output, variable: u8, s: usize)
    requires fact_1 { s ≤ source_limit }
    requires fact_2 { Room out.old (ending_tree s variable) }
    ensures { Emitted out.old (ending_tree s variable) out.new }
{
    emit_address(out, variable, s);
    let first = out.count;
    out.leaf(69, 0, 0, s);
    out.sequence(first, s);
}

// In front of a let's body its block is recorded: five records.
fn emit_opening(out: &mut Output, variable: u8, s: usize)
    requires fact_1 { s ≤ source_limit }
    requires fact_2 { RoomFor out.old 5 }
    ensures { Opened s variable out.old out.new }
{
    emit_address(out, variable, s);
    let length = Record {
        kind: 1,
        literal: 1,
        ..EMPTY
    };
    emit_over(out, length, 61, 1, s);
    out.leaf(68, 0, 0, s);
}

// Behind a let's body a sequence for each part in front of it, of which the first starts behind record `first`,
// then the let's own record.
fn emit_enclosing(out: &mut Output, first: usize, variable: u8, s: usize)
    requires fact_1 { s ≤ source_limit }
    requires fact_2 { first + 5 ≤ out.old.count }
    requires fact_3 { RoomFor out.old 4 }
    ensures { Enclosed first s variable out.old out.new }
{
    out.sequence(first + 5, s);
    out.sequence(first + 4, s);
    out.sequence(first + 2, s);
    out.push(Record {
        a: out.count,
        ..translation_emission::statement_record(47, variable, s)
    });
}

// A statement.
#[cycle(emit)]
fn emit_statement(table: &[u8], n: usize, out: &mut Output)
    requires { (StatementAt table.now n) × (Room out.old (copy_at table.now n)) }
    ensures { Emitted out.old (copy_at table.now n) out.new }
{
    match table::kind(table, n) {
        44 => emit_then(table, n, out),
        45 => emit_branch(table, n, out),
        46 => emit_repeat(table, n, out),
        47 => emit_let(table, n, out),
        _ => translation_statements::emit_simple(table, n, out),
    }
}

// A, then B.
#[cycle(emit)]
fn emit_then(table: &[u8], n: usize, out: &mut Output)
    requires { (StatementAt table.now n) × ((kind_of table.now n ≡ 44) × (Room out.old (copy_at table.now n))) }
    ensures { Emitted out.old (copy_at table.now n) out.new }
{
    let a = table::child_a(table, n);
    let b = table::child_b(table, n);
    emit_statement(table, a, out);
    let first = out.count;
    emit_statement(table, b, out);
    out.sequence(first, n);
}

// B where condition A is true, else C.
#[cycle(emit)]
fn emit_branch(table: &[u8], n: usize, out: &mut Output)
    requires { (StatementAt table.now n) × ((kind_of table.now n ≡ 45) × (Room out.old (copy_at table.now n))) }
    ensures { Emitted out.old (copy_at table.now n) out.new }
{
    let a = table::child_a(table, n);
    let b = table::child_b(table, n);
    let c = table::child_c(table, n);
    let condition = out.copy(table, a);
    emit_statement(table, b, out);
    let yes = out.count;
    emit_statement(table, c, out);
    out.push(Record {
        a: condition,
        b: yes,
        c: out.count,
        ..translation_emission::statement_record(45, 0, n)
    });
}

// B for as long as condition A is true.
#[cycle(emit)]
fn emit_repeat(table: &[u8], n: usize, out: &mut Output)
    requires { (StatementAt table.now n) × ((kind_of table.now n ≡ 46) × (Room out.old (copy_at table.now n))) }
    ensures { Emitted out.old (copy_at table.now n) out.new }
{
    let a = table::child_a(table, n);
    let b = table::child_b(table, n);
    let condition = out.copy(table, a);
    emit_statement(table, b, out);
    out.push(Record {
        a: condition,
        b: out.count,
        ..translation_emission::statement_record(46, 0, n)
    });
}

// A, with a new block of one cell for the variable.
#[cycle(emit)]
fn emit_let(table: &[u8], n: usize, out: &mut Output)
    requires { (StatementAt table.now n) × ((kind_of table.now n ≡ 47) × (Room out.old (copy_at table.now n))) }
    ensures { Emitted out.old (copy_at table.now n) out.new }
{
    let variable = table::mark(table, n);
    let first = out.count;
    emit_opening(out, variable, n);
    emit_inside(table, n, out, variable);
    emit_enclosing(out, first, variable, n);
}

// Child A of statement n, then the end of its variable's block.
#[cycle(emit)]
fn emit_inside(table: &[u8], n: usize, out: &mut Output, variable: u8)
    requires { (StatementAt table.now n) × ((kind_of table.now n ≡ 47) × (Room out.old (inside_tree table.now n variable))) }
    ensures { Emitted out.old (inside_tree table.now n variable) out.new }
{
    let a = table::child_a(table, n);
    emit_statement(table, a, out);
    let body = out.count;
    emit_ending(out, variable, n);
    out.sequence(body, n);
}

// An accepted table's translation, and its record count: 20 where the output does not hold it.
pub fn translate_accepted(table: &[u8], out: &mut [u8]) -> Result<u32, Rule>
    requires { check source table.now ≡ Ok tt }
    ensures answer { translated_answer result ≡ (translated_by (Ok tt) table.now out.old).answer }
    ensures bytes { out.new ≡ (translated_by (Ok tt) table.now out.old).out }
{
    let n = table.len() / 16;
    if out.len() < 16 * translation_sizes::tree_size(table, n) {
        return Err(Rule::Output);
    }
    let mut output = Output {
        bytes: out,
        count: 0,
    };
    emit_statement(table, n, &mut output);
    Ok(output.count as u32)
}

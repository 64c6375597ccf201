// The plain run of an accepted source table.

#![tactic(auto)]

ghost use Rattle.std.specs.Prelude.{◌≡◌, false, Ok};
ghost use Rattle.rules.specs.Checker.{check, inputs_fault, memory_fault};
ghost use Rattle.rules.specs.Nodes.{source_program, statement_at};
ghost use Rattle.rules.specs.Answers.{plain_ended, plain_outcome, plain_by, run_plain};
ghost use Rattle.rules.specs.Kinds.{source};
ghost use Rattle.rules.specs.Flow.{ending};
ghost use Rattle.rules.specs.Plain.{run, start_variables};
ghost use Rattle.rules.specs.Layout.{memory_of};
ghost use Rattle.memory_counts.specs.Counted.{Counted};
ghost use Rattle.plain_runs.specs.Running.{Ready, EndsSo};
ghost use Rattle.plain.specs.Answering.{AnsweredBy};

use rules::{
    Answer, Counts, ExecutionMemory, MEMORY_LENGTH, Progress, Rule, TABLE_LENGTH,
    TEMPORARIES_LENGTH, Table,
};
use run_endings::Ended;

// Runs statement n with the variables and temporaries of the start.
fn run_from_start(
    table: &Table,
    n: usize,
    mem: &mut ExecutionMemory,
    counts: &mut Counts,
    fuel: u32,
) -> Ended
    requires { Ready table.now n × Counted (memory_of mem.old) counts.old }
    ensures outcome { EndsSo (run (statement_at table.now n) start_variables
        (memory_of mem.old) fuel) result mem.old mem.new }
    ensures counts { Counted (memory_of mem.new) counts.new }
{
    let variables = run_variables::start_variables();
    let temporaries = [0u8; TEMPORARIES_LENGTH];
    let mut progress = Progress { fuel, statement: 0 };
    let outcome = plain_runs::run(
        table,
        n,
        &variables,
        &temporaries,
        mem,
        counts,
        &mut progress,
    );
    run_endings::conclude(outcome, progress.statement, progress.fuel)
}

// Runs an accepted table from a memory that holds the inputs.
fn run_table(table: &[u8], mem: &mut ExecutionMemory, counts: &mut Counts, fuel: u32) -> Ended
    requires { (check source table.now ≡ Ok tt)
        × Counted (memory_of mem.old) counts.old }
    ensures outcome { EndsSo (run (source_program table.now) start_variables
        (memory_of mem.old) fuel) result mem.old mem.new }
    ensures counts { Counted (memory_of mem.new) counts.new }
{
    let mut whole = [0u8; TABLE_LENGTH];
    run_buffers::copy(&mut whole[..], table);
    run_from_start(&whole, table.len() / 16, mem, counts, fuel)
}

// Lays out the inputs and runs an accepted table; the memory that it leaves is copied out.
fn run_inputs(table: &[u8], inputs: &[u8], fuel: u32, memory: &mut [u8]) -> Answer
    requires { (check source table.now ≡ Ok tt) × (inputs_fault inputs.now ≡ false)
        × (memory_fault memory.old ≡ false) }
    ensures { AnsweredBy (plain_ended (ending (plain_outcome table.now inputs.now fuel))) result
        memory.new }
{
    let mut mem = [0u8; MEMORY_LENGTH];
    memory_start::start(&mut mem, inputs);
    let mut counts = memory_counts::start(inputs.len() / 8);
    let ended = run_table(table, &mut mem, &mut counts, fuel);
    run_buffers::copy(memory, &mem[..]);
    run_endings::answer_of(ended, counts.free as u32)
}

// The plain run of an accepted table.
fn run_accepted(table: &[u8], inputs: &[u8], fuel: u32, memory: &mut [u8]) -> Answer
    requires { check source table.now ≡ Ok tt }
    ensures { AnsweredBy (plain_by (Ok tt) table.now inputs.now fuel
        memory.old) result memory.new }
{
    if run_buffers::has_inputs_fault(inputs) {
        return run_endings::refuse(Rule::Inputs, 0);
    }
    if memory.len() != MEMORY_LENGTH {
        return run_endings::refuse(Rule::Memory, 0);
    }
    run_inputs(table, inputs, fuel, memory)
}

// The plain run of a source table: what it answers, and what it leaves in the memory.
pub fn run_plain(table: &[u8], inputs: &[u8], fuel: u32, memory: &mut [u8]) -> Answer
    ensures { AnsweredBy (run_plain table.now inputs.now fuel memory.old) result
        memory.new }
{
    match checker::check_source(table) {
        Ok(()) => run_accepted(table, inputs, fuel, memory),
        Err(refusal) => run_endings::refuse(refusal.rule, refusal.record),
    }
}

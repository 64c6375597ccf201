// The watched run of an accepted target table.

#![tactic(auto)]

ghost use Rattle.std.specs.Prelude.{◌≡◌, false, Ok};
ghost use Rattle.rules.specs.Kinds.{target};
ghost use Rattle.rules.specs.Checker.{check, inputs_fault, memory_fault, observation_fault};
ghost use Rattle.rules.specs.Nodes.{target_program, target_statement_at};
ghost use Rattle.rules.specs.Flow.{ending};
ghost use Rattle.rules.specs.Plain.{start_variables};
ghost use Rattle.rules.specs.Watched.{watching, watch, start_temporaries};
ghost use Rattle.rules.specs.Layout.{memory_of, memory_image, observation_of};
ghost use Rattle.rules.specs.Memory.{start_memory};
ghost use Rattle.rules.specs.Answers.{inputs_of, watched_ended, watched_outcome, watched_by, run_watched};
ghost use Rattle.memory_counts.specs.Counted.{Counted};
ghost use Rattle.watched_statements.specs.Watching.{Beside, Ready, Leaves, AnsweredBy};

use rules::{
    Answer, CELL_COUNT, Counts, ExecutionMemory, MEMORY_LENGTH, MarkOwners, OBSERVATION_LENGTH,
    ObservationMemory, Rule, TABLE_LENGTH, TEMPORARIES_LENGTH, Table,
};
use run_endings::Ended;

// Runs statement n with the variables and temporaries of the start.
fn run_from_start(
    table: &Table,
    n: usize,
    mem: &mut ExecutionMemory,
    obs: &mut ObservationMemory,
    owners: &mut MarkOwners,
    counts: &mut Counts,
    fuel: u32,
) -> Ended
    requires { Ready table.now n × Beside mem.old obs.old counts.old owners.old }
    ensures outcome { Leaves (watch (target_statement_at table.now n) start_variables
        (watching (memory_of mem.old) (observation_of obs.old) start_temporaries) fuel) result
        mem.old mem.new obs.old obs.new }
    ensures counts { Counted (memory_of mem.new) counts.new }
{
    let variables = run_variables::start_variables();
    let mut temporaries = [0u8; TEMPORARIES_LENGTH];
    watched_runs::run(
        table,
        n,
        &variables,
        &mut temporaries,
        mem,
        obs,
        owners,
        counts,
        fuel,
    )
}

// Runs an accepted table from memories of the start.
fn run_table(
    table: &[u8],
    mem: &mut ExecutionMemory,
    obs: &mut ObservationMemory,
    owners: &mut MarkOwners,
    counts: &mut Counts,
    fuel: u32,
) -> Ended
    requires { (check target table.now ≡ Ok tt)
        × Beside mem.old obs.old counts.old owners.old }
    ensures outcome { Leaves (watch (target_program table.now) start_variables
        (watching (memory_of mem.old) (observation_of obs.old) start_temporaries) fuel) result
        mem.old mem.new obs.old obs.new }
    ensures counts { Counted (memory_of mem.new) counts.new }
{
    let mut whole = [0u8; TABLE_LENGTH];
    run_buffers::copy(&mut whole[..], table);
    run_from_start(&whole, table.len() / 16, mem, obs, owners, counts, fuel)
}

// Records the inputs in the observation memory and runs an accepted table.
fn run_memories(
    table: &[u8],
    inputs: &[u8],
    fuel: u32,
    mem: &mut ExecutionMemory,
    obs: &mut ObservationMemory,
) -> Answer
    requires { (check target table.now ≡ Ok tt) × (inputs_fault inputs.now ≡ false)
        × (mem.old ≡ memory_image (start_memory (inputs_of inputs.now))) }
    ensures { AnsweredBy (watched_ended (ending (watched_outcome table.now inputs.now fuel))) result
        mem.new obs.new }
{
    let mut owners = MarkOwners {
        names: [0u16; CELL_COUNT],
        lowest: 0,
    };
    watched_noting::start_observation(obs, &mut owners, inputs.len() / 8);
    let mut counts = memory_counts::start(inputs.len() / 8);
    let ended = run_table(table, mem, obs, &mut owners, &mut counts, fuel);
    run_endings::answer_of(ended, counts.free as u32)
}

// Lays out the inputs first; what the run leaves in both memories is copied out. Each memory is made just before it is
// cleared, so that the compiler clears it once.
fn run_inputs(
    table: &[u8],
    inputs: &[u8],
    fuel: u32,
    memory: &mut [u8],
    observation: &mut [u8],
) -> Answer
    requires { (check target table.now ≡ Ok tt) × (inputs_fault inputs.now ≡ false)
        × (memory_fault memory.old ≡ false) × (observation_fault observation.old ≡ false) }
    ensures { AnsweredBy (watched_ended (ending (watched_outcome table.now inputs.now fuel))) result
        memory.new observation.new }
{
    let mut mem = [0u8; MEMORY_LENGTH];
    memory_start::start(&mut mem, inputs);
    let mut obs = [0u8; OBSERVATION_LENGTH];
    let answer = run_memories(table, inputs, fuel, &mut mem, &mut obs);
    run_buffers::copy(memory, &mem[..]);
    run_buffers::copy(observation, &obs[..]);
    answer
}

// The watched run of an accepted table.
fn run_accepted(
    table: &[u8],
    inputs: &[u8],
    fuel: u32,
    memory: &mut [u8],
    observation: &mut [u8],
) -> Answer
    requires { check target table.now ≡ Ok tt }
    ensures { AnsweredBy (watched_by (Ok tt) table.now inputs.now fuel
        memory.old observation.old) result memory.new observation.new }
{
    if run_buffers::has_inputs_fault(inputs) {
        return run_endings::refuse(Rule::Inputs, 0);
    }
    if memory.len() != MEMORY_LENGTH {
        return run_endings::refuse(Rule::Memory, 0);
    }
    if observation.len() != OBSERVATION_LENGTH {
        return run_endings::refuse(Rule::Observation, 0);
    }
    run_inputs(table, inputs, fuel, memory, observation)
}

// The watched run of a target table: what it answers, and what it leaves in both memories.
pub fn run_watched(
    table: &[u8],
    inputs: &[u8],
    fuel: u32,
    memory: &mut [u8],
    observation: &mut [u8],
) -> Answer
    ensures { AnsweredBy (run_watched table.now inputs.now fuel memory.old
        observation.old) result memory.new observation.new }
{
    match checker::check_target(table) {
        Ok(()) => run_accepted(table, inputs, fuel, memory, observation),
        Err(refusal) => run_endings::refuse(refusal.rule, refusal.record),
    }
}

// The entry points that a C host links, documented in include/recorder.h; and demand 3 of them, which is `run_both`.

#![tactic(auto)]

ghost use Rattle.std.specs.Prelude.{◌≡◌, Ok};
ghost use Rattle.rules.specs.Answers.{answer, checked_answer, check_source, check_target};
ghost use Rattle.rules.specs.Answers.{translate_source, run_plain, run_watched};
ghost use Rattle.rules.specs.Kinds.{source};
ghost use Rattle.rules.specs.Checker.{check};
ghost use Rattle.rules.specs.Sizes.{memory_length, observation_length};
ghost use Rattle.recorder.specs.BothRuns.{lent, both, Ready, AnsweredBoth};
ghost use Rattle.recorder.specs.Version.{rules_version, lengths, lengths_of};

use rules::{Answer, Checked, MEMORY_LENGTH, OBSERVATION_LENGTH, Rule};

// The version of the rules; the lengths of the memories that it means are those that the runs ask for.
#[unsafe(no_mangle)]
pub extern "C" fn recorder_version() -> u32
    ensures number { result ≡ rules_version }
    ensures sizes { lengths_of result ≡ lengths memory_length observation_length }
{
    2
}

// What is not refused is answered 0, with a record count where it has one.
fn accept(record: u32) -> Answer
    ensures { result ≡ answer 0 «record» 0 0 }
{
    Answer {
        number: 0,
        record,
        fuel: 0,
        free_cells: 0,
    }
}

// A checker's word as an answer: 0 and record 0, or the refusal's number and record.
fn answer_of(c: Checked) -> Answer
    ensures { result ≡ checked_answer c }
{
    match c {
        Ok(()) => accept(0),
        Err(refusal) => run_endings::refuse(refusal.rule, refusal.record),
    }
}

#[unsafe(no_mangle)]
pub extern "C" fn recorder_check_source(table: &[u8]) -> Answer
    ensures { result ≡ check_source table.now }
{
    answer_of(checker::check_source(table))
}

#[unsafe(no_mangle)]
pub extern "C" fn recorder_check_target(table: &[u8]) -> Answer
    ensures { result ≡ check_target table.now }
{
    answer_of(checker::check_target(table))
}

#[unsafe(no_mangle)]
pub extern "C" fn recorder_translate(table: &[u8], out: &mut [u8]) -> Answer
    ensures answer { result ≡ (translate_source table.now out.old).answer }
    ensures output { out.new ≡ (translate_source table.now out.old).out }
{
    if let Err(refusal) = checker::check_source(table) {
        return run_endings::refuse(refusal.rule, refusal.record);
    }
    match translation::translate_accepted(table, out) {
        Ok(count) => accept(count),
        Err(rule) => run_endings::refuse(rule, 0),
    }
}

#[unsafe(no_mangle)]
pub extern "C" fn recorder_run_plain(
    table: &[u8],
    inputs: &[u8],
    fuel: u32,
    memory: &mut [u8],
) -> Answer
    ensures answer { result ≡ (run_plain table.now inputs.now fuel memory.old).answer }
    ensures memory { memory.new ≡ (run_plain table.now inputs.now fuel
        memory.old).memory }
{
    plain::run_plain(table, inputs, fuel, memory)
}

#[unsafe(no_mangle)]
pub extern "C" fn recorder_run_watched(
    table: &[u8],
    inputs: &[u8],
    fuel: u32,
    memory: &mut [u8],
    observation: &mut [u8],
) -> Answer
    ensures answer { result ≡ (run_watched table.now inputs.now fuel memory.old
        observation.old).answer }
    ensures memory { memory.new ≡ (run_watched table.now inputs.now fuel
        memory.old observation.old).memory }
    ensures observation { observation.new ≡ (run_watched table.now inputs.now fuel
        memory.old observation.old).observation }
{
    watched::run_watched(table, inputs, fuel, memory, observation)
}

// The answers of a plain run and of a watched run.
#[derive(Clone, Copy)]
pub struct Both {
    pub plain: Answer,
    pub watched: Answer,
}

// A refusal is the answer of both.
fn refuse_both(number: u32, record: u32) -> Both
    ensures { result ≡ both (answer number «record» 0 0) (answer number «record» 0 0) }
{
    let refused = run_endings::refuse(number, record);
    Both {
        plain: refused,
        watched: refused,
    }
}

// The plain run of a table, and the watched run of its target.
fn run_pair(
    table: &[u8],
    target: &[u8],
    inputs: &[u8],
    fuel: u32,
    memory: &mut [u8],
    second: &mut [u8],
    observation: &mut [u8],
) -> Both
    ensures answers { result ≡ both (run_plain table.now inputs.now fuel
        memory.old).answer (run_watched target.now inputs.now fuel
        second.old observation.old).answer }
    ensures memory { memory.new ≡ (run_plain table.now inputs.now fuel
        memory.old).memory }
    ensures second { second.new ≡ (run_watched target.now inputs.now fuel
        second.old observation.old).memory }
    ensures observation { observation.new ≡ (run_watched target.now inputs.now fuel
        second.old observation.old).observation }
{
    let plain = recorder_run_plain(table, inputs, fuel, memory);
    let watched = recorder_run_watched(target, inputs, fuel, second, observation);
    Both { plain, watched }
}

// Translates an accepted table, and runs it and its translation. 20 where the output does not hold the translation.
fn run_translated(
    table: &[u8],
    inputs: &[u8],
    fuel: u32,
    out: &mut [u8],
    memory: &mut [u8],
    second: &mut [u8],
    observation: &mut [u8],
) -> Both
    requires { Ready table.now inputs.now
        (lent out.old memory.old second.old observation.old) }
    ensures { AnsweredBoth table.now inputs.now fuel
        (lent out.old memory.old second.old observation.old)
        result.plain result.watched
        (lent out.new memory.new second.new observation.new) }
{
    let translated = recorder_translate(table, out);
    if translated.number != 0 {
        return refuse_both(Rule::Output.into(), 0);
    }
    run_pair(
        table,
        &out[..translated.record as usize * 16],
        inputs,
        fuel,
        memory,
        second,
        observation,
    )
}

// The same with the inputs and the buffers tested first: 9, 21 for either memory, 22.
fn run_accepted(
    table: &[u8],
    inputs: &[u8],
    fuel: u32,
    out: &mut [u8],
    memory: &mut [u8],
    second: &mut [u8],
    observation: &mut [u8],
) -> Both
    requires { check source table.now ≡ Ok tt }
    ensures { AnsweredBoth table.now inputs.now fuel
        (lent out.old memory.old second.old observation.old)
        result.plain result.watched
        (lent out.new memory.new second.new observation.new) }
{
    if run_buffers::has_inputs_fault(inputs) {
        return refuse_both(Rule::Inputs.into(), 0);
    }
    if memory.len() != MEMORY_LENGTH || second.len() != MEMORY_LENGTH {
        return refuse_both(Rule::Memory.into(), 0);
    }
    if observation.len() != OBSERVATION_LENGTH {
        return refuse_both(Rule::Observation.into(), 0);
    }
    run_translated(table, inputs, fuel, out, memory, second, observation)
}

// Demand 3 of the entry points: checks a source table, translates it, and runs it and its translation, each with a
// memory of its own, by the functions that a C host calls. A refusal is the answer of both, and then no lent byte is
// written.
pub fn run_both(
    table: &[u8],
    inputs: &[u8],
    fuel: u32,
    out: &mut [u8],
    memory: &mut [u8],
    second: &mut [u8],
    observation: &mut [u8],
) -> Both
    ensures { AnsweredBoth table.now inputs.now fuel
        (lent out.old memory.old second.old observation.old)
        result.plain result.watched
        (lent out.new memory.new second.new observation.new) }
{
    let checked = recorder_check_source(table);
    if checked.number != 0 {
        return refuse_both(checked.number, checked.record);
    }
    run_accepted(table, inputs, fuel, out, memory, second, observation)
}

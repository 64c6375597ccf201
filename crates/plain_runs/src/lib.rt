// The plain run of a statement, by recursion on the record number; sequences and the turns of a while are loops.

#![tactic(auto)]

ghost use Rattle.std.specs.Prelude.{◌≡◌, ◌≢◌};
ghost use Rattle.rules.specs.Kinds.{expression, predicate, source};
ghost use Rattle.rules.specs.Records.{kind_of, child_a};
ghost use Rattle.rules.specs.Evaluation.{evaluate_source, evaluate_predicate, condition};
ghost use Rattle.rules.specs.Plain.{run};
ghost use Rattle.rules.specs.Layout.{memory_of};
ghost use Rattle.rules.specs.Nodes.{HasSort, expression_at, predicate_at, statement_at};
ghost use Rattle.table.specs.Within.{Within};
ghost use Rattle.memory_counts.specs.Counted.{Counted};
ghost use Rattle.memory_freeing.specs.LetBlocks.{LetBlock};
ghost use Rattle.evaluation.specs.State.{variables_of};
ghost use Rattle.plain_runs.specs.Running.{Ready, Inside, enclosed, Ran, CountsKept};

use rules::{Counts, ExecutionMemory, Progress, Stop, Table, Temporaries, Test, Use, Variables};

// What condition A says.
fn test_a(
    table: &Table,
    n: usize,
    variables: &Variables,
    temporaries: &Temporaries,
    mem: &ExecutionMemory,
) -> Test
    requires { Within table.now n × HasSort source expression table.now (child_a table.now n) }
    ensures { result ≡ condition (evaluate_source (expression_at table.now (child_a table.now n))
        (variables_of variables.now) (memory_of mem.now)) }
{
    run_children::test_a(table, n, variables, temporaries, mem)
}

// What predicate A says.
#[tactic(auto, using(value::proofs::TestLaws::tests_condition))]
fn test_predicate(
    table: &Table,
    n: usize,
    variables: &Variables,
    temporaries: &Temporaries,
    mem: &ExecutionMemory,
) -> Test
    requires { Within table.now n × HasSort source predicate table.now (child_a table.now n) }
    ensures { result ≡ condition (evaluate_predicate (predicate_at table.now (child_a table.now n))
        (variables_of variables.now) (memory_of mem.now)) }
{
    let a = table::child_a(&table[..], n);
    value::test(evaluation_predicates::evaluate_predicate(table, a, variables, temporaries, mem))
}

// Place A takes expression B. Not inlined, nor is 42: `run` has the rest in it, and each part of a statement that it
// runs would save what these need too.
#[inline(never)]
fn assign(
    table: &Table,
    n: usize,
    variables: &Variables,
    temporaries: &Temporaries,
    mem: &mut ExecutionMemory,
    progress: &mut Progress,
) -> Result<(), Stop>
    requires { Ready table.now n
        × (kind_of table.now n ≡ 41) }
    ensures outcome { Ran (run (statement_at table.now n) (variables_of variables.now)
        (memory_of mem.old) progress.old.fuel) result progress.new
        mem.old mem.new }
    ensures counts { CountsKept mem.old mem.new }
{
    let place = run_children::find_a(table, n, variables, temporaries, &*mem);
    let value = run_children::evaluate_b(table, n, variables, temporaries, &*mem);
    let outcome = run_changes::store_at(mem, place, value);
    run_endings::stop_at(progress, outcome, n as u32)
}

// Place A takes a new block of B cells.
#[inline(never)]
fn allocate(
    table: &Table,
    n: usize,
    variables: &Variables,
    temporaries: &Temporaries,
    mem: &mut ExecutionMemory,
    counts: &mut Counts,
    progress: &mut Progress,
) -> Result<(), Stop>
    requires { Ready table.now n
        × (kind_of table.now n ≡ 42)
        × Counted (memory_of mem.old) counts.old }
    ensures outcome { Ran (run (statement_at table.now n) (variables_of variables.now)
        (memory_of mem.old) progress.old.fuel) result progress.new
        mem.old mem.new }
    ensures counts { Counted (memory_of mem.new) counts.new }
{
    let place = run_children::find_a(table, n, variables, temporaries, &*mem);
    let size = run_children::evaluate_b(table, n, variables, temporaries, &*mem);
    let outcome = run_allocation::new_at(mem, counts, place, size);
    run_endings::stop_at(progress, outcome, n as u32)
}

// What A points to is freed.
fn release(
    table: &Table,
    n: usize,
    variables: &Variables,
    temporaries: &Temporaries,
    mem: &mut ExecutionMemory,
    counts: &mut Counts,
    progress: &mut Progress,
) -> Result<(), Stop>
    requires { Ready table.now n
        × (kind_of table.now n ≡ 43)
        × Counted (memory_of mem.old) counts.old }
    ensures outcome { Ran (run (statement_at table.now n) (variables_of variables.now)
        (memory_of mem.old) progress.old.fuel) result progress.new
        mem.old mem.new }
    ensures counts { Counted (memory_of mem.new) counts.new }
{
    let value = run_children::evaluate_a(table, n, variables, temporaries, &*mem);
    let outcome = run_changes::free_at(mem, counts, value);
    run_endings::stop_at(progress, outcome, n as u32)
}

// Predicate A is asserted.
fn assert(
    table: &Table,
    n: usize,
    variables: &Variables,
    temporaries: &Temporaries,
    mem: &ExecutionMemory,
    progress: &mut Progress,
) -> Result<(), Stop>
    requires { Ready table.now n
        × (kind_of table.now n ≡ 48) }
    ensures { Ran (run (statement_at table.now n) (variables_of variables.now)
        (memory_of mem.now) progress.old.fuel) result progress.new
        mem.now mem.now }
{
    let outcome = run_endings::assert_true(test_predicate(table, n, variables, temporaries, mem));
    run_endings::stop_at(progress, outcome, n as u32)
}

// Runs statement n. Of a sequence A runs, and B where A finished; as B may be one again, they are a loop. Only an A
// that is a sequence is run by a call of its own. Where nothing follows, how that part comes out is the whole's outcome.
#[cycle(run)]
pub fn run(
    table: &Table,
    n: usize,
    variables: &Variables,
    temporaries: &Temporaries,
    mem: &mut ExecutionMemory,
    counts: &mut Counts,
    progress: &mut Progress,
) -> Result<(), Stop>
    requires { Ready table.now n
        × Counted (memory_of mem.old) counts.old }
    ensures outcome { Ran (run (statement_at table.now n) (variables_of variables.now)
        (memory_of mem.old) progress.old.fuel) result progress.new
        mem.old mem.new }
    ensures counts { Counted (memory_of mem.new) counts.new }
{
    let mut at = n;
    loop {
        let first = run_children::first_of(table, at);
        if table::kind(&table[..], first) == 44 {
            run(table, first, variables, temporaries, mem, counts, progress)?;
            let Some(then) = run_children::rest_of(table, at) else {
                return Ok(());
            };
            at = then;
        } else {
            let outcome = run_single(table, first, variables, temporaries, mem, counts, progress);
            let Some(then) = run_children::rest_of(table, at) else {
                return outcome;
            };
            outcome?;
            at = then;
        }
    }
}

// Runs statement n, which is no sequence.
#[cycle(run)]
fn run_single(
    table: &Table,
    n: usize,
    variables: &Variables,
    temporaries: &Temporaries,
    mem: &mut ExecutionMemory,
    counts: &mut Counts,
    progress: &mut Progress,
) -> Result<(), Stop>
    requires { Ready table.now n
        × (kind_of table.now n ≢ 44)
        × Counted (memory_of mem.old) counts.old }
    ensures outcome { Ran (run (statement_at table.now n) (variables_of variables.now)
        (memory_of mem.old) progress.old.fuel) result progress.new
        mem.old mem.new }
    ensures counts { Counted (memory_of mem.new) counts.new }
{
    match table::kind(&table[..], n) {
        40 => Ok(()),
        41 => assign(table, n, variables, temporaries, mem, progress),
        42 => allocate(table, n, variables, temporaries, mem, counts, progress),
        43 => release(table, n, variables, temporaries, mem, counts, progress),
        45 => branch(table, n, variables, temporaries, mem, counts, progress),
        46 => repeat(table, n, variables, temporaries, mem, counts, progress),
        47 => enclose(table, n, variables, temporaries, mem, counts, progress),
        _ => assert(table, n, variables, temporaries, &*mem, progress),
    }
}

// B where condition A is true, else C.
#[cycle(run)]
fn branch(
    table: &Table,
    n: usize,
    variables: &Variables,
    temporaries: &Temporaries,
    mem: &mut ExecutionMemory,
    counts: &mut Counts,
    progress: &mut Progress,
) -> Result<(), Stop>
    requires { Ready table.now n
        × (kind_of table.now n ≡ 45)
        × Counted (memory_of mem.old) counts.old }
    ensures outcome { Ran (run (statement_at table.now n) (variables_of variables.now)
        (memory_of mem.old) progress.old.fuel) result progress.new
        mem.old mem.new }
    ensures counts { Counted (memory_of mem.new) counts.new }
{
    match test_a(table, n, variables, temporaries, &*mem) {
        Ok(true) => {
            let b = table::child_b(&table[..], n);
            run(table, b, variables, temporaries, mem, counts, progress)
        }
        Ok(false) => {
            let c = table::child_c(&table[..], n);
            run(table, c, variables, temporaries, mem, counts, progress)
        }
        Err(stop) => run_endings::stop_at(progress, Err(stop), n as u32),
    }
}

// B for as long as condition A is true. Each turn takes its unit of fuel before the condition.
#[cycle(run)]
fn repeat(
    table: &Table,
    n: usize,
    variables: &Variables,
    temporaries: &Temporaries,
    mem: &mut ExecutionMemory,
    counts: &mut Counts,
    progress: &mut Progress,
) -> Result<(), Stop>
    requires { Ready table.now n
        × (kind_of table.now n ≡ 46)
        × Counted (memory_of mem.old) counts.old }
    ensures outcome { Ran (run (statement_at table.now n) (variables_of variables.now)
        (memory_of mem.old) progress.old.fuel) result progress.new
        mem.old mem.new }
    ensures counts { Counted (memory_of mem.new) counts.new }
{
    let b = table::child_b(&table[..], n);
    while progress.fuel > 0 {
        run_endings::take_fuel(progress);
        match test_a(table, n, variables, temporaries, &*mem) {
            Ok(true) => run(table, b, variables, temporaries, mem, counts, progress)?,
            Ok(false) => return Ok(()),
            Err(stop) => return run_endings::stop_at(progress, Err(stop), n as u32),
        }
    }
    run_endings::stop_at(progress, Err(Stop::NoFuel), n as u32)
}

// A, with a new block of one cell for the variable.
#[cycle(run)]
fn enclose(
    table: &Table,
    n: usize,
    variables: &Variables,
    temporaries: &Temporaries,
    mem: &mut ExecutionMemory,
    counts: &mut Counts,
    progress: &mut Progress,
) -> Result<(), Stop>
    requires { Ready table.now n
        × (kind_of table.now n ≡ 47)
        × Counted (memory_of mem.old) counts.old }
    ensures outcome { Ran (run (statement_at table.now n) (variables_of variables.now)
        (memory_of mem.old) progress.old.fuel) result progress.new
        mem.old mem.new }
    ensures counts { Counted (memory_of mem.new) counts.new }
{
    match memory_blocks::make(mem, counts, Use::Fixed, 1) {
        Ok(k) => run_inside(table, n, *variables, temporaries, mem, counts, progress, k),
        Err(stop) => run_endings::stop_at(progress, Err(stop), n as u32),
    }
}

// Child A of statement n, its variable being block k, which then ends where A finished.
#[cycle(run)]
fn run_inside(
    table: &Table,
    n: usize,
    variables: Variables,
    temporaries: &Temporaries,
    mem: &mut ExecutionMemory,
    counts: &mut Counts,
    progress: &mut Progress,
    k: u16,
) -> Result<(), Stop>
    requires { Inside table.now n
        × Counted (memory_of mem.old) counts.old
        × LetBlock (memory_of mem.old) k }
    ensures outcome { Ran (enclosed table.now n (variables_of variables)
        (memory_of mem.old) progress.old.fuel k) result progress.new
        mem.old mem.new }
    ensures counts { Counted (memory_of mem.new) counts.new }
{
    let v = table::mark(&table[..], n) as usize;
    let mut inner = variables;
    inner[v] = k;
    let a = table::child_a(&table[..], n);
    run(table, a, &inner, temporaries, mem, counts, progress)?;
    memory_freeing::end(mem, counts, k);
    Ok(())
}

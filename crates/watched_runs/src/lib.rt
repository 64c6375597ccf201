// The watched run of a statement, by recursion on the record number; sequences and the turns of a while are loops.

#![tactic(auto)]

ghost use Rattle.std.specs.Prelude.{◌≡◌};
ghost use Rattle.rules.specs.Records.{kind_of};
ghost use Rattle.rules.specs.Layout.{memory_of};
ghost use Rattle.memory_freeing.specs.LetBlocks.{LetBlock};
ghost use Rattle.evaluation.specs.State.{variables_of};
ghost use Rattle.watched_choices.specs.Branches.{IsBranch};
ghost use Rattle.watched_statements.specs.Watching.{lent, Beside, Ready, Inside, enclosed, Ran, Runs};

use rules::{
    Counts, ExecutionMemory, MarkOwners, ObservationMemory, Stop, Table, Temporaries, Use,
    Variables,
};
use run_endings::{Ended, Stopped};

// Runs statement n. Of a sequence A runs, and B where A finished; as B may be one again, they are a loop. Only an A
// that is a sequence is run by a call of its own. One match tells all kinds apart, so that from a statement that runs no
// other the way to the next one is a jump.
#[cycle(run)]
pub fn run(
    table: &Table,
    n: usize,
    variables: &Variables,
    temporaries: &mut Temporaries,
    mem: &mut ExecutionMemory,
    obs: &mut ObservationMemory,
    owners: &mut MarkOwners,
    counts: &mut Counts,
    fuel: u32,
) -> Ended
    requires { Ready table.now n
        × Beside mem.old obs.old counts.old owners.old }
    ensures outcome { Runs table.now n (variables_of variables.now) fuel result
        (lent mem.old obs.old temporaries.old)
        (lent mem.new obs.new temporaries.new) }
    ensures beside { Beside mem.new obs.new counts.new owners.new }
{
    let mut next = Some(n);
    let mut left = fuel;
    while let Some(at) = next {
        let first = run_children::first_of(table, at);
        next = run_children::rest_of(table, at);
        left = match table::kind(&table[..], first) {
            44 => run(
                table,
                first,
                variables,
                temporaries,
                mem,
                obs,
                owners,
                counts,
                left,
            )?,
            45 | 66 => branch(
                table,
                first,
                variables,
                temporaries,
                mem,
                obs,
                owners,
                counts,
                left,
            )?,
            46 => repeat(
                table,
                first,
                variables,
                temporaries,
                mem,
                obs,
                owners,
                counts,
                left,
            )?,
            47 => enclose(
                table,
                first,
                variables,
                temporaries,
                mem,
                obs,
                owners,
                counts,
                left,
            )?,
            _ => watched_statements::step(
                table,
                first,
                variables,
                temporaries,
                mem,
                obs,
                owners,
                counts,
                left,
            )?,
        };
    }
    Ok(left)
}

// B or C, by a condition or a temporary.
#[cycle(run)]
fn branch(
    table: &Table,
    n: usize,
    variables: &Variables,
    temporaries: &mut Temporaries,
    mem: &mut ExecutionMemory,
    obs: &mut ObservationMemory,
    owners: &mut MarkOwners,
    counts: &mut Counts,
    fuel: u32,
) -> Ended
    requires { Ready table.now n
        × IsBranch (kind_of table.now n)
        × Beside mem.old obs.old counts.old owners.old }
    ensures outcome { Runs table.now n (variables_of variables.now) fuel result
        (lent mem.old obs.old temporaries.old)
        (lent mem.new obs.new temporaries.new) }
    ensures beside { Beside mem.new obs.new counts.new owners.new }
{
    let then = table::child_b(&table[..], n);
    let other = table::child_c(&table[..], n);
    match watched_choices::test(table, n, variables, &*temporaries, &*mem) {
        Ok(true) => run(
            table,
            then,
            variables,
            temporaries,
            mem,
            obs,
            owners,
            counts,
            fuel,
        ),
        Ok(false) => run(
            table,
            other,
            variables,
            temporaries,
            mem,
            obs,
            owners,
            counts,
            fuel,
        ),
        Err(stop) => Err(Stopped {
            stop,
            statement: watched_choices::statement_of(table, n),
            fuel,
        }),
    }
}

// B for as long as condition A is true. Each turn takes its unit of fuel before the condition.
#[cycle(run)]
fn repeat(
    table: &Table,
    n: usize,
    variables: &Variables,
    temporaries: &mut Temporaries,
    mem: &mut ExecutionMemory,
    obs: &mut ObservationMemory,
    owners: &mut MarkOwners,
    counts: &mut Counts,
    fuel: u32,
) -> Ended
    requires { Ready table.now n
        × (kind_of table.now n ≡ 46)
        × Beside mem.old obs.old counts.old owners.old }
    ensures outcome { Runs table.now n (variables_of variables.now) fuel result
        (lent mem.old obs.old temporaries.old)
        (lent mem.new obs.new temporaries.new) }
    ensures beside { Beside mem.new obs.new counts.new owners.new }
{
    let body = table::child_b(&table[..], n);
    let mut left = fuel;
    while left > 0 {
        left -= 1;
        match run_children::test_a(table, n, variables, &*temporaries, &*mem) {
            Ok(true) => {
                left = run(
                    table,
                    body,
                    variables,
                    temporaries,
                    mem,
                    obs,
                    owners,
                    counts,
                    left,
                )?;
            }
            Ok(false) => return Ok(left),
            Err(stop) => {
                return Err(Stopped {
                    stop,
                    statement: watched_choices::statement_of(table, n),
                    fuel: left,
                });
            }
        }
    }
    Err(Stopped {
        stop: Stop::NoFuel,
        statement: watched_choices::statement_of(table, n),
        fuel: 0,
    })
}

// A, with a new block of one cell for the variable.
#[cycle(run)]
fn enclose(
    table: &Table,
    n: usize,
    variables: &Variables,
    temporaries: &mut Temporaries,
    mem: &mut ExecutionMemory,
    obs: &mut ObservationMemory,
    owners: &mut MarkOwners,
    counts: &mut Counts,
    fuel: u32,
) -> Ended
    requires { Ready table.now n
        × (kind_of table.now n ≡ 47)
        × Beside mem.old obs.old counts.old owners.old }
    ensures outcome { Runs table.now n (variables_of variables.now) fuel result
        (lent mem.old obs.old temporaries.old)
        (lent mem.new obs.new temporaries.new) }
    ensures beside { Beside mem.new obs.new counts.new owners.new }
{
    match memory_blocks::make(mem, counts, Use::Fixed, 1) {
        Ok(name) => run_inside(
            table,
            n,
            *variables,
            temporaries,
            mem,
            obs,
            owners,
            counts,
            fuel,
            name,
        ),
        Err(stop) => Err(Stopped {
            stop,
            statement: watched_choices::statement_of(table, n),
            fuel,
        }),
    }
}

// Child A of statement n, its variable being the block of this name, which ends where A finished.
#[cycle(run)]
fn run_inside(
    table: &Table,
    n: usize,
    variables: Variables,
    temporaries: &mut Temporaries,
    mem: &mut ExecutionMemory,
    obs: &mut ObservationMemory,
    owners: &mut MarkOwners,
    counts: &mut Counts,
    fuel: u32,
    name: u16,
) -> Ended
    requires { Inside table.now n
        × Beside mem.old obs.old counts.old owners.old
        × LetBlock (memory_of mem.old) name }
    ensures outcome { Ran (enclosed table.now n (variables_of variables)
        (lent mem.old obs.old temporaries.old) fuel name) result
        (lent mem.old obs.old temporaries.old)
        (lent mem.new obs.new temporaries.new) }
    ensures beside { Beside mem.new obs.new counts.new owners.new }
{
    let variable = table::mark(&table[..], n) as usize;
    let mut inner = variables;
    inner[variable] = name;
    let body = table::child_a(&table[..], n);
    let left = run(
        table,
        body,
        &inner,
        temporaries,
        mem,
        obs,
        owners,
        counts,
        fuel,
    )?;
    memory_freeing::end(mem, counts, name);
    Ok(left)
}

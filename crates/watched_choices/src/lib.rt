// The source statement that a target record came from, and what a branch tests.

#![tactic(auto)]

ghost use Rattle.std.specs.Prelude.{◌≡◌};
ghost use Rattle.rules.specs.Kinds.{statement, target};
ghost use Rattle.rules.specs.Records.{kind_of};
ghost use Rattle.rules.specs.Layout.{memory_of};
ghost use Rattle.rules.specs.Nodes.{HasSort, number_at};
ghost use Rattle.evaluation.specs.State.{variables_of};
ghost use Rattle.evaluation_temporaries.specs.Bytes.{temporaries_of};
ghost use Rattle.watched_choices.specs.Branches.{IsBranch, choice};

use rules::{ExecutionMemory, Table, Temporaries, Test, Variables};

// The source statement that record n came from.
pub fn statement_of(table: &Table, n: usize) -> u32
    requires { HasSort target statement table.now n }
    ensures { result ≡ number_at table.now n }
{
    let literal = table::literal(&table[..], n);
    literal as u32
}

// What decides between B and C: condition A of 45, the temporary of 66.
pub fn test(
    table: &Table,
    n: usize,
    variables: &Variables,
    temporaries: &Temporaries,
    mem: &ExecutionMemory,
) -> Test
    requires { HasSort target statement table.now n × IsBranch (kind_of table.now n) }
    ensures { result ≡ choice table.now n (temporaries_of temporaries.now)
        (variables_of variables.now) (memory_of mem.now) }
{
    if table::kind(&table[..], n) == 66 {
        return watched_steps::test_temporary(temporaries, table::mark(&table[..], n) as usize);
    }
    run_children::test_a(table, n, variables, temporaries, mem)
}

// A statement's place, values, condition and parts, which are its children.

#![tactic(auto)]

ghost use Rattle.std.specs.Prelude.{◌≡◌};
ghost use Rattle.rules.specs.Records.{child_a, child_b};
ghost use Rattle.rules.specs.Kinds.{target, sort_number, expression, place};
ghost use Rattle.rules.specs.Nodes.{sort_of_node, node_at};
ghost use Rattle.rules.specs.Evaluation.{condition};
ghost use Rattle.table.specs.Within.{Within};
ghost use Rattle.run_children.specs.Children.{found_in, value_in, first_of, rest_of};

use rules::{Evaluated, ExecutionMemory, Found, Table, Temporaries, Test, Variables};

// The place that is child A of statement n.
pub fn find_a(
    table: &Table,
    n: usize,
    variables: &Variables,
    temporaries: &Temporaries,
    mem: &ExecutionMemory,
) -> Found
    requires { Within table.now n
        × (sort_of_node target (node_at target table.now (child_a table.now n)) ≡ sort_number place) }
    ensures { result ≡ found_in table.now (child_a table.now n)
        variables.now temporaries.now mem.now }
{
    let place = table::child_a(&table[..], n);
    evaluation::find_place(table, place, variables, temporaries, mem)
}

// The value of child A. What 43 frees and 61 takes is most often a read, whose place is found here and not by a call:
// each of them takes this in whole.
#[inline(always)]
pub fn evaluate_a(
    table: &Table,
    n: usize,
    variables: &Variables,
    temporaries: &Temporaries,
    mem: &ExecutionMemory,
) -> Evaluated
    requires { Within table.now n
        × (sort_of_node target (node_at target table.now (child_a table.now n)) ≡ sort_number expression) }
    ensures { result ≡ value_in table.now (child_a table.now n)
        variables.now temporaries.now mem.now }
{
    let first = table::child_a(&table[..], n);
    if table::kind(&table[..], first) == 2 {
        let place = evaluation::find_read(table, first, variables, temporaries, mem);
        return evaluation::fetch(mem, place);
    }
    evaluation::evaluate_expression(table, first, variables, temporaries, mem)
}

// The value of child B.
pub fn evaluate_b(
    table: &Table,
    n: usize,
    variables: &Variables,
    temporaries: &Temporaries,
    mem: &ExecutionMemory,
) -> Evaluated
    requires { Within table.now n
        × (sort_of_node target (node_at target table.now (child_b table.now n)) ≡ sort_number expression) }
    ensures { result ≡ value_in table.now (child_b table.now n)
        variables.now temporaries.now mem.now }
{
    let second = table::child_b(&table[..], n);
    evaluation::evaluate_expression(table, second, variables, temporaries, mem)
}

// What condition A says.
#[tactic(auto, using(value::proofs::TestLaws::tests_condition))]
pub fn test_a(
    table: &Table,
    n: usize,
    variables: &Variables,
    temporaries: &Temporaries,
    mem: &ExecutionMemory,
) -> Test
    requires { Within table.now n
        × (sort_of_node target (node_at target table.now (child_a table.now n)) ≡ sort_number expression) }
    ensures { result ≡ condition (value_in table.now (child_a table.now n)
        variables.now temporaries.now mem.now) }
{
    let condition = table::child_a(&table[..], n);
    let e = evaluation::evaluate_expression(table, condition, variables, temporaries, mem);
    value::test(e)
}

// What statement n runs first: A of a sequence, else itself.
pub fn first_of(table: &Table, n: usize) -> usize
    requires { Within table.now n }
    ensures { result ≡ first_of table.now n }
{
    if table::kind(&table[..], n) == 44 {
        table::child_a(&table[..], n)
    } else {
        n
    }
}

// What it runs then: B of a sequence, else nothing.
pub fn rest_of(table: &Table, n: usize) -> Option<usize>
    requires { Within table.now n }
    ensures { result ≡ rest_of table.now n }
{
    if table::kind(&table[..], n) == 44 {
        Some(table::child_b(&table[..], n))
    } else {
        None
    }
}

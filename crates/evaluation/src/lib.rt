// Evaluating expressions and finding places, on the execution memory.

#![tactic(auto)]

ghost use Rattle.std.specs.Prelude.{◌≡◌, Err};
ghost use Rattle.rules.specs.Kinds.{target, sort_number, expression, place};
ghost use Rattle.rules.specs.Records.{kind_of};
ghost use Rattle.rules.specs.Nodes.{as_expression, as_place, sort_of_node, node_at};
ghost use Rattle.rules.specs.Memory.{on_place, read_cell};
ghost use Rattle.rules.specs.Layout.{memory_of};
ghost use Rattle.rules.specs.Evaluation.{evaluate, find_place};
ghost use Rattle.rules.specs.Watched.{temporary_of};
ghost use Rattle.evaluation.specs.State.{variables_of, Settles};
ghost use Rattle.evaluation_temporaries.specs.Bytes.{temporaries_of};

use rules::{Evaluated, ExecutionMemory, Found, Pointer, Table, Temporaries, Value, Variables};

// The value at a place.
pub fn fetch(mem: &ExecutionMemory, f: Found) -> Evaluated
    ensures { result ≡ on_place f Err (read_cell (memory_of mem.now)) }
{
    memory::read(mem, f?)
}

// What place n holds where it is a variable; another place says nothing yet.
fn settle_read(
    table: &Table,
    n: usize,
    variables: &Variables,
    mem: &ExecutionMemory,
) -> Option<Evaluated>
    requires { sort_of_node target (node_at target table.now n) ≡ sort_number place }
    ensures { Settles result (λ τ. on_place (find_place (as_place (node_at target table.now n)) τ
        (variables_of variables.now) (memory_of mem.now)) Err
        (read_cell (memory_of mem.now))) }
{
    if table::kind(&table[..], n) == 10 {
        let v = table::mark(&table[..], n) as usize;
        let p = Pointer {
            name: variables[v],
            offset: 0,
        };
        Some(memory::read(mem, p))
    } else {
        None
    }
}

// What expression n gives where it is a literal or the read of a variable.
fn settle(
    table: &Table,
    n: usize,
    variables: &Variables,
    mem: &ExecutionMemory,
) -> Option<Evaluated>
    requires { sort_of_node target (node_at target table.now n) ≡ sort_number expression }
    ensures { Settles result (λ τ. evaluate (as_expression (node_at target table.now n)) τ
        (variables_of variables.now) (memory_of mem.now)) }
{
    match table::kind(&table[..], n) {
        1 => Some(Ok(Value::Integer(table::literal(&table[..], n)))),
        2 => settle_read(table, table::child_a(&table[..], n), variables, mem),
        _ => None,
    }
}

// The value of expression n. Literals and variables, which are most operands, take no call.
#[cycle(evaluation)]
pub fn evaluate_operand(
    table: &Table,
    n: usize,
    variables: &Variables,
    temporaries: &Temporaries,
    mem: &ExecutionMemory,
) -> Evaluated
    requires { sort_of_node target (node_at target table.now n) ≡ sort_number expression }
    ensures { result ≡ evaluate (as_expression (node_at target table.now n))
        (temporary_of (temporaries_of temporaries.now)) (variables_of variables.now)
        (memory_of mem.now) }
{
    if let Some(settled) = settle(table, n, variables, mem) {
        return settled;
    }
    evaluation_answers::restate(evaluate(table, n, variables, temporaries, mem))
}

// The value of expression n. An operator's and a shift's operands are worked out alike: a shift's mark is 0.
#[cycle(evaluation)]
pub fn evaluate(
    table: &Table,
    n: usize,
    variables: &Variables,
    temporaries: &Temporaries,
    mem: &ExecutionMemory,
) -> Evaluated
    requires { sort_of_node target (node_at target table.now n) ≡ sort_number expression }
    ensures { result ≡ evaluate (as_expression (node_at target table.now n))
        (temporary_of (temporaries_of temporaries.now)) (variables_of variables.now)
        (memory_of mem.now) }
{
    match table::kind(&table[..], n) {
        1 => Ok(Value::Integer(table::literal(&table[..], n))),
        2 => {
            let place = table::child_a(&table[..], n);
            fetch(mem, find_place(table, place, variables, temporaries, mem))
        }
        3 => {
            let place = table::child_a(&table[..], n);
            evaluation_answers::address(find_place(table, place, variables, temporaries, mem))
        }
        _ => {
            let first = table::child_a(&table[..], n);
            let a = evaluate_operand(table, first, variables, temporaries, mem)?;
            let second = table::child_b(&table[..], n);
            let b = evaluate_operand(table, second, variables, temporaries, mem)?;
            let operator = table::mark(&table[..], n);
            evaluation_operators::operate(mem, operator, a, b)
        }
    }
}

// Where place n is. Inlined, so that a chain of reads takes one call for each.
#[cycle(evaluation)]
#[inline(always)]
pub fn find_place(
    table: &Table,
    n: usize,
    variables: &Variables,
    temporaries: &Temporaries,
    mem: &ExecutionMemory,
) -> Found
    requires { sort_of_node target (node_at target table.now n) ≡ sort_number place }
    ensures { result ≡ find_place (as_place (node_at target table.now n))
        (temporary_of (temporaries_of temporaries.now)) (variables_of variables.now)
        (memory_of mem.now) }
{
    match table::kind(&table[..], n) {
        10 => {
            let v = table::mark(&table[..], n) as usize;
            Ok(Pointer {
                name: variables[v],
                offset: 0,
            })
        }
        11 => {
            let pointer = table::child_a(&table[..], n);
            evaluation_answers::point(evaluate(table, pointer, variables, temporaries, mem))
        }
        _ => {
            let holder = table::mark(&table[..], n) as usize;
            evaluation_answers::point(evaluation_temporaries::read_temporary(temporaries, holder))
        }
    }
}

// The place whose value expression n is, where it is a read.
pub fn find_read(
    table: &Table,
    n: usize,
    variables: &Variables,
    temporaries: &Temporaries,
    mem: &ExecutionMemory,
) -> Found
    requires { (sort_of_node target (node_at target table.now n) ≡ sort_number expression)
        × (kind_of table.now n ≡ 2) }
    ensures { on_place result Err (read_cell (memory_of mem.now))
        ≡ evaluate (as_expression (node_at target table.now n))
        (temporary_of (temporaries_of temporaries.now)) (variables_of variables.now)
        (memory_of mem.now) }
{
    let wanted = table::child_a(&table[..], n);
    find_place(table, wanted, variables, temporaries, mem)
}

// The value of expression n of a statement. A literal, as most sizes are, takes no call.
pub fn evaluate_expression(
    table: &Table,
    n: usize,
    variables: &Variables,
    temporaries: &Temporaries,
    mem: &ExecutionMemory,
) -> Evaluated
    requires { sort_of_node target (node_at target table.now n) ≡ sort_number expression }
    ensures { result ≡ evaluate (as_expression (node_at target table.now n))
        (temporary_of (temporaries_of temporaries.now)) (variables_of variables.now)
        (memory_of mem.now) }
{
    if table::kind(&table[..], n) == 1 {
        return Ok(Value::Integer(table::literal(&table[..], n)));
    }
    evaluate(table, n, variables, temporaries, mem)
}

// Terms and predicates on the execution memory.

#![tactic(auto)]

ghost use Rattle.std.specs.Prelude.{◌≡◌, Err};
ghost use Rattle.rules.specs.Kinds.{source, sort_number, term, predicate};
ghost use Rattle.rules.specs.Nodes.{as_term, as_predicate, sort_of_node, node_at};
ghost use Rattle.rules.specs.Memory.{live_block, on_value};
ghost use Rattle.rules.specs.Layout.{memory_of};
ghost use Rattle.rules.specs.Evaluation.{operated, query_memory, evaluate_term, evaluate_predicate, opposite};
ghost use Rattle.evaluation.specs.State.{variables_of};
ghost use Rattle.evaluation_predicates.specs.Joints.{joint_of};

use rules::{Evaluated, ExecutionMemory, Operator, Pointer, Query, Table, Temporaries, Variables};

// An operator on what A and B gave: the first stop stays.
fn combine(mem: &ExecutionMemory, operator: Operator, a: Evaluated, b: Evaluated) -> Evaluated
    ensures { result ≡ operated (live_block (memory_of mem.now)) operator a b }
{
    evaluation_operators::operate(mem, operator, a?, b?)
}

// A query of what a term gave: 40 where it is no pointer.
fn ask(mem: &ExecutionMemory, query: Query, e: Evaluated) -> Evaluated
    ensures { result ≡ on_value e Err (query_memory query (memory_of mem.now)) }
{
    memory_queries::query(mem, query, Pointer::try_from(e?)?)
}

// 1 where a predicate gave 0, else 0.
fn oppose(e: Evaluated) -> Evaluated
    ensures { result ≡ on_value e Err opposite }
{
    value::negate(e?)
}

// What A of an 'or', or else of an 'and', decides: the whole where it is not 0, or where it is 0, and where it stops.
#[tactic(auto, using(value::proofs::TestLaws::tests_condition))]
fn join(either: bool, a: Evaluated) -> Option<Evaluated>
    ensures { result ≡ joint_of either a }
{
    match value::test(a) {
        Ok(holds) if holds != either => None,
        Ok(_) => Some(a),
        Err(stop) => Some(Err(stop)),
    }
}

// The value of term n of a source table, on the execution memory. Its expressions name no temporary.
fn evaluate_term(
    table: &Table,
    n: usize,
    variables: &Variables,
    temporaries: &Temporaries,
    mem: &ExecutionMemory,
) -> Evaluated
    requires { sort_of_node source (node_at source table.now n) ≡ sort_number term }
    ensures { result ≡ evaluate_term (as_term (node_at source table.now n))
        (variables_of variables.now) (memory_of mem.now) }
{
    let k = table::kind(&table[..], n);
    let a = table::child_a(&table[..], n);
    match k {
        20 => evaluation::evaluate_operand(table, a, variables, temporaries, mem),
        24 => {
            let operator = Operator::from(table::mark(&table[..], n));
            let b = table::child_b(&table[..], n);
            let x = evaluate_term(table, a, variables, temporaries, mem);
            let y = evaluate_term(table, b, variables, temporaries, mem);
            evaluation_answers::restate(combine(mem, operator, x, y))
        }
        _ => {
            let x = evaluate_term(table, a, variables, temporaries, mem);
            evaluation_answers::restate(ask(mem, Query::from(k - 18), x))
        }
    }
}

// What predicate n of a source table gives, on the execution memory.
pub fn evaluate_predicate(
    table: &Table,
    n: usize,
    variables: &Variables,
    temporaries: &Temporaries,
    mem: &ExecutionMemory,
) -> Evaluated
    requires { sort_of_node source (node_at source table.now n) ≡ sort_number predicate }
    ensures { result ≡ evaluate_predicate (as_predicate (node_at source table.now n))
        (variables_of variables.now) (memory_of mem.now) }
{
    let k = table::kind(&table[..], n);
    let a = table::child_a(&table[..], n);
    let b = table::child_b(&table[..], n);
    match k {
        30 => {
            let x = evaluate_term(table, a, variables, temporaries, mem);
            ask(mem, Query::Valid, x)
        }
        31 => {
            let x = evaluate_term(table, a, variables, temporaries, mem);
            ask(mem, Query::Initialised, x)
        }
        32 => {
            let operator = Operator::from(table::mark(&table[..], n));
            let x = evaluate_term(table, a, variables, temporaries, mem);
            let y = evaluate_term(table, b, variables, temporaries, mem);
            evaluation_answers::restate(combine(mem, operator, x, y))
        }
        33 => oppose(evaluate_predicate(table, a, variables, temporaries, mem)),
        _ => {
            let x = evaluate_predicate(table, a, variables, temporaries, mem);
            if let Some(decided) = join(k == 35, x) {
                return decided;
            }
            let y = evaluate_predicate(table, b, variables, temporaries, mem);
            evaluation_answers::restate(y)
        }
    }
}

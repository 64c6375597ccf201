// What each kind asks of its record, and rules 3 to 5 at one record.

#![tactic(auto)]

mod fits;
mod kinds;

ghost use Rattle.std.specs.Prelude.{◌≡◌};
ghost use Rattle.rules.specs.Checker.{record_fault};
ghost use Rattle.table.specs.Within.{Within};
ghost use Rattle.checker_forms.specs.Forms.{sort_by, Before};

pub use kinds::form_of;
use rules::{Language, Rule, Sort};

// What a kind has in a field: nothing, a child of a sort, a number from a lowest to a highest, or a term's operator.
#[derive(Clone, Copy)]
pub enum Field {
    Unnamed,
    Child(Sort),
    Number { low: u8, high: u8 },
    TermOperator,
}

// What a kind has for a literal: zero, any number, or the number of a source statement.
#[derive(Clone, Copy)]
pub enum Literal {
    Zero,
    Any,
    Statement,
}

// What a kind asks; A and B are for a child or for none.
#[derive(Clone, Copy)]
pub struct Form {
    pub sort: Sort,
    pub mark: Field,
    pub a: Option<Sort>,
    pub b: Option<Sort>,
    pub c: Field,
    pub literal: Literal,
}

// The sort of a kind that the language has.
pub fn sort_of(kind: u8) -> Sort
    ensures { result ≡ sort_by kind }
{
    match kind / 10 {
        0 => Sort::Expression,
        1 => Sort::Place,
        2 => Sort::Term,
        3 => Sort::Predicate,
        _ => Sort::Statement,
    }
}

// Rules 3 to 5 at record n.
#[tactic(auto, using(crate::proofs::KeptLaws::no_form))]
pub fn record_fault(language: Language, table: &[u8], n: usize) -> Result<(), Rule>
    requires { Within table.now n × Before language table.now n }
    ensures { result ≡ record_fault language table.now n }
{
    let form = form_of(language, table::kind(table, n)).ok_or(Rule::Kind)?;
    if !form.fields_fit(table, n) {
        return Err(Rule::Field);
    }
    if !form.children_fit(language, table, n) {
        return Err(Rule::Child);
    }
    Ok(())
}

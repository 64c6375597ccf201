// Rules 4 and 5: what fits a field, a literal and a form.
ghost use Rattle.std.specs.Prelude.{◌≡◌, true};
ghost use Rattle.rules.specs.Records.{record_at};
ghost use Rattle.rules.specs.Checker.{field_fits, literal_fits, fields_fit, child_fits, children_fit};
ghost use Rattle.table.specs.Within.{Within};
ghost use Rattle.checker_forms.specs.Forms.{field_from, child_from, literal_from, form_from, Before};

use super::{Field, Form, Literal, sort_of};
use rules::{Language, Sort};

impl Field {
    fn fits(self, x: usize) -> bool
        ensures { result ≡ field_fits (field_from self) x }
    {
        match self {
            Field::Unnamed => x == 0,
            Field::Child(_) => 0 < x,
            Field::Number { low, high } => usize::from(low) <= x && x <= usize::from(high),
            Field::TermOperator => matches!(x, 1..=5 | 8),
        }
    }
}

fn is_there(child: Option<Sort>, x: usize) -> bool
    ensures { result ≡ field_fits (child_from child) x }
{
    child.is_some() == (x != 0)
}

// Of a number that is there as it has to be. A child's kind is in the language, since it stands before n.
fn child_fits(language: Language, table: &[u8], n: usize, child: Option<Sort>, x: usize) -> bool
    requires { Within table.now n × Before language table.now n × (field_fits (child_from child) x ≡ true) }
    ensures { result ≡ child_fits language table.now n (child_from child) x }
{
    match child {
        Some(sort) => x < n && sort_of(table::kind(table, x)) == sort,
        None => true,
    }
}

// Of C, which may be for a number.
fn third_fits(language: Language, table: &[u8], n: usize, field: Field, x: usize) -> bool
    requires { Within table.now n × Before language table.now n × (field_fits (field_from field) x ≡ true) }
    ensures { result ≡ child_fits language table.now n (field_from field) x }
{
    match field {
        Field::Child(sort) => child_fits(language, table, n, Some(sort), x),
        Field::Unnamed | Field::Number { .. } | Field::TermOperator => true,
    }
}

impl Literal {
    fn fits(self, z: i64) -> bool
        ensures { result ≡ literal_fits (literal_from self) z }
    {
        match self {
            Literal::Zero => z == 0,
            Literal::Any => true,
            Literal::Statement => 1 <= z && z <= 256,
        }
    }
}

impl Form {
    pub(crate) fn fields_fit(self, table: &[u8], n: usize) -> bool
        requires { Within table.now n }
        ensures { result ≡ fields_fit (form_from 0 self) (record_at table.now n) }
    {
        self.mark.fits(usize::from(table::mark(table, n)))
            && is_there(self.a, table::child_a(table, n))
            && is_there(self.b, table::child_b(table, n))
            && self.c.fits(table::child_c(table, n))
            && self.literal.fits(table::literal(table, n))
    }

    // Of a record whose fields fit.
    #[tactic(auto, using(crate::proofs::FormLaws::fields_there))]
    pub(crate) fn children_fit(self, language: Language, table: &[u8], n: usize) -> bool
        requires { Within table.now n × Before language table.now n
            × (fields_fit (form_from 0 self) (record_at table.now n) ≡ true) }
        ensures { result ≡ children_fit language table.now n (form_from 0 self) (record_at table.now n) }
    {
        child_fits(language, table, n, self.a, table::child_a(table, n))
            && child_fits(language, table, n, self.b, table::child_b(table, n))
            && third_fits(language, table, n, self.c, table::child_c(table, n))
    }
}

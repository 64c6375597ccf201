// What each kind asks.
ghost use Rattle.std.specs.Prelude.{◌≡◌, MatchOption};
ghost use Rattle.std.proofs.Math.Option.{none, some};
ghost use Rattle.rules.specs.Kinds.{form_of};
ghost use Rattle.checker_forms.specs.Forms.{asked, literal_by, form_with, form_from};

use super::{Field, Form, Literal};
use rules::{Language, Sort};

const ZERO: Field = Field::Unnamed;

const EXPRESSION: Option<Sort> = Some(Sort::Expression);

const PLACE: Option<Sort> = Some(Sort::Place);

const TERM: Option<Sort> = Some(Sort::Term);

const PREDICATE: Option<Sort> = Some(Sort::Predicate);

const STATEMENT: Option<Sort> = Some(Sort::Statement);

const THIRD_STATEMENT: Field = Field::Child(Sort::Statement);

const OPERATOR: Field = Field::Number { low: 1, high: 7 };

const COMPARISON: Field = Field::Number { low: 6, high: 7 };

const ANY_OPERATOR: Field = Field::Number { low: 1, high: 8 };

const QUERY: Field = Field::Number { low: 1, high: 5 };

const VARIABLE: Field = Field::Number { low: 0, high: 63 };

// The first of one, two or three temporaries in a row.
const ONE: Field = Field::Number { low: 0, high: 63 };

const TWO: Field = Field::Number { low: 0, high: 62 };

const THREE: Field = Field::Number { low: 0, high: 61 };

// The mark, A, B and C.
struct Fields(Field, Option<Sort>, Option<Sort>, Field);

// Of the kinds from 1 on.
static EXPRESSIONS: [Fields; 5] = [
    Fields(ZERO, None, None, ZERO),
    Fields(ZERO, PLACE, None, ZERO),
    Fields(ZERO, PLACE, None, ZERO),
    Fields(OPERATOR, EXPRESSION, EXPRESSION, ZERO),
    Fields(ZERO, EXPRESSION, EXPRESSION, ZERO),
];

// From 10 on.
static PLACES: [Fields; 3] = [
    Fields(VARIABLE, None, None, ZERO),
    Fields(ZERO, EXPRESSION, None, ZERO),
    Fields(ONE, None, None, ZERO),
];

// From 20 on.
static TERMS: [Fields; 5] = [
    Fields(ZERO, EXPRESSION, None, ZERO),
    Fields(ZERO, TERM, None, ZERO),
    Fields(ZERO, TERM, None, ZERO),
    Fields(ZERO, TERM, None, ZERO),
    Fields(Field::TermOperator, TERM, TERM, ZERO),
];

// From 30 on.
static PREDICATES: [Fields; 6] = [
    Fields(ZERO, TERM, None, ZERO),
    Fields(ZERO, TERM, None, ZERO),
    Fields(COMPARISON, TERM, TERM, ZERO),
    Fields(ZERO, PREDICATE, None, ZERO),
    Fields(ZERO, PREDICATE, PREDICATE, ZERO),
    Fields(ZERO, PREDICATE, PREDICATE, ZERO),
];

// From 40 on.
static STATEMENTS: [Fields; 9] = [
    Fields(ZERO, None, None, ZERO),
    Fields(ZERO, PLACE, EXPRESSION, ZERO),
    Fields(ZERO, PLACE, EXPRESSION, ZERO),
    Fields(ZERO, EXPRESSION, None, ZERO),
    Fields(ZERO, STATEMENT, STATEMENT, ZERO),
    Fields(ZERO, EXPRESSION, STATEMENT, THIRD_STATEMENT),
    Fields(ZERO, EXPRESSION, STATEMENT, ZERO),
    Fields(VARIABLE, STATEMENT, None, ZERO),
    Fields(ZERO, PREDICATE, None, ZERO), // 48, an assertion
];

// From 60 on; 62 is no kind.
static TEMPORARY_STATEMENTS: [Fields; 11] = [
    Fields(ONE, PLACE, None, ZERO),
    Fields(ONE, EXPRESSION, None, ZERO),
    Fields(ZERO, None, None, ZERO),
    Fields(THREE, None, None, ANY_OPERATOR),
    Fields(TWO, None, None, QUERY),
    Fields(TWO, None, None, ZERO),
    Fields(ONE, None, STATEMENT, THIRD_STATEMENT),
    Fields(ONE, None, None, ZERO),
    Fields(TWO, None, None, ZERO),
    Fields(ONE, None, None, ZERO),
    Fields(ONE, None, None, ZERO),
];

// "From kind 40 on, a target literal is the number of the source statement"
fn literal_of(language: Language, kind: u8) -> Literal
    ensures { result ≡ literal_by language kind }
{
    match (language, kind) {
        (_, 1) => Literal::Any,
        (Language::Target, 40..) => Literal::Statement,
        _ => Literal::Zero,
    }
}

// The sort of a kind that the language has, and its fields. "A target table has no kind 20–35 or 48."
#[tactic(auto, unfolding(rules::specs::Kinds::form_of, rules::specs::Kinds::look_up))]
fn row_of(language: Language, kind: u8) -> Option<(Sort, &'static Fields)>
    ensures { MatchOption result (form_of language kind ≡ none)
        (λ r. form_of language kind ≡ some (form_from kind (form_with r.0 r.1.now (literal_by language kind)))) }
{
    let i = usize::from(kind);
    match language {
        Language::Source => match kind {
            1..=5 => Some((Sort::Expression, &EXPRESSIONS[i - 1])),
            10..=11 => Some((Sort::Place, &PLACES[i - 10])),
            20..=24 => Some((Sort::Term, &TERMS[i - 20])),
            30..=35 => Some((Sort::Predicate, &PREDICATES[i - 30])),
            40..=48 => Some((Sort::Statement, &STATEMENTS[i - 40])),
            _ => None,
        },
        Language::Target => match kind {
            1..=5 => Some((Sort::Expression, &EXPRESSIONS[i - 1])),
            10..=12 => Some((Sort::Place, &PLACES[i - 10])),
            40..=47 => Some((Sort::Statement, &STATEMENTS[i - 40])),
            60..=61 | 63..=70 => Some((Sort::Statement, &TEMPORARY_STATEMENTS[i - 60])),
            _ => None,
        },
    }
}

// What a kind asks, where the language has it.
pub fn form_of(language: Language, kind: u8) -> Option<Form>
    ensures { form_of language kind ≡ asked kind result }
{
    let (sort, fields) = row_of(language, kind)?;
    let &Fields(mark, a, b, c) = fields;
    let literal = literal_of(language, kind);
    Some(Form {
        sort,
        mark,
        a,
        b,
        c,
        literal,
    })
}

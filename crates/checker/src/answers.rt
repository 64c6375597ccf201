// What rules 6 to 8 answer.
ghost use Rattle.std.specs.Prelude.{◌≡◌, ◌≤◌, IfSome};
ghost use Rattle.rules.specs.Sizes.{target_limit};
ghost use Rattle.rules.specs.Checker.{refuse_at, last_rule};
ghost use Rattle.checker.specs.Scopes.{Kept, Found};
ghost use Rattle.checker.specs.Order.{from_shapes};

use super::searches::lowest_too_deep;
use rules::{Checked, Language, Refusal, Rule};

fn refuse_at(rule: Rule, found: Option<usize>) -> Checked
    requires { IfSome found (λ n. n ≤ target_limit) }
    ensures { result ≡ refuse_at rule found }
{
    match found {
        Some(n) => Err(Refusal {
            rule,
            record: n as u32,
        }),
        None => Ok(()),
    }
}

// Rule 8.
fn check_levels(language: Language, table: &[u8]) -> Checked
    requires { Kept language table.now }
    ensures { result ≡ last_rule language table.now }
{
    match language {
        Language::Source => refuse_at(Rule::Level, lowest_too_deep(table)),
        Language::Target => Ok(()),
    }
}

// Rules 6 to 8, from the records found that break 6 and 7.
pub fn conclude(
    language: Language,
    table: &[u8],
    misshapen: Option<usize>,
    hidden: Option<usize>,
) -> Checked
    requires { Found language table.now misshapen hidden }
    ensures { result ≡ from_shapes language table.now }
{
    refuse_at(Rule::Shape, misshapen)?;
    refuse_at(Rule::Scope, hidden)?;
    check_levels(language, table)
}

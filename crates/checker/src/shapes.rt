// Rules 6 and 7 in one pass down from the last record: all parents of a record are met before it.
ghost use Rattle.std.specs.Prelude.{◌≡◌, cond};
ghost use Rattle.rules.specs.Records.{record_count};
ghost use Rattle.rules.specs.Checker.{shape_fault};
ghost use Rattle.checker.specs.Scopes.{Formed, Ready};
ghost use Rattle.checker.specs.Order.{from_shapes};

use super::answers::conclude;
use super::descent::pass_scope;
use super::scopes::{is_out_of_scope, scope_below};
use super::searches::lower;
use rules::{Checked, Language, Sort};

// The last record is no child. As a statement it has variable 0 alone in scope; otherwise it is noted as misshapen.
fn last_note(language: Language, table: &[u8]) -> u64
    requires { Formed language table.now }
    ensures { result ≡ cond (shape_fault language table.now (record_count table.now))
        0 1 }
{
    let n = table.len() / 16;
    u64::from(checker_forms::sort_of(table::kind(table, n)) == Sort::Statement)
}

// Rules 6 to 8. A record is misshapen where its note is even.
pub fn check_shapes(language: Language, table: &[u8], notes: &mut [u64]) -> Checked
    requires { Ready language table.now notes.old }
    ensures { result ≡ from_shapes language table.now }
{
    let count = table.len() / 16;
    notes[count] = last_note(language, table);
    let mut misshapen = None;
    let mut hidden = None;
    for n in (1..=count).rev() {
        let kind = table::kind(table, n);
        let mark = table::mark(table, n);
        let scope = notes[n];
        misshapen = lower(scope % 2 == 0, n, misshapen);
        hidden = lower(is_out_of_scope(kind, mark, scope), n, hidden);
        pass_scope(language, table, n, scope_below(kind, mark, scope), notes);
    }
    conclude(language, table, misshapen, hidden)
}

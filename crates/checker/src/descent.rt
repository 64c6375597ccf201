// What a record gives to its children. Once rules 3 to 5 are kept, what stands in A, B and, but for a query, C is a
// child or 0.
ghost use Rattle.std.specs.Prelude.{◌≡◌, ℕ, ◌<◌, length, get_or};
ghost use Rattle.rules.specs.Records.{record_count};
ghost use Rattle.rules.specs.Kinds.{source};
ghost use Rattle.rules.specs.Checker.{times_child_of};
ghost use Rattle.table.specs.Within.{Within};
ghost use Rattle.checker.specs.Notes.{third_child};
ghost use Rattle.checker.specs.Scopes.{Given, Noted, Formed, Kept, child_level};

use super::levels::{is_term_or_predicate, level_below};
use super::notes::{note_child, put_level};
use rules::Language;

// Kinds 63 and 64 have an operator and a query there.
fn third_child(kind: u8, x: usize) -> usize
    ensures { result ≡ third_child kind x }
{
    if matches!(kind, 63 | 64) { 0 } else { x }
}

// The same scope to each.
pub fn pass_scope(language: Language, table: &[u8], n: usize, scope: u64, notes: &mut [u64])
    requires { Within table.now n × Formed language table.now × (record_count table.now < length notes.old) }
    ensures { Noted language table.now n scope notes.old notes.new }
{
    note_child(notes, table::child_a(table, n), scope);
    note_child(notes, table::child_b(table, n), scope);
    note_child(
        notes,
        third_child(table::kind(table, n), table::child_c(table, n)),
        scope,
    );
}

// Its level to each child of a term or predicate. Another record's children have level 0, which is there from the
// start.
pub fn pass_level(table: &[u8], n: usize, level: u16, levels: &mut [u16])
    requires { Within table.now n × Kept source table.now × (record_count table.now < length levels.old)
        × (level < 2048) × ((j : ℕ) → 0 < times_child_of source table.now n j → get_or levels.old j 0 ≡ 0) }
    ensures { Given source table.now n (child_level table.now n level) levels.old levels.new }
{
    let kind = table::kind(table, n);
    if is_term_or_predicate(kind) {
        put_level(
            levels,
            table::child_a(table, n),
            level_below(kind, 0, level),
        );
        put_level(
            levels,
            table::child_b(table, n),
            level_below(kind, 1, level),
        );
        put_level(
            levels,
            table::child_c(table, n),
            level_below(kind, 2, level),
        );
    }
}

// The checker of tables: rules 1 to 8 in their order. A refusal has the rule and the lowest record that breaks it.
// Without recursion: one pass over the records for 3 to 5, one for 6 and 7, one for 8 in a source table.

#![tactic(auto)]

mod answers;
mod descent;
mod levels;
mod notes;
mod scopes;
mod searches;
mod shapes;

ghost use Rattle.std.specs.Prelude.{◌≡◌, ◌+◌, ◌≤◌, ◌<◌};
ghost use Rattle.rules.specs.Sizes.{target_limit};
ghost use Rattle.rules.specs.Records.{record_count};
ghost use Rattle.rules.specs.Kinds.{source, target, record_limit};
ghost use Rattle.rules.specs.Checker.{record_fault, refused_at, check};
ghost use Rattle.table.specs.Within.{Within};
ghost use Rattle.checker_forms.specs.Forms.{Before};
ghost use Rattle.checker.specs.Scopes.{Sized, Formed};
ghost use Rattle.checker.specs.Order.{from_shapes, from_records};

use rules::{Checked, Language, Refusal, Rule, SOURCE_LIMIT, TARGET_LIMIT};

// How many records have their notes in a shorter array, which is sooner cleared; and a note for each record and for 0.
const SMALL_LIMIT: usize = 64;

const SMALL_NOTES: usize = SMALL_LIMIT + 1;

const SHORT_NOTES: usize = SOURCE_LIMIT + 1;

const MIDDLE_LIMIT: usize = 1024;

const MIDDLE_NOTES: usize = MIDDLE_LIMIT + 1;

const LONG_NOTES: usize = TARGET_LIMIT + 1;

// Rules 6 to 8.
fn check_with<const NOTES: usize>(language: Language, table: &[u8]) -> Checked
    requires { Formed language table.now × (record_count table.now < NOTES) × (NOTES ≤ target_limit + 1) }
    ensures { result ≡ from_shapes language table.now }
{
    let mut notes = [0u64; NOTES];
    shapes::check_shapes(language, table, &mut notes)
}

// A short table has few notes to clear.
fn check_formed(language: Language, table: &[u8]) -> Checked
    requires { Formed language table.now }
    ensures { result ≡ from_shapes language table.now }
{
    match table.len() / 16 {
        0..=SMALL_LIMIT => check_with::<SMALL_NOTES>(language, table),
        0..=SOURCE_LIMIT => check_with::<SHORT_NOTES>(language, table),
        0..=MIDDLE_LIMIT => check_with::<MIDDLE_NOTES>(language, table),
        _ => check_with::<LONG_NOTES>(language, table),
    }
}

// Rules 3 to 5 at a record.
fn check_record(language: Language, table: &[u8], n: usize) -> Checked
    requires { Within table.now n × Before language table.now n × (n ≤ target_limit) }
    ensures { result ≡ refused_at n (record_fault language table.now n) }
{
    checker_forms::record_fault(language, table, n).map_err(|rule| Refusal {
        rule,
        record: n as u32,
    })
}

// Rules 3 to 8.
fn check_records(language: Language, table: &[u8]) -> Checked
    requires { Sized language table.now }
    ensures { result ≡ from_records language table.now }
{
    for n in 1..=table.len() / 16 {
        check_record(language, table, n)?;
    }
    check_formed(language, table)
}

fn limit(language: Language) -> usize
    ensures { result ≡ record_limit language }
{
    match language {
        Language::Source => SOURCE_LIMIT,
        Language::Target => TARGET_LIMIT,
    }
}

// Rules 1 to 8.
fn check_table(language: Language, table: &[u8]) -> Checked
    ensures { result ≡ check language table.now }
{
    if table.len() == 0 || table.len() % 16 != 0 {
        return Err(Refusal {
            rule: Rule::Length,
            record: 0,
        });
    }
    if limit(language) < table.len() / 16 {
        return Err(Refusal {
            rule: Rule::Count,
            record: 0,
        });
    }
    check_records(language, table)
}

pub fn check_source(table: &[u8]) -> Checked
    ensures { result ≡ check source table.now }
{
    check_table(Language::Source, table)
}

pub fn check_target(table: &[u8]) -> Checked
    ensures { result ≡ check target table.now }
{
    check_table(Language::Target, table)
}

// The lowest record that breaks a rule. A search goes down from the last record.
ghost use Rattle.std.specs.Prelude.{◌≡◌, cond};
ghost use Rattle.rules.specs.Kinds.{source};
ghost use Rattle.rules.specs.Checker.{lowest_record, level_fault};
ghost use Rattle.checker.specs.Scopes.{Kept};

use super::descent::pass_level;
use super::levels::is_too_deep;
use rules::SOURCE_LIMIT;

// A level for each record of the longest source table, and for 0.
const LEVEL_COUNT: usize = SOURCE_LIMIT + 1;

// The lower of record n, where it breaks the rule, and what was found above it.
pub fn lower(fault: bool, n: usize, found: Option<usize>) -> Option<usize>
    ensures { result ≡ cond fault (Some n) found }
{
    if fault { Some(n) } else { found }
}

pub fn lowest_too_deep(table: &[u8]) -> Option<usize>
    requires { Kept source table.now }
    ensures { lowest_record table.now (level_fault table.now) ≡ result }
{
    let mut levels = [0u16; LEVEL_COUNT];
    let mut found = None;
    for n in (1..=table.len() / 16).rev() {
        let level = levels[n];
        found = lower(is_too_deep(table::kind(table, n), level), n, found);
        pass_level(table, n, level, &mut levels);
    }
    found
}

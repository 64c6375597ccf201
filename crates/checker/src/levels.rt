// The levels of terms and predicates.
ghost use Rattle.std.specs.Prelude.{◌≡◌, ◌<◌};
ghost use Rattle.rules.specs.Checker.{is_unary, is_binary, is_joint, level_below, highest_named};
ghost use Rattle.rules.specs.Checker.{is_term_or_predicate};
ghost use Rattle.checker.specs.Scopes.{too_deep};

fn is_unary(kind: u8) -> bool
    ensures { result ≡ is_unary kind }
{
    matches!(kind, 21..=23 | 30 | 31 | 33)
}

fn is_binary(kind: u8) -> bool
    ensures { result ≡ is_binary kind }
{
    matches!(kind, 24 | 32)
}

fn is_joint(kind: u8) -> bool
    ensures { result ≡ is_joint kind }
{
    matches!(kind, 34 | 35)
}

// The level of the child in field i, A being 0, of a record of this kind at this level.
pub fn level_below(kind: u8, i: u16, level: u16) -> u16
    requires { (level < 2048) × (i < 3) }
    ensures { result ≡ level_below kind i level }
{
    if is_unary(kind) {
        level + 1
    } else if is_binary(kind) {
        level + 1 + i
    } else if is_joint(kind) {
        level
    } else {
        0
    }
}

fn highest_named(kind: u8, level: u16) -> u16
    requires { level < 2048 }
    ensures { result ≡ highest_named kind level }
{
    if is_unary(kind) {
        level + 1
    } else if is_binary(kind) {
        level + 2
    } else {
        level
    }
}

pub fn is_term_or_predicate(kind: u8) -> bool
    ensures { result ≡ is_term_or_predicate kind }
{
    matches!(kind, 20..=35)
}

// A record of this kind at this level breaks rule 8.
pub fn is_too_deep(kind: u8, level: u16) -> bool
    requires { level < 2048 }
    ensures { result ≡ too_deep kind level }
{
    is_term_or_predicate(kind) && 64 <= highest_named(kind, level)
}

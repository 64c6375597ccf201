// The variables in scope, a bit for each.
ghost use Rattle.std.specs.Prelude.{◌≡◌, ◌&&◌, ◌||◌, ℕ, ◌%◌, ◌<◌, eqb};
ghost use Rattle.checker.specs.Scopes.{bit, out_of_scope};

fn has_bit(scope: u64, x: u64) -> bool
    requires { x < 64 }
    ensures { result ≡ bit scope x }
{
    (scope >> x) % 2 == 1
}

fn with_bit(scope: u64, x: u64) -> u64
    requires { x < 64 }
    ensures { (y : ℕ) → bit result y ≡ (eqb x y || bit scope y) }
{
    (1 << x) | scope
}

// A record of this kind and mark breaks rule 7 where these variables are in scope.
pub fn is_out_of_scope(kind: u8, mark: u8, scope: u64) -> bool
    requires { (kind ≡ 10 → mark < 64) × (kind ≡ 47 → mark < 64) }
    ensures { result ≡ out_of_scope kind mark scope }
{
    match kind {
        10 => !has_bit(scope, u64::from(mark)),
        47 => has_bit(scope, u64::from(mark)),
        _ => false,
    }
}

// The variables in scope below it, 0 among them also where it is misshapen and has no scope.
pub fn scope_below(kind: u8, mark: u8, scope: u64) -> u64
    requires { kind ≡ 47 → mark < 64 }
    ensures { (result % 2 ≡ 1)
        × (scope % 2 ≡ 1 → (y : ℕ) → bit result y ≡ ((eqb kind 47 && eqb mark y) || bit scope y)) }
{
    let odd = with_bit(scope, 0);
    if kind == 47 {
        with_bit(odd, u64::from(mark))
    } else {
        odd
    }
}

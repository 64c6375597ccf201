// Where an offset leads in a block, be it of cells or of marks.

#![tactic(auto)]

ghost use Rattle.std.specs.Prelude.{◌≡◌};
ghost use Rattle.rules.specs.Memory.{located_in};
ghost use Rattle.rules.specs.declared.{Recorded.Recorded};

use rules::{Located, Miss, Recorded};

// The cell or mark of an offset in the block of n from first on.
pub fn inside(first: u16, n: u16, offset: i64) -> Located
    ensures { result ≡ located_in (Recorded.Live first n) offset }
{
    if (0..i64::from(n)).contains(&offset) {
        Ok(usize::from(first) + offset as usize)
    } else {
        Err(Miss::Outside)
    }
}

// The cell or mark of an offset in a block, where that is live.
pub fn locate_in(block: Recorded, offset: i64) -> Located
    ensures { result ≡ located_in block offset }
{
    match block {
        Recorded::Live(first, n) => inside(first, n, offset),
        Recorded::Unused | Recorded::Dead => Err(Miss::Dead),
    }
}

// The temporaries in lent bytes: 64 cells of 16, laid out as the memory's.

#![tactic(auto)]

ghost use Rattle.std.specs.Prelude.{◌≡◌, ◌<◌, set, Some};
ghost use Rattle.rules.specs.Sizes.{temporary_count};
ghost use Rattle.rules.specs.Layout.{cell_from};
ghost use Rattle.rules.specs.Watched.{held_in};
ghost use Rattle.evaluation_temporaries.specs.Bytes.{temporary_in, temporaries_of};

use rules::{Evaluated, Pointer, Stop, Temporaries, Value};

// What temporary n holds: 49 where it is empty.
pub fn read_temporary(temporaries: &Temporaries, n: usize) -> Evaluated
    requires { n < temporary_count }
    ensures { result ≡ held_in (temporaries_of temporaries.now) n }
{
    let at = n * 16;
    match temporaries[at] {
        0 => Err(Stop::EmptyTemporary),
        1 => Ok(Value::Undefined),
        2 => Ok(Value::Integer(byte_words::read_i64(&temporaries[..], at + 8))),
        _ => {
            let name = byte_words::read_word(&temporaries[..], at + 4, 2) as u16;
            let offset = byte_words::read_i64(&temporaries[..], at + 8);
            Ok(Value::Pointer(Pointer { name, offset }))
        }
    }
}

fn write_temporary(temporaries: &mut Temporaries, n: usize, kind: u8, name: u16, z: i64)
    requires { n < temporary_count }
    ensures { temporaries_of temporaries.new
        ≡ set (temporaries_of temporaries.old) n (temporary_in (cell_from kind 0 name z)) }
{
    let at = n * 16;
    byte_words::write_word(
        &mut temporaries[..],
        at,
        8,
        kind as u64 + name as u64 * 4294967296,
    );
    byte_words::write_i64(&mut temporaries[..], at + 8, z);
}

// Temporary n takes a value.
pub fn take(temporaries: &mut Temporaries, n: usize, v: Value)
    requires { n < temporary_count }
    ensures { temporaries_of temporaries.new
        ≡ set (temporaries_of temporaries.old) n (Some v) }
{
    match v {
        Value::Undefined => write_temporary(temporaries, n, 1, 0, 0),
        Value::Integer(z) => write_temporary(temporaries, n, 2, 0, z),
        Value::Pointer(p) => write_temporary(temporaries, n, 3, p.name, p.offset),
    }
}

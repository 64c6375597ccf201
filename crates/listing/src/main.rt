// Prints the listing of the source table on its standard input: a line for each target record, or the refusal.
// Everything but reading and writing is `listing_input`'s.

#![tactic(auto)]

ghost use Rattle.std.specs.Prelude.{◌≤◌, ◌<◌, length, IfOk};

use std::io;
use std::io::Read;

// Reads the whole input and keeps what its listing needs of it: nothing at first, and `keep` promises the same with each
// part. A proved loop has to end, and nothing says that an input does: so the turns are counted, up to a number that no
// run uses up.
fn read_input(rt: &impl Input, kept: &mut [u8]) -> io::Result<usize>
    requires { 4128 ≤ length kept.old }
    ensures { IfOk result (λ count. count < 4128) }
{
    let mut reader = rt.reader();
    let mut part = [0u8; 65536];
    let mut count: usize = 0;
    for _ in 0..u64::MAX {
        let got = reader.read(&mut part)?;
        if got == 0 {
            return Ok(count);
        }
        count = listing_input::keep(kept, count, &part[..got]);
    }
    Ok(count)
}

fn main(rt: HostRuntime) -> io::Result<()> {
    let mut kept = [0u8; 4128];
    let count = read_input(&rt, &mut kept)?;
    let mut text = [0u8; 186368];
    let length = listing_input::write_kept(&kept, count, &mut text);
    rt.write_all(&text[..length])
}

// What is noted of each record. For 6 and 7: 0 before a parent is met, then the variables in scope below the parent,
// an odd number since variable 0 always is, and 2 from the second parent on. For 8: the level.
ghost use Rattle.std.specs.Prelude.{◌≡◌, ◌<◌, length};
ghost use Rattle.checker.specs.Notes.{put_at, joined, note_at};

fn join(scope: u64, v: u64) -> u64
    ensures { result ≡ joined scope v }
{
    if v == 0 { scope } else { 2 }
}

// One more parent of x, where it is there.
pub fn note_child(notes: &mut [u64], x: usize, scope: u64)
    requires { x < length notes.old }
    ensures { notes.new ≡ note_at scope x notes.old }
{
    if x != 0 {
        notes[x] = join(scope, notes[x]);
    }
}

// The level of x, where it is there.
pub fn put_level(levels: &mut [u16], x: usize, level: u16)
    requires { x < length levels.old }
    ensures { levels.new ≡ put_at x level levels.old }
{
    if x != 0 {
        levels[x] = level;
    }
}

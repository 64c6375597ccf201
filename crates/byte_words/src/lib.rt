// Little-endian numbers in bytes: one chain reads every width, one loop writes it.

#![tactic(auto)]

ghost use Rattle.std.specs.Prelude.{◌≡◌, ◌+◌, ◌^◌, ◌≤◌, ◌<◌, length};
ghost use Rattle.rules.specs.Words.{word_at, integer_at, put, digits, integer_bytes};

// The number in n bytes at a place.
pub fn read_word(s: &[u8], at: usize, n: usize) -> u64
    requires { (n ≤ 8) × (at + n ≤ length s.now) }
    ensures value { result ≡ word_at n s.now at }
    ensures bound { result < 256 ^ n }
{
    s[at..at + n]
        .iter()
        .rev()
        .fold(0, |v, b| (v << 8) | u64::from(*b))
}

// The n low bytes of v are put at a place.
#[tactic(auto, using(crate::proofs::Laws::digits_written))]
pub fn write_word(d: &mut [u8], at: usize, n: usize, v: u64)
    requires { at + n ≤ length d.old }
    ensures { d.new ≡ put d.old at (digits n v) }
{
    let mut rest = v;
    for byte in &mut d[at..at + n] {
        *byte = (rest % 256) as u8;
        rest /= 256;
    }
}

pub fn read_i64(s: &[u8], at: usize) -> i64
    requires { at + 8 ≤ length s.now }
    ensures { result ≡ integer_at s.now at }
{
    read_word(s, at, 8).cast_signed()
}

pub fn write_i64(d: &mut [u8], at: usize, z: i64)
    requires { at + 8 ≤ length d.old }
    ensures { d.new ≡ put d.old at (integer_bytes z) }
{
    write_word(d, at, 8, z.cast_unsigned());
}

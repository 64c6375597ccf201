// What is kept of an input of any length, and the listing of the whole input from it.

#![tactic(auto)]

ghost use Rattle.std.specs.Prelude.{◌≡◌, ◌+◌, ◌≤◌, ◌<◌, length};
ghost use Rattle.listing_input.specs.Input.{kept_length, kept_bytes, KeepsMore, ListsInput};

// The bytes of 257 records, one too many.
const TOO_MANY: usize = 257 * 16;

// The bytes that come behind the first `count` are kept, as long as 257 records have room for them.
fn copy(kept: &mut [u8], count: usize, more: &[u8])
    requires { (count < 4128) × (4128 ≤ length kept.old) }
    ensures { kept.new ≡ kept_bytes kept.old count more.now }
{
    let room = TOO_MANY.saturating_sub(count).min(more.len());
    kept[count..count + room].copy_from_slice(&more[..room]);
}

// How many bytes count as kept when more come: of a longer input only what is over a multiple of 16 counts.
fn count_on(count: usize, more: usize) -> usize
    ensures { result ≡ kept_length (count + more) }
{
    match count.checked_add(more) {
        Some(length) if length < TOO_MANY => length,
        _ => TOO_MANY + (count % 16 + more % 16) % 16,
    }
}

// More of an input is kept: its bytes as long as there are at most 257 records, then its length by 16 alone.
pub fn keep(kept: &mut [u8], count: usize, more: &[u8]) -> usize
    requires { (count < 4128) × (4128 ≤ length kept.old) }
    ensures count { result ≡ kept_length (count + length more.now) }
    ensures bytes { kept.new ≡ kept_bytes kept.old count more.now }
    ensures input { KeepsMore kept.old count more.now kept.new result }
    ensures small { result < 4128 }
{
    copy(kept, count, more);
    count_on(count, more.len())
}

// The listing of a whole input, of which `count` bytes are kept. The output is as in `listing_text::write_listing`.
pub fn write_kept(kept: &[u8], count: usize, out: &mut [u8]) -> usize
    requires { (count < 4128) × (4128 ≤ length kept.now) }
    ensures listing { ListsInput kept.now count out.old result out.new }
    ensures inside { result ≤ length out.new }
{
    listing_text::write_listing(&kept[..count], out)
}

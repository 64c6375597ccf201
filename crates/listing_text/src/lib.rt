// The text of a listing: "one line a target record: number, kind, mark, A, B, C, literal; for a refused table one line,
// refusal number and record".

#![tactic(auto)]

ghost use Rattle.std.specs.Prelude.{◌≡◌, ◌≤◌, Ok, length};
ghost use Rattle.rules.specs.Listing.{natural, integer, record_line, listing};
ghost use Rattle.rules.specs.Kinds.{source};
ghost use Rattle.rules.specs.Checker.{check};
ghost use Rattle.rules.specs.Types.{rule_number};
ghost use Rattle.listing_text.specs.Writing.{Room, RoomFor, Written};
ghost use Rattle.listing_text.specs.Text.{spaced, three, refusal_line, table_lines, translated_lines};
ghost use Rattle.listing_text.specs.Text.{longest_text, listed};

use itoa::Buffer;
use rules::{Record, Refusal};

// A text at the start of lent bytes, and its length.
#[derive(Drop)]
struct Text<'a> {
    bytes: &'a mut [u8],
    length: usize,
}

impl Text<'_> {
    fn push(&mut self, text: &[u8])
        requires { Room self.old text.now }
        ensures { Written self.old text.now self.new }
    {
        let end = self.length + text.len();
        self.bytes[self.length..end].copy_from_slice(text);
        self.length = end;
    }

    fn natural(&mut self, n: u64)
        requires { Room self.old (natural n) }
        ensures { Written self.old (natural n) self.new }
    {
        self.push(Buffer::new().format(n).as_bytes());
    }

    fn integer(&mut self, z: i64)
        requires { Room self.old (integer z) }
        ensures { Written self.old (integer z) self.new }
    {
        if z < 0 {
            self.push(b"-");
        }
        self.natural(number::magnitude(z));
    }

    // A number and the space behind it.
    fn spaced(&mut self, n: u64)
        requires { Room self.old (spaced (natural n)) }
        ensures { Written self.old (spaced (natural n)) self.new }
    {
        self.natural(n);
        self.push(b" ");
    }

    // Three numbers, each with the space behind it.
    fn three(&mut self, x: u64, y: u64, z: u64)
        requires { Room self.old (three x y z) }
        ensures { Written self.old (three x y z) self.new }
    {
        self.spaced(x);
        self.spaced(y);
        self.spaced(z);
    }

    // The line of record n.
    fn line(&mut self, n: usize, record: Record)
        requires { Room self.old (record_line n «record») }
        ensures { Written self.old (record_line n «record») self.new }
    {
        self.three(n as u64, u64::from(record.kind), u64::from(record.mark));
        self.three(record.a as u64, record.b as u64, record.c as u64);
        self.integer(record.literal);
        self.push(b"\n");
    }

    // The lines of all records of a table.
    fn records(&mut self, table: &[u8])
        requires { Room self.old (table_lines table.now) }
        ensures { Written self.old (table_lines table.now) self.new }
    {
        for n in 1..=table.len() / 16 {
            self.line(n, table::record(table, n));
        }
    }

    // The refusal's number and record.
    fn refusal(&mut self, refusal: Refusal)
        requires { Room self.old (refusal_line (rule_number refusal.rule) refusal.«record») }
        ensures { Written self.old (refusal_line (rule_number refusal.rule) refusal.«record») self.new }
    {
        self.spaced(u64::from(u32::from(refusal.rule)));
        self.natural(u64::from(refusal.record));
        self.push(b"\n");
    }

    // The lines of an accepted table's translation, of which there are at most 3,584.
    fn translation(&mut self, table: &[u8])
        requires { (check source table.now ≡ Ok tt) × RoomFor self.old longest_text }
        ensures { Written self.old (translated_lines table.now) self.new }
    {
        let mut target = [0u8; 57344];
        if let Ok(count) = translation::translate_accepted(table, &mut target) {
            self.records(&target[..count as usize * 16]);
        }
    }

    fn listing(&mut self, table: &[u8])
        requires { RoomFor self.old longest_text }
        ensures { Written self.old (listing table.now) self.new }
    {
        match checker::check_source(table) {
            Ok(()) => self.translation(table),
            Err(refusal) => self.refusal(refusal),
        }
    }
}

// The listing is put at the start of `out`, and its length returned. Where `out` has fewer than 186,368 bytes, which
// the longest listing may need, nothing is written and 0 returned.
pub fn write_listing(table: &[u8], out: &mut [u8]) -> usize
    ensures length { result ≡ (listed table.now out.old).length }
    ensures text { out.new ≡ (listed table.now out.old).out }
{
    if out.len() < 186368 {
        return 0;
    }
    let mut text = Text {
        bytes: out,
        length: 0,
    };
    text.listing(table);
    text.length
}

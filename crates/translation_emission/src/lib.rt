// Records put into the output, child-first: one record, copies of expressions and places, and sequences.

#![tactic(auto)]

ghost use Rattle.std.specs.Prelude.{◌≡◌, ◌++◌, ◌+◌, ◌≤◌, pos, length};
ghost use Rattle.rules.specs.Sizes.{source_limit};
ghost use Rattle.rules.specs.Words.{put, digits};
ghost use Rattle.rules.specs.Records.{record_bytes};
ghost use Rattle.rules.specs.Emission.{root_number};
ghost use Rattle.translation_emission.specs.Emission.{record_of, RoomFor, Room, Pushed, Emitted, Copied, part_tree};
ghost use Rattle.translation_emission.specs.Emission.{leaf_tree};
ghost use Rattle.translation_sizes.specs.Trees.{copy_at};

use rules::Record;

// A record of zeros, of which others name what they change.
pub const EMPTY: Record = Record {
    kind: 0,
    mark: 0,
    a: 0,
    b: 0,
    c: 0,
    literal: 0,
};

// A record of statement s without children.
pub fn statement_record(kind: u8, mark: u8, s: usize) -> Record
    requires { s ≤ source_limit }
    ensures { result ≡ record_of kind mark 0 0 0 (pos s) }
{
    let literal = s as i64;
    Record {
        kind,
        mark,
        literal,
        ..EMPTY
    }
}

// The three children of a record, two bytes each.
fn write_children(bytes: &mut [u8], place: usize, a: usize, b: usize, c: usize)
    requires { place + 6 ≤ length bytes.old }
    ensures { bytes.new ≡ put bytes.old place (digits 2 a ++ digits 2 b ++ digits 2 c) }
{
    byte_words::write_word(bytes, place, 2, a as u64);
    byte_words::write_word(bytes, place + 2, 2, b as u64);
    byte_words::write_word(bytes, place + 4, 2, c as u64);
}

// A record, sixteen bytes.
fn write_record(bytes: &mut [u8], place: usize, record: Record)
    requires { place + 16 ≤ length bytes.old }
    ensures { bytes.new ≡ put bytes.old place (record_bytes «record») }
{
    bytes[place] = record.kind;
    bytes[place + 1] = record.mark;
    write_children(bytes, place + 2, record.a, record.b, record.c);
    byte_words::write_i64(bytes, place + 8, record.literal);
}

// The records that stand in lent bytes, and how many they are.
#[derive(Drop)]
pub struct Output<'a> {
    pub bytes: &'a mut [u8],
    pub count: usize,
}

impl Output<'_> {
    pub fn push(&mut self, record: Record)
        requires { RoomFor self.old 1 }
        ensures { Pushed self.old «record» self.new }
    {
        write_record(self.bytes, 16 * self.count, record);
        self.count += 1;
    }

    // A copy of an expression or a place; its own record's number is returned, 0 where it is none.
    #[tactic(auto, using(crate::proofs::Copying::within_copied))]
    pub fn copy(&mut self, table: &[u8], n: usize) -> usize
        requires { (Copied table.now n) × (Room self.old (copy_at table.now n)) }
        ensures emitted { Emitted self.old (copy_at table.now n) self.new }
        ensures root { result ≡ root_number (copy_at table.now n) self.old.count }
    {
        if n == 0 {
            return 0;
        }
        let source = table::record(table, n);
        let a = self.copy(table, source.a);
        let b = self.copy(table, source.b);
        self.push(Record {
            a,
            b,
            c: 0,
            ..source
        });
        self.count
    }

    // A record of statement s over copies of two records.
    pub fn part(&mut self, table: &[u8], kind: u8, mark: u8, a: usize, b: usize, s: usize)
        requires fact_1 { Copied table.now a }
        requires fact_2 { Copied table.now b }
        requires fact_3 { s ≤ source_limit }
        requires fact_4 { Room self.old (part_tree table.now s kind mark a b) }
        ensures { Emitted self.old (part_tree table.now s kind mark a b) self.new }
    {
        let x = self.copy(table, a);
        let y = self.copy(table, b);
        self.push(Record {
            a: x,
            b: y,
            ..statement_record(kind, mark, s)
        });
    }

    // A record of statement s without children, with a number in field C.
    pub fn leaf(&mut self, kind: u8, mark: u8, c: usize, s: usize)
        requires fact_1 { s ≤ source_limit }
        requires fact_2 { RoomFor self.old 1 }
        ensures { Emitted self.old (leaf_tree s kind mark c) self.new }
    {
        self.push(Record {
            c,
            ..statement_record(kind, mark, s)
        });
    }

    // A sequence of statement s: the part that ends with record `first`, then all behind it.
    pub fn sequence(&mut self, first: usize, s: usize)
        requires fact_1 { s ≤ source_limit }
        requires fact_2 { RoomFor self.old 1 }
        ensures { Pushed self.old (record_of 44 0 first self.old.count 0 (pos s)) self.new }
    {
        self.push(Record {
            a: first,
            b: self.count,
            ..statement_record(44, 0, s)
        });
    }
}

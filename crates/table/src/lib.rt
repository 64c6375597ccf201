// The fields of a table's records.

#![tactic(auto)]

ghost use Rattle.std.specs.Prelude.{◌≡◌, ◌+◌, ◌≤◌};
ghost use Rattle.rules.specs.Words.{word_at};
ghost use Rattle.rules.specs.Records.{start, kind_of, mark_of, child_a, child_b, child_c, literal_of, record_at};
ghost use Rattle.table.specs.Within.{Within};

use rules::Record;

pub fn kind(table: &[u8], n: usize) -> u8
    requires { Within table.now n }
    ensures { result ≡ kind_of table.now n }
{
    table[(n - 1) * 16]
}

pub fn mark(table: &[u8], n: usize) -> u8
    requires { Within table.now n }
    ensures { result ≡ mark_of table.now n }
{
    table[(n - 1) * 16 + 1]
}

// The two bytes at a place in a record.
fn pair(table: &[u8], n: usize, place: usize) -> usize
    requires { Within table.now n × (place ≤ 14) }
    ensures { result ≡ word_at 2 table.now (start n + place) }
{
    byte_words::read_word(table, (n - 1) * 16 + place, 2) as usize
}

pub fn child_a(table: &[u8], n: usize) -> usize
    requires { Within table.now n }
    ensures { result ≡ child_a table.now n }
{
    pair(table, n, 2)
}

pub fn child_b(table: &[u8], n: usize) -> usize
    requires { Within table.now n }
    ensures { result ≡ child_b table.now n }
{
    pair(table, n, 4)
}

pub fn child_c(table: &[u8], n: usize) -> usize
    requires { Within table.now n }
    ensures { result ≡ child_c table.now n }
{
    pair(table, n, 6)
}

pub fn literal(table: &[u8], n: usize) -> i64
    requires { Within table.now n }
    ensures { result ≡ literal_of table.now n }
{
    byte_words::read_i64(table, (n - 1) * 16 + 8)
}

pub fn record(table: &[u8], n: usize) -> Record
    requires { Within table.now n }
    ensures { result ≡ record_at table.now n }
{
    Record {
        kind: kind(table, n),
        mark: mark(table, n),
        a: child_a(table, n),
        b: child_b(table, n),
        c: child_c(table, n),
        literal: literal(table, n),
    }
}

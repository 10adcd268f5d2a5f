// The writer of a record: the numbers of edition, M, H and records become bytes.
ghost use Rattle.std.specs.Prelude.{◌≡◌, ◌+◌, ◌*◌, ◌^◌, ◌<◌, ◌≤◌, length, drop, set, get_or};
ghost use Rattle.record.specs.Kinds.{fields_known};
ghost use Rattle.record.specs.Writing.{take_fields, take_named, write_end, write_records};
ghost use Rattle.record.specs.Writing;
ghost use Rattle.record.specs.WritingSteps.{Puts, Takes, store, given_last, to_the_end, record_kinds, number_of, count_of, answer_of};
ghost use Rattle.record.specs.Promises.{Writes};

use crate::kinds::{MOST32, fields_of_edition, fields_of_kind};

// What refuses a list, by document 02's numbers.
#[derive(Clone, Copy, PartialEq, Eq)]
pub enum WriteFault {
    // There is no such edition or kind.
    Unknown = 22,
    // A number is above its limit, or there are too many records.
    TooLarge = 23,
    // The lent bytes are too few.
    TooShort = 25,
    // The list ends inside an entry: no answer of document 02.
    NotUnderstood = 4294967295,
}

impl WriteFault {
    // Its number as an answer. A method and no `From`: its clause names the definition of the numbers.
    pub fn number(self) -> u32
        ensures { result ≡ number_of self }
    {
        self as u32
    }
}

// After an entry: where the next number is, and the place behind the bytes.
#[derive(Clone, Copy)]
struct Took {
    next: usize,
    end: usize,
}

// Stores a byte; past the end of the lent bytes nothing is stored.
fn put_byte(b: u8, bytes: &mut [u8], at: usize)
    ensures { bytes.new ≡ set bytes.old at b }
{
    if at < bytes.len() {
        bytes[at] = b;
    }
}

// Stores the bytes of a number from `at` on, the lowest seven bits first, the high bit set on all but the last. Gives back the
// place behind them.
fn put_number(n: u32, bytes: &mut [u8], at: usize) -> usize
    requires { at + 5 < 2 ^ 64 }
    ensures { Puts n bytes.old bytes.new at result }
{
    let mut left = n;
    let mut end = at;
    // By groups, as many as the number has.
    while 128 <= left {
        put_byte((left % 128 + 128) as u8, bytes, end);
        left = left / 128;
        end += 1;
    }
    put_byte(left as u8, bytes, end);
    end + 1
}

// The fields of a record's kind, 1 to 11; there are no others, and 0, the end, is no record.
fn fields_of_record(kind: u32) -> Option<&'static [u32]>
    ensures { fields_known result ≡ record_kinds kind }
{
    if kind == 0 {
        return None;
    }
    fields_of_kind(kind)
}

// Takes a number for each field, from the number `at` on, and stores their bytes from `to` on. Refused are a number above its limit
// and a list that ends too soon. A number has at most five bytes, so no place is too large.
fn put_fields(
    fields: &[u32],
    numbers: &[u32],
    at: usize,
    bytes: &mut [u8],
    to: usize,
) -> Result<Took, WriteFault>
    requires { (at ≤ length numbers.now) × (to ≤ 5 * at) }
    ensures { Takes (take_fields fields.now (drop at numbers.now)) numbers.now bytes.old bytes.new at to result }
{
    // The place of the next number goes along by hand: a list that ends too soon is refused here, which a zip would pass over.
    let mut next = at;
    let mut end = to;
    for limit in fields {
        if numbers.len() <= next {
            return Err(WriteFault::NotUnderstood);
        }
        let n = numbers[next];
        if *limit < n {
            return Err(WriteFault::TooLarge);
        }
        end = put_number(n, bytes, end);
        next += 1;
    }
    Ok(Took { next, end })
}

// Takes the number `at`, which names these fields, and then the fields. Refused is a number that names none.
fn put_entry(
    fields: Option<&[u32]>,
    numbers: &[u32],
    at: usize,
    bytes: &mut [u8],
    to: usize,
) -> Result<Took, WriteFault>
    requires { (at < length numbers.now) × (to ≤ 5 * at) }
    ensures { Takes (take_named (fields_known fields.entry) (get_or numbers.now at 0) (drop (at + 1) numbers.now)) numbers.now bytes.old bytes.new (at + 1) to result }
{
    let Some(fields) = fields else {
        return Err(WriteFault::Unknown);
    };
    let end = put_number(numbers[at], bytes, to);
    put_fields(fields, numbers, at + 1, bytes, end)
}

// Stores the end: kind 0 and how many records came before it, which must be a number of 32 bits. Gives back the place behind it.
fn put_end(records: usize, bytes: &mut [u8], to: usize) -> Result<usize, WriteFault>
    requires { to + 10 < 2 ^ 64 }
    ensures { given_last bytes.new result ≡ store bytes.old to (to_the_end (write_end records)) }
{
    if (MOST32 as usize) < records {
        return Err(WriteFault::TooLarge);
    }
    let kind_end = put_number(0, bytes, to);
    Ok(put_number(records as u32, bytes, kind_end))
}

// Takes the records from the number `at` on, and stores their bytes and those of the end from `to` on.
fn put_records(numbers: &[u32], at: usize, bytes: &mut [u8], to: usize) -> Result<usize, WriteFault>
    requires { (at ≤ length numbers.now) × (to ≤ 5 * at) }
    ensures { given_last bytes.new result ≡ store bytes.old to (to_the_end (write_records 0 (drop at numbers.now))) }
{
    let mut next = at;
    let mut end = to;
    let mut records = 0;
    // By entries, each as long as its kind's fields.
    while next < numbers.len() {
        let fields = fields_of_record(numbers[next]);
        let took = put_entry(fields, numbers, next, bytes, end)?;
        next = took.next;
        end = took.end;
        records += 1;
    }
    put_end(records, bytes, end)
}

// Goes through all the numbers and stores as many bytes as the lent ones hold. Gives back how many there are, or what refuses
// the list.
fn put_all(numbers: &[u32], bytes: &mut [u8]) -> Result<usize, WriteFault>
    ensures { given_last bytes.new result ≡ store bytes.old 0 (to_the_end (Writing.write numbers.now)) }
{
    if numbers.is_empty() {
        return Err(WriteFault::NotUnderstood);
    }
    let fields = fields_of_edition(numbers[0]);
    let took = put_entry(fields, numbers, 0, bytes, 0)?;
    put_records(numbers, took.next, bytes, took.end)
}

// Writes the bytes of edition, M and H, of the records and of the end into the front of the lent bytes, and gives back how many
// there are. Refused, nothing is written: 22 for an unknown edition or kind, 23 for a number above its limit or too many records,
// 4294967295 for a list that ends inside an entry, whichever comes first; then 25 where the lent bytes are too few.
pub fn write(numbers: &[u32], bytes: &mut [u8]) -> Result<usize, WriteFault>
    ensures { Writes numbers.now bytes.old bytes.new (count_of result) (answer_of result) }
{
    // The first pass has no bytes to store into.
    let count = put_all(numbers, &mut [])?;
    if bytes.len() < count {
        return Err(WriteFault::TooShort);
    }
    put_all(numbers, bytes)
}

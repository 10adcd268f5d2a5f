// The C interface of the reader and the writer of records. A C caller sees to it that the lent parts have the lengths that are given
// with them and do not overlap; whatever they hold is right.
ghost use Rattle.std.specs.Prelude.{◌≡◌};
ghost use Rattle.capi.specs.Strings.{few, CReads, CWrites};

use crate::NOT_UNDERSTOOD;

// A lent part with 2^48 elements or more is not taken, so that what is given back has 64 bits.
const TOO_MANY: usize = 281474976710656;

// Whether the lengths of the lent parts are below that.
fn few(m: usize, n: usize) -> bool
    ensures { result ≡ few m n }
{
    m < TOO_MANY && n < TOO_MANY
}

// Reads a string of bytes, as `record::read` does: edition, M, H and each whole record's kind and fields go into the front of the lent
// numbers, and what is given back is how many there are, times 256, plus the answer, 0 or 20 to 24. With fewer lent numbers than bytes,
// or 2^48 elements or more in a lent part, nothing is changed and 4,294,967,295 is given back.
pub fn gloamish_read(bytes: &[u8], numbers: &mut [u32]) -> u64
    ensures { CReads bytes.now numbers.old numbers.new result }
{
    if !few(bytes.len(), numbers.len()) {
        return u64::from(NOT_UNDERSTOOD);
    }
    let got = record::read(bytes, numbers);
    got.count as u64 * 256 + u64::from(got.answer)
}

// Writes the same list of numbers as bytes, as `record::write` does, into the front of the lent bytes, and gives back how many bytes
// there are, times 256, plus the answer, 0; or, with nothing changed, 22, 23 or 25. Where the list, with no fault before, ends inside
// edition, M and H or inside a record, or a lent part has 2^48 elements or more, nothing is changed and 4,294,967,295 is given back.
pub fn gloamish_write(numbers: &[u32], bytes: &mut [u8]) -> u64
    ensures { CWrites numbers.now bytes.old bytes.new result }
{
    if !few(numbers.len(), bytes.len()) {
        return u64::from(NOT_UNDERSTOOD);
    }
    match record::write(numbers, bytes) {
        Ok(count) => count as u64 * 256,
        Err(fault) => u64::from(fault.number()),
    }
}

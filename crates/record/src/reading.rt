// Reading a whole string: edition, M and H, then record after record up to the end or to the first fault.
ghost use Rattle.std.specs.Prelude.{[], ◌∷◌, ◌≡◌, ◌+◌, ◌≤◌, length, take, drop};
ghost use Rattle.record.specs.Reading.{ending};
ghost use Rattle.record.specs.Promises.{Reads};
ghost use Rattle.record.specs.Turns.{size_of, put_at, Fit, Turned};

use crate::entry::{Entry, head_of, record_at};

// How many numbers were put, and the answer. No `Result`: on a refusal both mean something, for what stands before the fault was put.
#[derive(Clone, Copy)]
pub struct Got {
    pub count: usize,
    pub answer: u32,
}

// Where the reading stands: the place of the next byte and that of the next number, and how many records were read.
#[derive(Clone, Copy)]
struct Place {
    at: usize,
    n: usize,
    count: usize,
}

// What comes of a place: the place behind the record that begins there, or the answer, where the reading ends. No `Result`: an end is no error, and
// its answer may be 0.
#[derive(Clone, Copy)]
enum Turn {
    On(Place),
    Ended(u32),
}

// How many numbers a record of this kind has, the kind among them; 1 for an unknown kind. Written out for speed, as `fields_of` in entry.rt is.
#[tactic(auto, using(crate::proofs::KindTable::no_kind), unfolding(crate::specs::Turns::size_of, crate::specs::Fields::kinds, crate::specs::Fields::row))]
fn size_of(kind: u32) -> usize
    ensures { result ≡ size_of kind }
{
    match kind {
        0 | 2 | 11 => 2,
        1 | 3 | 4 | 8 | 9 => 3,
        5 | 6 | 7 | 10 => 4,
        _ => 1,
    }
}

// The first `size` of an entry's kind and fields go into the places from `n` on. By single stores: two to four numbers copied as a slice were a
// call of memcpy for each record, which a C caller had to link, and reading took about twice as long (docs/PERFORMANCE.md).
fn put(numbers: &mut [u32], n: usize, size: usize, e: Entry)
    requires { (n + size ≤ length numbers.old) × (2 ≤ size) × (size ≤ 4) }
    ensures { numbers.new ≡ put_at numbers.old n (take size (e.kind ∷ e.a ∷ e.b ∷ e.c ∷ [])) }
{
    numbers[n] = e.kind;
    numbers[n + 1] = e.a;
    if size == 2 {
        return;
    }
    numbers[n + 2] = e.b;
    if size == 3 {
        return;
    }
    numbers[n + 3] = e.c;
}

// What an end with this count answers that stands before `next`: 23 where another number of records came before it, else 24 where
// bytes follow, else 0. Document 02's numbers, which the call gives: two of the three refuse no record.
#[tactic(auto, unfolding(crate::specs::Reading::ending, crate::specs::Reading::nothing_behind))]
fn ending(bytes: &[u8], next: usize, told: u32, count: usize) -> u32
    ensures { result ≡ ending count (0 ∷ told ∷ []) (drop next bytes.now) }
{
    if told as usize == count {
        if next < bytes.len() {
            return 24;
        }
        return 0;
    }
    23
}

// One record: its numbers go into the next places, and the reading goes on behind it. A refused record and the end stop it.
fn read_one(bytes: &[u8], numbers: &mut [u32], place: Place) -> Turn
    requires { Fit bytes.now numbers.old place }
    ensures { Turned bytes.now numbers.old numbers.new place result }
{
    let Place { at, n, count } = place;
    let e = match record_at(bytes, at) {
        Ok(e) => e,
        Err(fault) => return Turn::Ended(fault.number()),
    };
    if e.kind == 0 {
        return Turn::Ended(ending(bytes, e.next, e.a, count));
    }
    let size = size_of(e.kind);
    put(numbers, n, size, e);
    Turn::On(Place {
        at: e.next,
        n: n + size,
        count: count + 1,
    })
}

// Reads a string of bytes: puts edition, M and H and then each whole record's kind and fields into `numbers`, one after the other, up
// to the end or to what refuses the string. Gives how many were put and the answer, 0 or 20 to 24; the numbers behind them stay as they
// were. With fewer lent numbers than bytes nothing is read, and the answer is 4,294,967,295.
pub fn read(bytes: &[u8], numbers: &mut [u32]) -> Got
    ensures { Reads bytes.now numbers.old numbers.new result.count result.answer }
{
    if numbers.len() < bytes.len() {
        return Got {
            count: 0,
            answer: 4294967295,
        };
    }
    let e = match head_of(bytes) {
        Ok(e) => e,
        Err(fault) => {
            return Got {
                count: 0,
                answer: fault.number(),
            };
        }
    };
    put(numbers, 0, 3, e);
    let mut place = Place {
        at: e.next,
        n: 3,
        count: 0,
    };
    // By records, each as long as its fields.
    loop {
        match read_one(bytes, numbers, place) {
            Turn::On(further) => place = further,
            Turn::Ended(answer) => {
                return Got {
                    count: place.n,
                    answer,
                };
            }
        }
    }
}

// A record, and the head of a string: a number that says what follows, and its fields.
ghost use Rattle.std.specs.Prelude.{[], ◌∷◌, ◌≡◌, length, drop};
ghost use Rattle.record.specs.Fields.{most16, joined, field, fields, kinds, editions, entry};
ghost use Rattle.record.specs.Found.{said, as_number, told, as_entry, fields_in, last_in};

use crate::number::{Fault, Number, number_at, refusal};

// What was read whole: a kind or an edition, its fields, 0 for those that it does not have, and the place behind it.
#[derive(Clone, Copy)]
pub struct Entry {
    pub kind: u32,
    pub a: u32,
    pub b: u32,
    pub c: u32,
    pub next: usize,
}

// The limits of a field: 16 and 32 bits.
const MOST_16: u32 = 65535;

const MOST_32: u32 = 4294967295;

// A number that is at most `limit`; 23 where it is above.
#[tactic(auto, using(crate::proofs::Groups::is_found, crate::proofs::Groups::is_refused), unfolding(crate::specs::Fields::field, crate::specs::Fields::within))]
fn field_at(bytes: &[u8], at: usize, limit: u32) -> Number
    ensures { said result ≡ as_number (length bytes.now) (field limit (drop at bytes.now)) }
{
    let n = number_at(bytes, at);
    let Number::Found(v, next) = n else {
        return n;
    };
    if v <= limit {
        return Number::Found(v, next);
    }
    Number::Refused(Fault::TooLarge)
}

// `kind` with one field. `one`, `two` and `three` stay apart, and each is called from one place: the compiled reader was slower otherwise
// (docs/PERFORMANCE.md).
#[tactic(auto, using(crate::proofs::Entries::after_field), unfolding(crate::specs::Fields::joined, crate::specs::Fields::fields))]
fn one(bytes: &[u8], at: usize, kind: u32, limit: u32) -> Result<Entry, Fault>
    ensures { told result ≡ as_entry (length bytes.now) (joined kind (fields (limit ∷ []) (drop at bytes.now))) }
{
    let n = field_at(bytes, at, limit);
    let Number::Found(a, next) = n else {
        return Err(refusal(n));
    };
    Ok(Entry {
        kind,
        a,
        b: 0,
        c: 0,
        next,
    })
}

// `kind` with two fields, the first of 16 bits.
#[tactic(auto, using(crate::proofs::Entries::after_field), unfolding(crate::specs::Fields::joined, crate::specs::Fields::fields))]
fn two(bytes: &[u8], at: usize, kind: u32, limit: u32) -> Result<Entry, Fault>
    ensures { told result ≡ as_entry (length bytes.now) (joined kind (fields (most16 ∷ limit ∷ []) (drop at bytes.now))) }
{
    let n = field_at(bytes, at, MOST_16);
    let Number::Found(a, second) = n else {
        return Err(refusal(n));
    };
    let m = field_at(bytes, second, limit);
    let Number::Found(b, next) = m else {
        return Err(refusal(m));
    };
    Ok(Entry {
        kind,
        a,
        b,
        c: 0,
        next,
    })
}

// `kind` with three fields of 16 bits.
#[tactic(auto, using(crate::proofs::Entries::after_field), unfolding(crate::specs::Fields::joined, crate::specs::Fields::fields))]
fn three(bytes: &[u8], at: usize, kind: u32) -> Result<Entry, Fault>
    ensures { told result ≡ as_entry (length bytes.now) (joined kind (fields (most16 ∷ most16 ∷ most16 ∷ []) (drop at bytes.now))) }
{
    let n = field_at(bytes, at, MOST_16);
    let Number::Found(a, second) = n else {
        return Err(refusal(n));
    };
    let m = field_at(bytes, second, MOST_16);
    let Number::Found(b, third) = m else {
        return Err(refusal(m));
    };
    let l = field_at(bytes, third, MOST_16);
    let Number::Found(c, next) = l else {
        return Err(refusal(l));
    };
    Ok(Entry {
        kind,
        a,
        b,
        c,
        next,
    })
}

// How many fields a kind has; 0 for a kind that there is not. Apart from the table in kinds.rt, as are the next and `size_of` in reading.rt: reading by
// a row of that table is slower (docs/PERFORMANCE.md).
#[tactic(auto, using(crate::proofs::KindTable::no_kind), unfolding(crate::specs::Fields::kinds, crate::specs::Fields::row))]
fn fields_of(kind: u32) -> u32
    ensures { result ≡ fields_in (kinds kind) }
{
    match kind {
        0 | 2 | 11 => 1,
        1 | 3 | 4 | 8 | 9 => 2,
        5 | 6 | 7 | 10 => 3,
        _ => 0,
    }
}

// The limit of a kind's last field. Those before it have 16 bits.
#[tactic(auto, using(crate::proofs::KindTable::no_kind), unfolding(crate::specs::Fields::kinds, crate::specs::Fields::row))]
fn limit_of(kind: u32) -> u32
    ensures { result ≡ last_in (kinds kind) }
{
    match kind {
        0 | 1 | 11 => MOST_32,
        _ => MOST_16,
    }
}

// The record that begins at `at`, or kind 0 and the count at the end: 20 and 21 as a number, 22 for an unknown kind, 23 for a field that
// is too large for its kind. By tests: a `match` of how many fields there are made playing slower by a fiftieth.
#[tactic(auto, using(crate::proofs::Entries::after_number, crate::proofs::KindTable::shaped), unfolding(crate::specs::Fields::entry, crate::specs::Fields::named))]
pub fn record_at(bytes: &[u8], at: usize) -> Result<Entry, Fault>
    ensures { told result ≡ as_entry (length bytes.now) (entry kinds (drop at bytes.now)) }
{
    let n = number_at(bytes, at);
    let Number::Found(kind, next) = n else {
        return Err(refusal(n));
    };
    let many = fields_of(kind);
    if many == 2 {
        return two(bytes, next, kind, limit_of(kind));
    }
    if many == 3 {
        return three(bytes, next, kind);
    }
    if many == 1 {
        return one(bytes, next, kind, limit_of(kind));
    }
    Err(Fault::Unknown)
}

// M and H, behind the edition. That this is not `two` leaves `two` called from one place.
#[tactic(auto, using(crate::proofs::Entries::after_field), unfolding(crate::specs::Fields::joined, crate::specs::Fields::fields))]
fn sizes(bytes: &[u8], at: usize, edition: u32) -> Result<Entry, Fault>
    ensures { told result ≡ as_entry (length bytes.now) (joined edition (fields (most16 ∷ most16 ∷ []) (drop at bytes.now))) }
{
    let n = field_at(bytes, at, MOST_16);
    let Number::Found(m, second) = n else {
        return Err(refusal(n));
    };
    let l = field_at(bytes, second, MOST_16);
    let Number::Found(h, next) = l else {
        return Err(refusal(l));
    };
    Ok(Entry {
        kind: edition,
        a: m,
        b: h,
        c: 0,
        next,
    })
}

// Edition, M and H at the start: 20 and 21 as a number, 22 for an unknown edition, 23 for M or H above 65,535.
#[tactic(auto, using(crate::proofs::Entries::after_first), unfolding(crate::specs::Fields::entry, crate::specs::Fields::named, crate::specs::Fields::editions))]
pub fn head_of(bytes: &[u8]) -> Result<Entry, Fault>
    ensures { told result ≡ as_entry (length bytes.now) (entry editions bytes.now) }
{
    let n = number_at(bytes, 0);
    let Number::Found(edition, next) = n else {
        return Err(refusal(n));
    };
    if edition == 1 {
        return sizes(bytes, next, edition);
    }
    Err(Fault::Unknown)
}

// What is to be done next with the bytes at hand.
ghost use Rattle.std.specs.Prelude.{List, ◌≡◌, ℕ, ◌≤◌, Some, length, drop};
ghost use Rattle.record.specs.Found.{number_of, place_of, entry_of};
ghost use Rattle.record.specs.Requests.{request_of};
ghost use Rattle.pieces.specs.declared.place.Deed.TheVariants.{Say};
ghost use Rattle.pieces.specs.Pieces.{ended, one_more, counted, refuse, finish, asked, play_now, take_record, next_record, go_on, look_behind, next};
ghost use Rattle.pieces.specs.Moves.{moved, as_move};

use crate::place::{Deed, Place};
use record::{Entry, Fault, record_at, request_of};

// A deed, where the playing then stands, and the place behind what was read.
#[derive(Clone, Copy)]
pub struct Move {
    pub deed: Deed,
    pub place: Place,
    pub next: usize,
}

// A refusal by its number, which is the last line: one of the reader's, or 23 and 24, which are of the whole string.
fn said(a: u32, place: Place, at: usize) -> Move
    ensures { result ≡ moved (Say a) (ended place) at }
{
    Move {
        deed: Deed::Say(a),
        place: Place {
            stage: 4,
            left: 0,
            ..place
        },
        next: at,
    }
}

// The reader refuses what begins at `at`. Where it is only cut, more bytes may make it whole, unless these are the last.
#[tactic(auto, unfolding(crate::specs::Pieces::refuse, crate::specs::Pieces::may_come))]
fn refuse(last: bool, fault: Fault, place: Place, at: usize) -> Option<Move>
    ensures { (n : ℕ) (rest : List ℕ) → place_of n rest ≡ at → result ≡ as_move n (refuse last (number_of fault) place rest) }
{
    if fault == Fault::Cut && !last {
        return None;
    }
    Some(said(fault.number(), place, at))
}

// The end, with a count.
#[tactic(auto, unfolding(crate::specs::Pieces::finish))]
fn finish(place: Place, e: Entry) -> Move
    ensures { (n : ℕ) (ns : List ℕ) (rest : List ℕ) → entry_of n ns rest ≡ e → Some result ≡ as_move n (finish place ns rest) }
{
    if u64::from(e.a) == place.count {
        return Move {
            deed: Deed::Silent,
            place: Place {
                stage: 3,
                left: 0,
                ..place
            },
            next: e.next,
        };
    }
    said(23, place, e.next)
}

// One more record; the count stays where no count of 32 bits equals it.
#[tactic(auto, unfolding(crate::specs::Pieces::one_more))]
fn one_more(n: u64) -> u64
    ensures { result ≡ one_more n }
{
    if n < 4294967296 {
        return n + 1;
    }
    n
}

// One more record was read, and so many single steps are to be done.
fn counted(place: Place, left: u32) -> Place
    ensures { result ≡ counted place left }
{
    Place {
        count: one_more(place.count),
        left,
        ..place
    }
}

// The request of a record.
#[tactic(auto, unfolding(crate::specs::Pieces::asked))]
fn asked(e: Entry) -> Deed
    ensures { result ≡ asked (request_of e.kind e.a e.b e.c) }
{
    match request_of(e.kind, e.a, e.b, e.c) {
        Some(request) => Deed::Ask(request),
        None => Deed::Silent,
    }
}

// A record that is played: single steps are still to be done, its request is done now.
#[tactic(auto, unfolding(crate::specs::Pieces::play_now))]
fn play_now(place: Place, e: Entry) -> Move
    ensures { (n : ℕ) (ns : List ℕ) (rest : List ℕ) → entry_of n ns rest ≡ e → Some result ≡ as_move n (play_now place ns rest) }
{
    if e.kind == 11 {
        return Move {
            deed: Deed::Silent,
            place: counted(place, e.a),
            next: e.next,
        };
    }
    Move {
        deed: asked(e),
        place: counted(place, 0),
        next: e.next,
    }
}

// A record that was read whole. After a 10 it is only counted.
#[tactic(auto, unfolding(crate::specs::Pieces::take_record))]
fn take_record(place: Place, e: Entry) -> Move
    ensures { (n : ℕ) (ns : List ℕ) (rest : List ℕ) → entry_of n ns rest ≡ e → Some result ≡ as_move n (take_record place ns rest) }
{
    if e.kind == 0 {
        return finish(place, e);
    }
    if place.stage == 1 {
        return play_now(place, e);
    }
    Move {
        deed: Deed::Silent,
        place: counted(place, 0),
        next: e.next,
    }
}

fn next_record(last: bool, place: Place, input: &[u8], at: usize) -> Option<Move>
    requires { at ≤ length input.now }
    ensures { result ≡ as_move (length input.now) (next_record last place (drop at input.now)) }
{
    match record_at(input, at) {
        Ok(e) => Some(take_record(place, e)),
        Err(fault) => refuse(last, fault, place, at),
    }
}

// Single steps first, then the next record.
#[tactic(auto, using(crate::proofs::Choices::place_here), unfolding(crate::specs::Pieces::go_on))]
fn go_on(last: bool, place: Place, input: &[u8], at: usize) -> Option<Move>
    requires { at ≤ length input.now }
    ensures { result ≡ as_move (length input.now) (go_on last place (drop at input.now)) }
{
    if place.left == 0 {
        return next_record(last, place, input, at);
    }
    Some(Move {
        deed: Deed::Step,
        place: Place {
            left: place.left - 1,
            ..place
        },
        next: at,
    })
}

// Bytes behind the end.
#[tactic(auto, using(crate::proofs::Choices::place_here, crate::proofs::Choices::something_behind, crate::proofs::Choices::none_behind), unfolding(crate::specs::Pieces::look_behind))]
fn look_behind(place: Place, input: &[u8], at: usize) -> Option<Move>
    requires { at ≤ length input.now }
    ensures { result ≡ as_move (length input.now) (look_behind place (drop at input.now)) }
{
    if at < input.len() {
        return Some(said(24, place, at));
    }
    None
}

// The next thing to do with the bytes from `at` on; None where nothing can be done with them. By tests: a `match` of the stage made
// playing steps slower by a twentieth.
#[tactic(auto, unfolding(crate::specs::Pieces::next))]
pub fn next_move(last: bool, place: Place, input: &[u8], at: usize) -> Option<Move>
    requires { at ≤ length input.now }
    ensures { result ≡ as_move (length input.now) (next last place (drop at input.now)) }
{
    if place.stage < 3 {
        return go_on(last, place, input, at);
    }
    if place.stage == 3 {
        return look_behind(place, input, at);
    }
    None
}

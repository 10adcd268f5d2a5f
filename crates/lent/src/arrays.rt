// How the lent arrays become the struct that the collector's rules take, and how what a rule changed goes back: a field is stored
// only where it differs, so that the compiler drops what a phase never touches. All of it is on slices of the arrays, and not on the unit: the
// proof that a store is read back needs their lengths.
ghost use Rattle.std.specs.Prelude.{◌≡◌, ◌<◌, length};
ghost use Rattle.lent.specs.Lent.{state_of, put_at, put_flag};

use collector::State;

// The struct of the lent arrays.
pub fn taken(numbers: &[u32], switches: &[bool], hold: &[u16]) -> State
    requires { (length numbers.now ≡ 22) × (length switches.now ≡ 11) × (length hold.now ≡ 3) }
    ensures { result ≡ state_of numbers.now switches.now hold.now }
{
    State {
        m: numbers[0],
        h: numbers[1],
        top: numbers[2],
        free: numbers[3],
        phase: numbers[4],
        live: numbers[5],
        current: numbers[6],
        next: numbers[7],
        src: numbers[8],
        dest: numbers[9],
        tuple: numbers[10],
        size: numbers[11],
        index: numbers[12],
        copy: numbers[13],
        copy_flag: switches[8],
        held: switches[9],
        begun: switches[10],
        hold_register: hold[0],
        hold_size: hold[1],
        hold_tag: hold[2],
    }
}

// Number i, which was `old`, becomes `new`. This and the next are two, and not one generic function: that would have to be given the type's
// equality and its laws, and its contract to say them.
fn put_number(numbers: &mut [u32], i: usize, old: u32, new: u32)
    requires { i < length numbers.old }
    ensures { numbers.new ≡ put_at numbers.old i old new }
{
    if old != new {
        numbers[i] = new;
    }
}

// Switch i, which was `old`, becomes `new`.
fn put_switch(switches: &mut [bool], i: usize, old: bool, new: bool)
    requires { i < length switches.old }
    ensures { switches.new ≡ put_flag switches.old i old new }
{
    if old != new {
        switches[i] = new;
    }
}

// Puts back top, free, phase and live.
#[inline(always)]
pub fn put_room(numbers: &mut [u32], before: State, after: State)
    requires { length numbers.old ≡ 22 }
    ensures long { length numbers.old ≡ 22 }
    ensures stored { numbers.new ≡ put_at (put_at (put_at (put_at numbers.old 2 before.top after.top) 3 before.free after.free) 4 before.phase after.phase) 5 before.live after.live }
{
    put_number(numbers, 2, before.top, after.top);
    put_number(numbers, 3, before.free, after.free);
    put_number(numbers, 4, before.phase, after.phase);
    put_number(numbers, 5, before.live, after.live);
}

// Puts back the lists and the copy register.
#[inline(always)]
pub fn put_lists(numbers: &mut [u32], before: State, after: State)
    requires { length numbers.old ≡ 22 }
    ensures long { length numbers.old ≡ 22 }
    ensures stored { numbers.new ≡ put_at (put_at (put_at numbers.old 6 before.current after.current) 7 before.next after.next) 13 before.copy after.copy }
{
    put_number(numbers, 6, before.current, after.current);
    put_number(numbers, 7, before.next, after.next);
    put_number(numbers, 13, before.copy, after.copy);
}

// Puts back what the scan and the sweep walk with.
#[inline(always)]
pub fn put_walk(numbers: &mut [u32], before: State, after: State)
    requires { length numbers.old ≡ 22 }
    ensures long { length numbers.old ≡ 22 }
    ensures stored { numbers.new ≡ put_at (put_at (put_at (put_at (put_at numbers.old 8 before.src after.src) 9 before.dest after.dest) 10 before.tuple after.tuple) 11 before.size after.size) 12 before.index after.index }
{
    put_number(numbers, 8, before.src, after.src);
    put_number(numbers, 9, before.dest, after.dest);
    put_number(numbers, 10, before.tuple, after.tuple);
    put_number(numbers, 11, before.size, after.size);
    put_number(numbers, 12, before.index, after.index);
}

// Puts back the copy's flag, and whether a request is held and a cycle began under it.
#[inline(always)]
pub fn put_switches(switches: &mut [bool], before: State, after: State)
    requires { length switches.old ≡ 11 }
    ensures long { length switches.old ≡ 11 }
    ensures stored { switches.new ≡ put_flag (put_flag (put_flag switches.old 8 before.copy_flag after.copy_flag) 9 before.held after.held) 10 before.begun after.begun }
{
    put_switch(switches, 8, before.copy_flag, after.copy_flag);
    put_switch(switches, 9, before.held, after.held);
    put_switch(switches, 10, before.begun, after.begun);
}

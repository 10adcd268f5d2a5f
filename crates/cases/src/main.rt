// Runs the bench cases of document 01 on the proved memory unit, each from an opening of 16 words
// and 4 entries. A case gives one line: its name, what the opening and each call answered, and what is then seen.
#![tactic(auto)]

mod bench;
mod show;

use bench::Bench;
use rules::Request;
use std::io;

// More steps than any cycle of such a box takes: 8 times 16, and 2.
const CYCLE: u32 = 130;

// A case's name, and a box for it.
fn case(rt: &impl Print, name: &str) -> io::Result<Bench> {
    let bench = Bench::opened();
    print!(rt; "{name}")?;
    bench.answered(rt)?;
    Ok(bench)
}

// The end of a case's line.
fn end(rt: &impl Print) -> io::Result<()> {
    println!(rt;)
}

// The calls of P1.
fn first(rt: &impl Print, b: &mut Bench) -> io::Result<()> {
    b.ask(rt, Request::Getm { r: 0, n: 2, tag: 7 })
}

// The calls of P2.
fn second(rt: &impl Print, b: &mut Bench) -> io::Result<()> {
    first(rt, b)?;
    b.ask(rt, Request::Getm { r: 1, n: 1, tag: 0 })
}

// The calls of P3 up to its cycle.
fn linked(rt: &impl Print, b: &mut Bench) -> io::Result<()> {
    second(rt, b)?;
    b.ask(rt, Request::Store { r: 1, s: 0, k: 0 })?;
    b.ask(rt, Request::Setd { r: 1, v: 0 })
}

// The calls of P3.
fn third(rt: &impl Print, b: &mut Bench) -> io::Result<()> {
    linked(rt, b)?;
    b.run(rt, CYCLE)
}

// The calls of P5 up to its cycle.
fn fifth(rt: &impl Print, b: &mut Bench) -> io::Result<()> {
    second(rt, b)?;
    b.ask(rt, Request::Setd { r: 2, v: 0xABCD })?;
    b.ask(rt, Request::Store { r: 2, s: 1, k: 0 })?;
    b.ask(rt, Request::Setd { r: 0, v: 0 })
}

// A new tuple, and a second one.
fn tuples(rt: &impl Print) -> io::Result<()> {
    let mut b = case(rt, "P1")?;
    first(rt, &mut b)?;
    b.handle(rt, 0)?;
    b.word(rt, 0)?;
    b.top(rt)?;
    end(rt)?;
    let mut b = case(rt, "P2")?;
    second(rt, &mut b)?;
    b.handle(rt, 1)?;
    b.top(rt)?;
    end(rt)
}

// A cycle in place, and one that frees all.
fn cycles(rt: &impl Print) -> io::Result<()> {
    let mut b = case(rt, "P3")?;
    third(rt, &mut b)?;
    b.address(rt, 1)?;
    b.address(rt, 2)?;
    b.top(rt)?;
    end(rt)?;
    let mut b = case(rt, "P4")?;
    third(rt, &mut b)?;
    b.ask(rt, Request::Setd { r: 0, v: 0 })?;
    b.run(rt, CYCLE)?;
    b.top(rt)?;
    b.free(rt)?;
    end(rt)
}

// A cycle that moves a tuple.
fn moved(rt: &impl Print) -> io::Result<()> {
    let mut b = case(rt, "P5")?;
    fifth(rt, &mut b)?;
    b.run(rt, CYCLE)?;
    b.top(rt)?;
    b.word(rt, 0)?;
    b.word(rt, 1)?;
    b.zeros(rt, 2)?;
    end(rt)
}

// A word read and written while it is moved, and a cycle on an empty heap.
fn moving(rt: &impl Print) -> io::Result<()> {
    let mut b = case(rt, "P6")?;
    fifth(rt, &mut b)?;
    b.run(rt, 12)?;
    b.ask(rt, Request::Load { r: 3, s: 1, k: 0 })?;
    b.register(rt, 3)?;
    end(rt)?;
    let mut b = case(rt, "P7")?;
    fifth(rt, &mut b)?;
    b.run(rt, 12)?;
    b.ask(rt, Request::Setd { r: 3, v: 5 })?;
    b.ask(rt, Request::Store { r: 3, s: 1, k: 0 })?;
    b.run(rt, CYCLE)?;
    b.word(rt, 1)?;
    end(rt)?;
    let mut b = case(rt, "P8")?;
    b.run(rt, CYCLE)?;
    b.top(rt)?;
    end(rt)
}

// A tuple of n words after P2: just enough room, too little, and more than there is memory.
fn room(rt: &impl Print) -> io::Result<()> {
    let mut b = case(rt, "P9")?;
    second(rt, &mut b)?;
    b.ask(
        rt,
        Request::Getm {
            r: 2,
            n: 10,
            tag: 0,
        },
    )?;
    b.top(rt)?;
    end(rt)?;
    let mut b = case(rt, "P10")?;
    second(rt, &mut b)?;
    b.ask(
        rt,
        Request::Getm {
            r: 2,
            n: 11,
            tag: 0,
        },
    )?;
    b.later(rt, CYCLE)?;
    b.top(rt)?;
    b.held(rt)?;
    end(rt)?;
    let mut b = case(rt, "P11")?;
    second(rt, &mut b)?;
    b.ask(
        rt,
        Request::Getm {
            r: 2,
            n: 16,
            tag: 0,
        },
    )?;
    b.top(rt)?;
    end(rt)
}

// The last word of a tuple and the word behind it; the largest offset.
fn limits(rt: &impl Print) -> io::Result<()> {
    let mut b = case(rt, "P12")?;
    first(rt, &mut b)?;
    b.ask(rt, Request::Setd { r: 1, v: 0xABCD })?;
    b.ask(rt, Request::Load { r: 1, s: 0, k: 1 })?;
    b.ask(rt, Request::Load { r: 1, s: 0, k: 2 })?;
    b.register(rt, 1)?;
    end(rt)?;
    let mut b = case(rt, "ADVANCE")?;
    b.ask(rt, Request::Nil { r: 0 })?;
    b.ask(rt, Request::Advance { r: 0, n: 65534 })?;
    b.ask(rt, Request::Advance { r: 0, n: 2 })?;
    b.ask(rt, Request::Advance { r: 0, n: 1 })?;
    b.register(rt, 0)?;
    end(rt)
}

// P3's cycle with a budget.
fn with_budget(rt: &impl Print, name: &str, most: u32) -> io::Result<()> {
    let mut b = case(rt, name)?;
    linked(rt, &mut b)?;
    b.budget(rt, most)?;
    end(rt)
}

fn main(rt: HostRuntime) -> io::Result<()> {
    tuples(&rt)?;
    cycles(&rt)?;
    moved(&rt)?;
    moving(&rt)?;
    room(&rt)?;
    limits(&rt)?;
    // One step too few, just enough, and none.
    with_budget(&rt, "budget 9", 9)?;
    with_budget(&rt, "budget 10", 10)?;
    with_budget(&rt, "budget 0", 0)
}

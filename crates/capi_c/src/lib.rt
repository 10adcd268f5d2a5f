// The C interface as a static library, for C and Rust to link. Each export calls the function of crate capi that has its name, with the same
// promise; for the opening and a request it makes the memory unit of what a C caller lends part by part. A C caller sees to what capi says of the
// lent parts.
#![tactic(auto)]

ghost use Rattle.capi.specs.Promises.{parts, Opens, Asks, Steps, Runs};
ghost use Rattle.capi.specs.Strings.{CReads, CWrites};

use lent::MemoryUnit;

// Opens a box of m words and h entries, as `memory::open` does.
#[unsafe(no_mangle)]
pub extern "C" fn gloamish_open(
    m: u32,
    h: u32,
    numbers: &mut [u32; 22],
    switches: &mut [bool; 11],
    hold: &mut [u16; 3],
    words: &mut [u32],
    flags: &mut [bool],
    addresses: &mut [u32],
    sizes: &mut [u32],
    links: &mut [u32],
    marks: &mut [bool],
    deeps: &mut [bool],
) -> u32
    ensures { Opens m h (parts numbers.old switches.old hold.old words.old flags.old addresses.old sizes.old links.old marks.old deeps.old) (parts numbers.new switches.new hold.new words.new flags.new addresses.new sizes.new links.new marks.new deeps.new) result }
{
    let mut unit = MemoryUnit {
        numbers,
        switches,
        hold,
        words,
        flags,
        addresses,
        sizes,
        links,
        marks,
        deeps,
    };
    capi::gloamish_open(&mut unit, m, h)
}

// One request: its kind's number and its fields in document 01's order. Answers as `memory::request` does; an unknown kind or a
// 16-bit field above 65,535 answers 4,294,967,295, and nothing is changed.
#[unsafe(no_mangle)]
pub extern "C" fn gloamish_request(
    kind: u32,
    a: u32,
    b: u32,
    c: u32,
    numbers: &mut [u32; 22],
    switches: &mut [bool; 11],
    hold: &mut [u16; 3],
    words: &mut [u32],
    flags: &mut [bool],
    addresses: &mut [u32],
    sizes: &mut [u32],
    links: &mut [u32],
    marks: &mut [bool],
    deeps: &mut [bool],
) -> u32
    ensures { Asks kind a b c (parts numbers.old switches.old hold.old words.old flags.old addresses.old sizes.old links.old marks.old deeps.old) (parts numbers.new switches.new hold.new words.new flags.new addresses.new sizes.new links.new marks.new deeps.new) result }
{
    let mut unit = MemoryUnit {
        numbers,
        switches,
        hold,
        words,
        flags,
        addresses,
        sizes,
        links,
        marks,
        deeps,
    };
    capi::gloamish_request(&mut unit, kind, a, b, c)
}

// One step of the collector, as `memory::step` does it. It only reads the hold's numbers, which no step changes.
#[unsafe(no_mangle)]
pub extern "C" fn gloamish_step(
    numbers: &mut [u32; 22],
    switches: &mut [bool; 11],
    hold: &[u16; 3],
    words: &mut [u32],
    flags: &mut [bool],
    addresses: &mut [u32],
    sizes: &mut [u32],
    links: &mut [u32],
    marks: &mut [bool],
    deeps: &mut [bool],
) -> u32
    ensures { Steps (parts numbers.old switches.old hold.now words.old flags.old addresses.old sizes.old links.old marks.old deeps.old) (parts numbers.new switches.new hold.now words.new flags.new addresses.new sizes.new links.new marks.new deeps.new) result }
{
    capi::gloamish_step(
        numbers, switches, hold, words, flags, addresses, sizes, links, marks, deeps,
    )
}

// A run with a budget of steps, as `memory::run` does it. Gives steps * 256 + answer. It only reads the hold's numbers, which no run changes.
#[unsafe(no_mangle)]
pub extern "C" fn gloamish_run(
    budget: u32,
    numbers: &mut [u32; 22],
    switches: &mut [bool; 11],
    hold: &[u16; 3],
    words: &mut [u32],
    flags: &mut [bool],
    addresses: &mut [u32],
    sizes: &mut [u32],
    links: &mut [u32],
    marks: &mut [bool],
    deeps: &mut [bool],
) -> u64
    ensures { Runs budget (parts numbers.old switches.old hold.now words.old flags.old addresses.old sizes.old links.old marks.old deeps.old) (parts numbers.new switches.new hold.now words.new flags.new addresses.new sizes.new links.new marks.new deeps.new) result }
{
    capi::gloamish_run(
        budget, numbers, switches, hold, words, flags, addresses, sizes, links, marks, deeps,
    )
}

// Reads a string of bytes, as `record::read` does: edition, M, H and each whole record's kind and fields go into the front of the lent
// numbers, and what is given back is how many there are, times 256, plus the answer, 0 or 20 to 24. With fewer lent numbers than bytes,
// or 2^48 elements or more in a lent part, nothing is changed and 4,294,967,295 is given back.
#[unsafe(no_mangle)]
pub extern "C" fn gloamish_read(bytes: &[u8], numbers: &mut [u32]) -> u64
    ensures { CReads bytes.now numbers.old numbers.new result }
{
    capi::gloamish_read(bytes, numbers)
}

// Writes the same list of numbers as bytes, as `record::write` does, into the front of the lent bytes, and gives back how many bytes
// there are, times 256, plus the answer, 0; or, with nothing changed, 22, 23 or 25. Where the list, with no fault before, ends inside
// edition, M and H or inside a record, or a lent part has 2^48 elements or more, nothing is changed and 4,294,967,295 is given back.
#[unsafe(no_mangle)]
pub extern "C" fn gloamish_write(numbers: &[u32], bytes: &mut [u8]) -> u64
    ensures { CWrites numbers.now bytes.old bytes.new result }
{
    capi::gloamish_write(numbers, bytes)
}

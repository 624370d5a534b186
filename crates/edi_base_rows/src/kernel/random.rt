//! Random words that are a code: each run of them ends.

use edi_kernel::{Ending, Kernel};
use edi_memory::MemoryCalls;
use edi_target::Code;
use edi_trace::Choices;
use std::alloc::{AllocError, Global};
use std::process::Abort;
use std::test::Fail;

/// A random code has so many instructions of its own, each with a jump to the next behind it, in twelve words.
const SLOTS: u16 = 40;

/// Instructions by their numbers. Those that push words come more often, so that the others find some.
const NUMBERS: [u16; 64] = [
    1, 1, 1, 1, 1, 1, 1, 3, 3, 4, 4, 4, 5, 6, 7, 7, 8, 8, 9, 10, 11, 12, 13, 14, 15, 16, 17, 18,
    19, 20, 21, 22, 23, 24, 25, 26, 27, 28, 29, 30, 31, 32, 32, 32, 34, 34, 35, 36, 37, 38, 39, 39,
    40, 41, 41, 42, 42, 43, 44, 44, 1, 4, 32, 34,
];

/// The next of a row of numbers that look random.
fn next_number(number: u64) -> u64 {
    number
        .wrapping_mul(6_364_136_223_846_793_005)
        .wrapping_add(1_442_695_040_888_963_407)
}

/// The address of the slot of this index; those above the last are the last.
fn slot(index: u16) -> u16 {
    index.min(SLOTS).wrapping_mul(12).wrapping_add(6)
}

/// The operands of the instruction in the slot of this index, drawn by a number, and how many there are.
fn operands(number: u16, index: u16, drawn: u16) -> ([u16; 8], u16) {
    let small = drawn % 4;
    let ahead = slot(index.wrapping_add(1).wrapping_add(small));
    let back = slot(drawn.wrapping_mul(7) % index.wrapping_add(1).max(1));
    let exit = slot(SLOTS).wrapping_add(3);
    let procedure = slot(SLOTS).wrapping_add(4);
    let line = index;
    match number {
        1 => ([drawn % 300, 0, 0, 0, 0, 0, 0, 0], 1),
        3 => ([small.wrapping_add(1), 0, 0, 0, 0, 0, 0, 0], 1),
        4 => (
            [small / 2, (drawn % 8).wrapping_add(5), 0, 0, 0, 0, 0, 0],
            2,
        ),
        5 => ([small, 0, 0, 0, 0, 0, 0, 0], 1),
        6 => ([0, 9, 1, line, 0, 0, 0, 0], 4),
        7 | 8 | 16 | 17 => ([1, 0, 0, 0, 0, 0, 0, 0], 1),
        9..=14 | 26 | 38 | 39 => ([line, 0, 0, 0, 0, 0, 0, 0], 1),
        27 => ([0, 100, line, 0, 0, 0, 0, 0], 3),
        28..=31 => ([0, ahead, 0, 0, 0, 0, 0, 0], 2),
        32 | 40 | 44 => ([0, back, 0, 0, 0, 0, 0, 0], 2),
        34 => ([0, 0, procedure, line, 0, 0, 0, 0], 4),
        35 => ([0, 5, line, 0, 0, 0, 0, 0], 3),
        36 => ([0, 0, procedure, 0, 0, 0, 0, 0], 3),
        37 => ([0, 0, 0, 0, 0, 0, 0, 0], 2),
        42 => ([2, line, 20, 0, ahead, 20, 0, exit], 8),
        _ => ([0, 0, 0, 0, 0, 0, 0, 0], 0),
    }
}

/// Puts words from an address on, as far as there is room.
fn put(words: &mut [u16], at: u16, from: &[u16]) {
    for (old, word) in words.iter_mut().skip(usize::from(at)).zip(from) {
        *old = *word;
    }
}

/// Puts the instruction in the slot of this index, drawn by a number, and a jump to the next behind it.
fn put_slot(words: &mut [u16], index: u16, drawn: u16) {
    let number = NUMBERS.get(usize::from(drawn % 64)).copied().unwrap_or(1);
    let (operands, count) = operands(number, index, drawn / 64);
    let at = slot(index);
    let behind = at.wrapping_add(1).wrapping_add(count);
    put(words, at, &[number]);
    put(words, at.wrapping_add(1), &operands);
    put(
        words,
        behind,
        &[28, 0, slot(index.wrapping_add(1)), 41, 41, 41, 41, 41],
    );
}

/// So many instructions DONE.
fn dones(alloc: Global, count: usize) -> Result<Vec<u16>, AllocError> {
    vec![in alloc; 41; count]
}

/// The words of a random code.
fn random_words(alloc: Global, seed: u64) -> Result<Vec<u16>, AllocError> {
    let mut words = dones(alloc, 501)?;
    let mut number = seed;
    put(&mut words, 0, &[33, 40, 0, 0, 8, 0]);
    for index in 0..SLOTS {
        number = next_number(number);
        put_slot(&mut words, index, (number >> 48) as u16);
    }
    let last = [37, 0, 0, 43, 33, 12, 0, 0, 2, 0, 1, 7, 37, 0, 0];
    put(&mut words, slot(SLOTS), &last);
    Ok(words)
}

/// A random code.
fn random_code(rt: &impl Abort, alloc: Global, seed: u16) -> Result<Code, Fail> {
    let words = random_words(alloc, u64::from(seed))?;
    assert!(rt; words.len() < 1000);
    Ok(Code::check(alloc, words, 0, &[])?)
}

/// How the run of a code ends, and the turns that it took.
fn end_of(
    alloc: Global,
    code: &Code,
    choices: &mut Choices,
    bound: u64,
) -> Result<(Ending, u64), AllocError> {
    let mut calls = MemoryCalls::new(alloc, b"", 0)?;
    let mut kernel = Kernel::new(alloc)?;
    let ending = kernel.run(code, &mut calls, bound, choices);
    Ok((ending, kernel.turns_used()))
}

/// How the run of a random code ends, with the turns and the choices that it took.
fn outcome(
    rt: &impl Abort,
    alloc: Global,
    seed: u16,
    bound: u64,
) -> Result<(Ending, u64, u64), Fail> {
    let code = random_code(rt, alloc, seed)?;
    let mut choices = Choices::seeded(alloc, seed)?;
    let (ending, turns) = end_of(alloc, &code, &mut choices, bound)?;
    Ok((ending, turns, choices.drawn()))
}

/// Whether a run takes no more turns than it was given, and uses them up where they end it.
fn is_bounded(ending: Ending, turns: u64, bound: u64) -> bool {
    turns <= bound && ending != Ending::Fault && (ending != Ending::Turns || turns == bound)
}

#[test]
fn random_codes_end(rt: HostRuntime) -> Result<(), Fail> {
    let bound = 300;
    let mut long = false;
    for seed in 0..200u16 {
        let found = outcome(&rt, rt.alloc(), seed, bound)?;
        let again = outcome(&rt, rt.alloc(), seed, bound)?;
        let (ending, turns, _) = found;
        assert!(rt;
            is_bounded(ending, turns, bound) && again == found,
            "{seed}"
        );
        long = long || ending == Ending::Turns;
    }
    // some of them run until their turns are used up
    assert!(rt; long);
    Ok(())
}

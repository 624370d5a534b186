//! How fast the kernel runs: `time edi_speed sums` runs 180 million instructions of sums (20 million turns), `calls` 20 million
//! calls with their returns in a loop (60 million turns), `matrix` 100 million instructions of products of matrices (3 million
//! turns), `copies` 40 million copies of ten words (20 million turns), `pair` two processes that hand values on to one another
//! (20 million turns), and `processes` 50 million instructions of 31 processes, each of which gives way at a `when`
//! (20 million turns). `chosen-pair` and `chosen-processes` are the last two with choices of a seed. Without a word it runs each
//! for a short time. `bench/run` shows the times beside those of a plain interpreter in C.
#![tactic(auto)]

use edi_kernel::{Ending, Kernel};
use edi_memory::MemoryCalls;
use edi_target::Code;
use edi_trace::Choices;
use std::alloc::{AllocError, Global};
use std::env;
use std::process::ExitCode;

/// `while true do x := x + 1 - 1 end`: nine instructions and one turn at a time.
const SUMS: [u16; 27] = [
    33, 20, 0, 0, 2, 0, 4, 0, 5, 4, 0, 5, 7, 1, 1, 1, 9, 1, 1, 1, 10, 1, 8, 1, 32, 0, 6,
];

/// `while true do p end`, where p has no statements: a turn at each entry, each return and each end of the loop.
const CALLS: [u16; 23] = [
    33, 20, 0, 0, 2, 0, 34, 0, 0, 14, 1, 32, 0, 6, 33, 5, 0, 0, 0, 0, 37, 0, 0,
];

/// The products of two matrices of ten times ten integers, again and again: 34 instructions and one turn for each product of two
/// elements.
const MATRIX: [u16; 215] = [
    33, 330, 0, 0, 304, 0, 4, 0, 5, 1, 1, 8, 1, 4, 0, 5, 7, 1, 1, 10, 19, 29, 0, 212, 4, 0, 6, 1,
    1, 8, 1, 4, 0, 6, 7, 1, 1, 10, 19, 29, 0, 195, 4, 0, 8, 1, 0, 8, 1, 4, 0, 7, 1, 1, 8, 1, 4, 0,
    7, 7, 1, 1, 10, 19, 29, 0, 148, 4, 0, 8, 4, 0, 8, 7, 1, 4, 0, 9, 4, 0, 5, 7, 1, 6, 1, 10, 10,
    2, 4, 0, 7, 7, 1, 6, 1, 10, 1, 2, 7, 1, 4, 0, 109, 4, 0, 7, 7, 1, 6, 1, 10, 10, 2, 4, 0, 6, 7,
    1, 6, 1, 10, 1, 2, 7, 1, 11, 2, 9, 2, 8, 1, 4, 0, 7, 4, 0, 7, 7, 1, 1, 1, 9, 2, 8, 1, 32, 0,
    56, 4, 0, 209, 4, 0, 5, 7, 1, 6, 1, 10, 10, 2, 4, 0, 6, 7, 1, 6, 1, 10, 1, 2, 4, 0, 8, 7, 1, 8,
    1, 4, 0, 6, 4, 0, 6, 7, 1, 1, 1, 9, 2, 8, 1, 32, 0, 31, 4, 0, 5, 4, 0, 5, 7, 1, 1, 1, 9, 2, 8,
    1, 32, 0, 13, 32, 0, 6,
];

/// `while true do a := b; b := a end`, of arrays of ten words: nine instructions and one turn at a time.
const COPIES: [u16; 29] = [
    33, 60, 0, 0, 20, 0, 4, 0, 5, 4, 0, 15, 7, 10, 8, 10, 4, 0, 15, 4, 0, 5, 7, 10, 8, 10, 32, 0, 6,
];

/// Two branches that share a variable: one puts a value there when it is empty, and the other takes it from there when it is full.
const PAIR: [u16; 90] = [
    33, 20, 0, 0, 3, 0, 42, 2, 1, 12, 0, 18, 12, 0, 53, 37, 0, 0, 39, 1, 4, 1, 5, 7, 1, 15, 29, 0,
    47, 4, 1, 6, 1, 7, 8, 1, 4, 1, 5, 1, 1, 8, 1, 41, 28, 0, 50, 44, 0, 20, 32, 0, 18, 39, 1, 4, 1,
    5, 7, 1, 29, 0, 84, 4, 1, 7, 4, 1, 6, 7, 1, 8, 1, 4, 1, 5, 1, 0, 8, 1, 41, 28, 0, 87, 44, 0,
    55, 32, 0, 53,
];

/// 31 branches, each `while true do when true do skip end end`: five instructions and two turns at a time, and another process
/// after each of them.
fn processes(alloc: Global) -> Result<Vec<u16>, AllocError> {
    let mut words = Vec::from_slice(alloc, &[33, 5, 0, 0, 0, 0, 42, 31, 2])?;
    for _branch in 0..31 {
        words.extend_from_slice(&[9, 0, 105])?;
    }
    words.extend_from_slice(&[
        37, 0, 0, 39, 1, 1, 1, 29, 0, 116, 41, 32, 0, 105, 40, 0, 107, 43,
    ])?;
    Ok(words)
}

/// Whether a code runs until so many turns are used up, with choices of a seed or without any.
fn runs_on(alloc: Global, words: Vec<u16>, turns: u64, seed: Option<u16>) -> Option<bool> {
    if words.len() > 1000 {
        return None;
    }
    let code = Code::check(alloc, words, 0, &[]).ok()?;
    let mut calls = MemoryCalls::new(alloc, b"", 0).ok()?;
    let mut choices = match seed {
        Some(seed) => Choices::seeded(alloc, seed).ok()?,
        None => Choices::list(alloc, &[]).ok()?,
    };
    let mut kernel = Kernel::new(alloc).ok()?;
    let ending = kernel.run(&code, &mut calls, turns, &mut choices);
    Some(ending == Ending::Turns)
}

/// The words of the code with this name; none where it has no code.
fn words_of(alloc: Global, name: &str) -> Option<Vec<u16>> {
    match name {
        "sums" => SUMS.to_vec(alloc).ok(),
        "calls" => CALLS.to_vec(alloc).ok(),
        "matrix" => MATRIX.to_vec(alloc).ok(),
        "copies" => COPIES.to_vec(alloc).ok(),
        "pair" | "chosen-pair" => PAIR.to_vec(alloc).ok(),
        "processes" | "chosen-processes" => processes(alloc).ok(),
        _ => None,
    }
}

/// The seed of the choices for the code with this name.
fn seed_of(name: &str) -> Option<u16> {
    match name {
        "chosen-pair" | "chosen-processes" => Some(1),
        _ => None,
    }
}

/// The turns for the code with this name.
fn turns_of(name: &str) -> u64 {
    match name {
        "calls" => 60_000_000,
        "matrix" => 3_000_000,
        _ => 20_000_000,
    }
}

/// Runs the code that this word names, or each for a short time.
fn measure(alloc: Global, word: Option<&str>) -> Option<bool> {
    if let Some(name) = word {
        return runs_on(alloc, words_of(alloc, name)?, turns_of(name), seed_of(name));
    }
    let mut all = true;
    for name in [
        "sums",
        "calls",
        "matrix",
        "copies",
        "pair",
        "processes",
        "chosen-pair",
        "chosen-processes",
    ] {
        all &= runs_on(alloc, words_of(alloc, name)?, 100_000, seed_of(name))?;
    }
    Some(all)
}

fn main(rt: HostRuntime) -> ExitCode {
    let alloc = rt.alloc();
    let Ok(words) = env::args(&rt) else {
        return ExitCode::from(2);
    };
    let Ok(words) = words.skip(1).collect::<Vec<String>>(alloc) else {
        return ExitCode::from(2);
    };
    let word = match words.first() {
        Some(word) => Some(word.as_str()),
        None => None,
    };
    match measure(alloc, word) {
        Some(true) => ExitCode::from(0),
        Some(false) => ExitCode::from(1),
        None => ExitCode::from(2),
    }
}

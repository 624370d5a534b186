//! Arithmetic, at both ends of `int` above all.

use edi_word::{add, div, modulo, mul, sub};
use std::process::Abort;

/// The sum, difference, product, quotient and remainder of two numbers.
fn all_five(a: i16, b: i16) -> [Option<i16>; 5] {
    [add(a, b), sub(a, b), mul(a, b), div(a, b), modulo(a, b)]
}

/// Two numbers, with their sum, difference, product, quotient and remainder.
type Row = (i16, i16, [Option<i16>; 5]);

/// Numbers of each sign, and those at both ends.
const RESULTS: [Row; 15] = [
    (7, 2, [Some(9), Some(5), Some(14), Some(3), Some(1)]),
    (-7, 2, [Some(-5), Some(-9), Some(-14), Some(-3), Some(-1)]),
    (7, -2, [Some(5), Some(9), Some(-14), Some(-3), Some(1)]),
    (-7, -2, [Some(-9), Some(-5), Some(14), Some(3), Some(-1)]),
    (5, 0, [Some(5), Some(5), Some(0), None, None]),
    (
        32767,
        1,
        [None, Some(32766), Some(32767), Some(32767), Some(0)],
    ),
    (
        32767,
        -1,
        [Some(32766), None, Some(-32767), Some(-32767), Some(0)],
    ),
    (
        -32768,
        1,
        [Some(-32767), None, Some(-32768), Some(-32768), Some(0)],
    ),
    (-32768, -1, [None, Some(-32767), None, None, None]),
    (0, -32768, [Some(-32768), None, Some(0), Some(0), Some(0)]),
    (-32768, -32768, [None, Some(0), None, Some(1), Some(0)]),
    (
        181,
        181,
        [Some(362), Some(0), Some(32761), Some(1), Some(0)],
    ),
    (182, 181, [Some(363), Some(1), None, Some(1), Some(1)]),
    (
        -256,
        128,
        [Some(-128), Some(-384), Some(-32768), Some(-2), Some(0)],
    ),
    (256, 128, [Some(384), Some(128), None, Some(2), Some(0)]),
];

fn have_results(rt: &impl Abort, table: &[Row]) {
    for (a, b, want) in table {
        assert!(rt; all_five(*a, *b) == *want, "{a} and {b}");
    }
}

#[test]
fn arithmetic_at_both_ends(rt: HostRuntime) {
    have_results(&rt, &RESULTS);
}

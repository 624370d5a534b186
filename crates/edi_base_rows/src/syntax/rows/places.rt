//! Where symbols stand, and that nothing may stand after symbols that begin no program.

use edi_explain::expected::expected_after;
use edi_explain::places::place_of;
use edi_lex::scan;
use std::alloc::Global;
use std::process::Abort;
use std::rt::HostRuntime;

/// Texts, each with just the numbers of the kinds of symbols that may stand after it: no program begins with `begin`.
const ROWS: [(&str, &[u8]); 1] = [("begin", &[])];

/// How many kinds of symbols may stand after the text, if each of these kinds may.
fn count_after(rt: &impl Abort, alloc: Global, text: &str, kinds: &[u8]) -> Option<usize> {
    let symbols = scan(alloc, text.as_bytes()).expect(rt, "symbols");
    let found = expected_after(alloc, symbols.marks.into_vec()).expect(rt, "memory");
    for kind in kinds {
        if !*found.kinds.get(usize::from(*kind))? {
            return None;
        }
    }
    let mut count: usize = 0;
    for may in found.kinds {
        if may {
            count = count.wrapping_add(1);
        }
    }
    Some(count)
}

#[test]
fn kinds_that_may_stand(rt: HostRuntime) {
    for (text, kinds) in ROWS {
        assert_eq!(rt;
            count_after(&rt, rt.alloc(), text, kinds),
            Some(kinds.len())
        );
    }
}

/// Texts, each with the number of a symbol, the byte where it begins, and the one after it. After the last symbol it is the end of the text.
const PLACES: [(&str, u32, usize, usize); 8] = [
    ("", 0, 0, 0),
    ("proc main", 0, 0, 4),
    ("proc main", 1, 5, 9),
    ("proc main", 2, 9, 9),
    ("x:=-07<<=", 1, 1, 3),
    ("x:=-07<<=", 3, 4, 6),
    ("x:=-07<<=", 5, 7, 9),
    ("\"a b\" '''\n 'ab'x", 1, 11, 15),
];

#[test]
fn places_of_symbols(rt: HostRuntime) {
    for (text, index, start, end) in PLACES {
        let (from, to) = place_of(text.as_bytes(), index);
        assert_eq!(rt; from, start);
        assert_eq!(rt; to, end);
    }
}

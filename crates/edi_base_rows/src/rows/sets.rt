//! Sets of ordinals.

use edi_word::Members;
use std::process::Abort;

/// The words of the set of 0, 15, 16 and 127: member n is bit n mod 16 of word n div 16.
const FOUR: [u16; 8] = [0x8001, 1, 0, 0, 0, 0, 0, 0x8000];

// The set of these members.
fn set_of(members: &[u8]) -> Members {
    let mut set = Members::empty();
    for member in members {
        if *member <= 127 {
            set = set.with(*member);
        }
    }
    set
}

/// Numbers, and whether they are members of the set of 0, 15, 16 and 127.
const ENDS: [(i16, bool); 12] = [
    (-32768, false),
    (-1, false),
    (0, true),
    (1, false),
    (14, false),
    (15, true),
    (16, true),
    (17, false),
    (126, false),
    (127, true),
    (128, false),
    (32767, false),
];

// Whether each of the numbers is a member, as it is wanted, and none of them one of the empty set.
fn are_members(rt: &impl Abort, set: &Members, table: &[(i16, bool)]) {
    for (n, want) in table {
        let found = (set.has(*n), Members::empty().has(*n));
        assert!(rt; found == (*want, false), "{n}");
    }
}

#[test]
fn members_at_both_ends(rt: HostRuntime) {
    let four = set_of(&[127, 16, 0, 15, 15]);
    are_members(&rt, &four, &ENDS);
    assert!(rt; (four.words(), Members::empty().words()) == (FOUR, [0; 8]));
    assert!(rt; Members::from_words(FOUR) == four);
}

/// Members of the union of the sets of 0, 40, 41 and of 41, 127, of the first less the second, and of what both have.
const UNION: [(i16, bool); 4] = [(0, true), (40, true), (41, true), (127, true)];

const LESS: [(i16, bool); 4] = [(0, true), (40, true), (41, false), (127, false)];

const BOTH: [(i16, bool); 4] = [(0, false), (40, false), (41, true), (127, false)];

#[test]
fn operations_on_sets(rt: HostRuntime) {
    let low = set_of(&[0, 40, 41]);
    let high = set_of(&[41, 127]);
    let union = low.union(&high);
    are_members(&rt, &union, &UNION);
    are_members(&rt, &low.minus(&high), &LESS);
    are_members(&rt, &low.meet(&high), &BOTH);
    let again = union.minus(&high).union(&high);
    assert!(rt; (again, low.minus(&low)) == (union, Members::empty()));
    assert!(rt; low != high);
}

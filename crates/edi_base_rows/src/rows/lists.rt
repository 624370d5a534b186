//! Lists of distinct nodes, each checked by every call that reads them.

use edi_ring::Lists;
use std::process::Abort;

const NODES: usize = 5;

const LISTS: usize = 2;

#[derive(Clone, Copy)]
enum Call {
    PushBack(usize, usize),
    Take(usize),
    ToBack(usize),
}

// Makes the call, where what it asks for holds, and says whether it did.
fn make(lists: &mut Lists<NODES, LISTS>, call: Call) -> bool {
    match call {
        Call::PushBack(list, node) => {
            if list >= LISTS || node >= NODES || lists.home(node).is_some() {
                return false;
            }
            lists.push_back(list, node);
        }
        Call::Take(node) => {
            if node >= NODES || lists.home(node).is_none() {
                return false;
            }
            lists.take(node);
        }
        Call::ToBack(node) => {
            if node >= NODES || lists.home(node).is_none() {
                return false;
            }
            lists.to_back(node);
        }
    }
    true
}

// Whether the nodes of a list are these in order, and no others.
fn are_in_order(lists: &Lists<NODES, LISTS>, list: usize, nodes: &[usize]) -> bool {
    if list >= LISTS {
        return false;
    }
    for i in 0..7 {
        if lists.nth(list, i) != nodes.get(i).copied() {
            return false;
        }
    }
    true
}

// Whether these nodes and no others are at home in a list.
fn are_at_home(lists: &Lists<NODES, LISTS>, list: usize, nodes: &[usize]) -> bool {
    for node in 0..NODES {
        if (lists.home(node) == Some(list)) != nodes.contains(&node) {
            return false;
        }
    }
    true
}

fn holds(lists: &Lists<NODES, LISTS>, list: usize, nodes: &[usize]) -> bool {
    list < LISTS
        && lists.len(list) == nodes.len()
        && lists.front(list) == nodes.first().copied()
        && are_in_order(lists, list, nodes)
        && are_at_home(lists, list, nodes)
}

// Whether the two lists have these nodes.
fn hold(lists: &Lists<NODES, LISTS>, first: &[usize], second: &[usize]) -> bool {
    holds(lists, 0, first) && holds(lists, 1, second)
}

/// A call, and the nodes of the two lists behind it.
type Step<'a> = (Call, &'a [usize], &'a [usize]);

// Makes the calls of a table.
fn walk(rt: &impl Abort, lists: &mut Lists<NODES, LISTS>, steps: &[Step<'_>]) {
    for (row, (call, first, second)) in steps.iter().enumerate() {
        assert!(rt;
            make(lists, *call) && hold(lists, first, second),
            "row {row}"
        );
    }
}

/// Calls, and the nodes of the two lists behind each.
const CALLS: [Step<'static>; 17] = [
    (Call::PushBack(0, 3), &[3], &[]),
    (Call::PushBack(0, 1), &[3, 1], &[]),
    (Call::PushBack(0, 4), &[3, 1, 4], &[]),
    (Call::PushBack(1, 0), &[3, 1, 4], &[0]),
    // the last, a middle one, the first
    (Call::ToBack(4), &[3, 1, 4], &[0]),
    (Call::ToBack(1), &[3, 4, 1], &[0]),
    (Call::ToBack(3), &[4, 1, 3], &[0]),
    // the only one
    (Call::ToBack(0), &[4, 1, 3], &[0]),
    (Call::PushBack(1, 2), &[4, 1, 3], &[0, 2]),
    // a middle one, the last, the first, the only one
    (Call::Take(1), &[4, 3], &[0, 2]),
    (Call::Take(3), &[4], &[0, 2]),
    (Call::Take(0), &[4], &[2]),
    (Call::Take(2), &[4], &[]),
    // a node goes on in another list
    (Call::PushBack(1, 1), &[4], &[1]),
    (Call::Take(4), &[], &[1]),
    (Call::PushBack(1, 4), &[], &[1, 4]),
    (Call::PushBack(0, 0), &[0], &[1, 4]),
];

#[test]
fn calls_in_a_row(rt: HostRuntime) {
    let mut lists = Lists::new();
    assert!(rt; hold(&lists, &[], &[]));
    walk(&rt, &mut lists, &CALLS);
}

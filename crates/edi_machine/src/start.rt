//! The activities with which the program and the branches of a COBEGIN begin.

ghost use Rattle.std.specs.Prelude.{◌≡◌, ◌+◌, ◌*◌, ◌<◌, ◌≤◌, ◌^◌, ◌∷◌, [], false, true, length, Some, slice_get};
ghost use Rattle.std.specs.List.{list_all, list_any};
ghost use Rattle.std.specs.Option.{option_map};
ghost use Rattle.edi_store.specs.Memory.{written, zero_memory, zero_words};
ghost use Rattle.edi_store.specs.Copied.{IsMemory};
ghost use Rattle.edi_target.specs.Op.{has_frame};
ghost use Rattle.edi_target.specs.Decode.{branches_of};
ghost use Rattle.edi_target.specs.Fetch.{fetch};
ghost use Rattle.edi_target.specs.Mach.{descriptors};
ghost use Rattle.edi_target.specs.Perform.{exceeds, share_of};
ghost use Rattle.edi_machine.specs.Activities.{IsOrdered, local_of};
ghost use Rattle.edi_machine.specs.Starts.{ActivityBegins, IsFork, branches_at, child_at, child_first};

use crate::activity::Activity;
use crate::frame::put_words;
use crate::instruction::{code_address, count_of, instruction_at};
use edi_store::{MEMORY_WORDS, Segment, Store, carve};
use edi_target::{Code, Op};

// Writes zeros to the first `n` words.
#[tactic(auto, unfolding(edi_store::specs::Memory::zero_words))]
fn clear_first(store: &mut Store, n: u32)
    requires { n ≤ MEMORY_WORDS }
    ensures exact { store.new ≡ written store.old 0 (zero_words n) }
    ensures was_whole { IsMemory store.old }
{
    store.clear(0, n);
}

// Writes zeros to all words.
fn clear_all(store: &mut Store)
    ensures { store.new ≡ zero_memory }
{
    clear_first(store, MEMORY_WORDS);
}

// Writes the descriptors of the program's parameters behind the first five words of its frame.
fn put_descriptors(store: &mut Store, calls: &[u8])
    requires { length calls.now ≤ 10 }
    ensures exact { store.new ≡ written store.old 5 (descriptors calls.now) }
    ensures whole { IsMemory store.new }
{
    let _whole = store.get(0);
    for (i, number) in calls.iter().enumerate() {
        let words = [u16::MAX, u16::from(*number), 0];
        put_words(store, 5 + 3 * i as u32, &words);
    }
}

/// Clears the store, writes the descriptors of the program's parameters, and gives the activity of its first process,
/// behind the ENTRY of the code.
pub fn begin(store: &mut Store, code: &Code) -> Activity
    ensures exact { ActivityBegins (fetch code.now.words code.now.entry) code.now.calls store.new result }
    ensures ordered { IsOrdered result }
    ensures whole { IsMemory store.new }
{
    clear_all(store);
    put_descriptors(store, code.calls());
    let Some((op, body)) = instruction_at(code.words(), code.entry()) else {
        unreachable!()
    };
    match op {
        Op::Entry {
            need,
            parameters,
            variables,
            ..
        } => Activity {
            base: 0,
            end: u32::from(need),
            top: 5 + u32::from(parameters) + u32::from(variables),
            pc: body,
            segment: Segment {
                first: 0,
                last: MEMORY_WORDS,
            },
            held: 0,
        },
        _ => unreachable!(),
    }
}

/// A branch of a COBEGIN: the words that its process needs, and the address where it begins.
#[derive(Clone, Copy)]
struct Start {
    need: u32,
    address: u32,
}

// Branch `i`, counted from 0, from the words of all, three of each.
#[tactic(auto, using(edi_target::proofs::Branches::branch_count, edi_target::proofs::Branches::branch_at))]
fn branch_of(branches: &[u16], i: u32) -> Start
    requires { i < length (branches_of branches.now) }
    ensures { slice_get (branches_of branches.now) i ≡ Some (record { need = result.need; address = result.address }) }
{
    let at = 3 * i as usize;
    Start {
        need: u32::from(branches[at]),
        address: code_address(branches[at + 1], branches[at + 2]),
    }
}

// Makes the activity of child `i` of `n`, and writes its first five words.
fn begin_branch(store: &mut Store, parent: &Activity, n: u32, i: u32, branch: Start) -> Activity
    requires ordered { IsOrdered parent.now }
    requires child { i < n }
    requires frame { 5 ≤ branch.need }
    requires fits { branch.need ≤ share_of (local_of store.old parent.now) n }
    ensures exact { let l = local_of store.old parent.now in
        result ≡ child_at (child_first l (share_of l n) i) (share_of l n) (record { need = branch.need; address = branch.address }) }
    ensures words { let l = local_of store.old parent.now in
        store.new ≡ written store.old (child_first l (share_of l n) i) (parent.now.base ∷ 0 ∷ 0 ∷ 0 ∷ 0 ∷ []) }
    ensures child { IsOrdered result }
    ensures was_whole { IsMemory store.old }
    ensures whole { IsMemory store.new }
{
    let room = Segment {
        first: parent.end,
        last: parent.segment.last,
    };
    let share = carve(room, n, i);
    put_words(store, share.first, &[parent.base as u16, 0, 0, 0, 0]);
    Activity {
        base: share.first,
        end: share.first + branch.need,
        top: share.first + 5,
        pc: branch.address,
        segment: share,
        held: 0,
    }
}

// Makes the activity of child `i` of a fork with these branches, three words each, and writes its first five words.
fn begin_child(store: &mut Store, parent: &Activity, branches: &[u16], i: u32) -> Activity
    requires ordered { IsOrdered parent.now }
    requires few { length (branches_of branches.now) < 2 ^ 16 }
    requires frames { list_all has_frame (branches_of branches.now) ≡ true }
    requires fits { let share = share_of (local_of store.old parent.now) (length (branches_of branches.now)) in
        list_any (exceeds share) (branches_of branches.now) ≡ false }
    requires child { i < length (branches_of branches.now) }
    ensures exact { let l = local_of store.old parent.now in
        let share = share_of l (length (branches_of branches.now)) in
        Some result ≡ option_map (child_at (child_first l share i) share) (slice_get (branches_of branches.now) i) }
    ensures words { let l = local_of store.old parent.now in
        let share = share_of l (length (branches_of branches.now)) in
        store.new ≡ written store.old (child_first l share i) (parent.now.base ∷ 0 ∷ 0 ∷ 0 ∷ 0 ∷ []) }
    ensures child { IsOrdered result }
    ensures was_whole { IsMemory store.old }
    ensures whole { IsMemory store.new }
{
    let start = branch_of(branches, i);
    begin_branch(store, parent, count_of(branches), i, start)
}

// The words of the branches of the COBEGIN at an address, three words each.
fn branches_of_fork(words: &[u16], at: u32) -> &[u16]
    requires size { length words.now < 2 ^ 32 }
    requires some { 0 < length (branches_at words.now at) }
    ensures exact { branches_of result.now ≡ branches_at words.now at }
    ensures few { length (branches_of result.now) < 2 ^ 16 }
    ensures frames { list_all has_frame (branches_of result.now) ≡ true }
{
    let Some((op, _)) = instruction_at(words, at) else {
        unreachable!()
    };
    match op {
        Op::Cobegin { branches, .. } => branches,
        _ => unreachable!(),
    }
}

/// Makes the activity of child `i`, counted from 0, of the COBEGIN at `at`, at which this parent forks, and writes its
/// first five words. No branch needs more than its share.
pub fn branch(store: &mut Store, parent: &Activity, code: &Code, at: u32, i: u32) -> Activity
    requires ordered { IsOrdered parent.now }
    requires fork { IsFork code.now.words at (branches_at code.now.words at) (local_of store.old parent.now) }
    requires child { i < length (branches_at code.now.words at) }
    ensures exact { let branches = branches_at code.now.words at in
        let l = local_of store.old parent.now in
        let share = share_of l (length branches) in
        Some result ≡ option_map (child_at (child_first l share i) share) (slice_get branches i) }
    ensures words { let l = local_of store.old parent.now in
        let share = share_of l (length (branches_at code.now.words at)) in
        store.new ≡ written store.old (child_first l share i) (parent.now.base ∷ 0 ∷ 0 ∷ 0 ∷ 0 ∷ []) }
    ensures child { IsOrdered result }
    ensures was_whole { IsMemory store.old }
    ensures whole { IsMemory store.new }
{
    let branches = branches_of_fork(code.words(), at);
    begin_child(store, parent, branches, i)
}

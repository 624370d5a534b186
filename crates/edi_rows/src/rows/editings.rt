//! Sessions: editings of a text, their refusals and undos.

use crate::rows::play::play;

/// Each line of an editing, each with its refusals.
const LINES: &str = "
call 0 newdisk 64
input 0 edit t/u/d 1/q/halt/
call 0 boot
shows > edit t/no undo/no line 1/> halt/
call 12 get t g
shows absent/
input 0 enter t/a/./edit t/i 2/b/d 1/u/l 1/w/type t/halt/
call 0 boot
shows > enter t/> edit t/a/> type t/a/b/> halt/

| edit t
| i 1
| zero
| l 1
| r 3
| bee
| l 3
| d 2
| l 3
| u
| l 2
| u
| l 3
| i 5
| further
| r 4
| further
| i 0
| further
| d 0
| l 000001
| l 0000001
| d 09
| l
|
| l 1\x20
| l  1
| L 1
| i
| w t
| u 1
| l -1
| i 4
| end
| w
| type t
| halt
|
types 0
call 0 boot
| > edit t
| zero
| bee
| no line 3
| a
| b
| no line 5
| no line 4
| no line 0
| no line 0
| zero
| bad edit
| no line 9
| bad edit
| bad edit
| bad edit
| bad edit
| bad edit
| bad edit
| bad edit
| bad edit
| bad edit
| > type t
| zero
| a
| b
| end
| > halt
|
seen

input 0 protect t/edit t/d 4/w/l 3/l 4/q/type t/edit t/d 1/w
call 0 boot
shows > protect t/> edit t/protected t/b/no line 4/> type t/zero/a/b/end/> edit t/protected t/
input 0 release t/edit t/d 4/d 3
call 0 boot
shows > release t/> edit t/
input 0 edit t/d 4/i 1
call 0 boot
shows > edit t/
input 0 edit t/d 4/i 1/first/w
call 0 boot
shows > edit t/> /
call 0 get t g
holds g first/zero/a/b/
input 0 edit edit/i 1/x/w/edit/type edit/halt/
call 0 boot
shows > edit edit/> edit/bad command/> type edit/x/> halt/

call 0 newdisk 1100
bytes 2 97
file no_feed
call 0 put no_feed t
input 0 edit t/l 1/i 2/b/w/type t/halt/
call 0 boot
shows > edit t/aa/> type t/aa/b/> halt/
bytes 261119 97
file long
call 0 put long t
input 0 edit t/i 2//i 1//i 3//w/halt/
call 0 boot
shows > edit t/text full 261121/text full 261121/no line 3/> halt/
bytes 261119 97
at 0 0a
file two_lines
call 0 put two_lines t
input 0 edit t/r 1//r 1/x/d 2/i 2/b/u/u/d 1/u/u/u/l 1/w/halt/
call 0 boot
shows > edit t/text full 261121/no undo//> halt/
call 0 get t h
bytes 261120 97
at 0 0a
at 261119 0a
file whole
same h whole
";

#[test]
fn texts_are_edited(rt: HostRuntime) {
    play(&rt, rt.alloc(), LINES, 0);
}

/// Of 65 changes the last 64 are undone, and what the first one made is left.
const UNDONE: &str = "| u
| l 1
| l 2
| w
| type t
| halt
|
types 0
call 0 boot
shows > edit t/no undo/line 1/no line 2/> type t/line 1/> halt/
";

#[test]
fn changes_are_undone(rt: HostRuntime) {
    let alloc = rt.alloc();
    let first = "call 0 newdisk 64\n| edit t\n";
    let mut script = String::from_str(alloc, first).expect(&rt, "memory");
    for n in 1..=65 {
        let lines = format!(in alloc; "| i 1\n| line {n}\n").expect(&rt, "memory");
        script.push_str(&lines).expect(&rt, "memory");
    }
    for _n in 1..=64 {
        script.push_str("| u\n").expect(&rt, "memory");
    }
    script.push_str(UNDONE).expect(&rt, "memory");
    play(&rt, alloc, &script, 0);
}

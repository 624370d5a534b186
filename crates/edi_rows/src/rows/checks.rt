//! Reports on the branches of texts.

use crate::rows::play::{play, play_behind};
use crate::rows::programs::RACE;
use std::alloc::Global;
use std::process::Abort;

/// Reports: of the variables of the blocks round the branches, of `var` arguments, of procedures that procedures call, of calls
/// of the system, and of a program that is passed on.
const REPORTS: &str = "
call 0 check race
shows line 3 branches 1 2 may share/

| proc main
| var x, y: int
| begin cobegin 1 do x := 1 also 2 do y := 2 also 3 do y := x end end
file three
call 0 check three
shows line 3 branches 1 2 disjoint/line 3 branches 1 3 may share/line 3 branches 2 3 may share/

| proc main(proc fresh)
| var x: int
| proc p begin x := 5 end
| begin if x = 1 do main(p) end;
| cobegin 1 do fresh also 2 do x := 7 end end
file passes
call 0 check passes
shows line 5 branches 1 2 may share/

| proc main
| var x, y, z: int
| begin cobegin 1 do y := x also 2 do z := x end end
file reads
call 0 check reads
shows line 3 branches 1 2 disjoint/

| proc main
| var x, y: int
| proc one(var v: int) begin v := 1 end
| begin cobegin 1 do one(x) also 2 do y := 2 end end
file lends
call 0 check lends
shows line 4 branches 1 2 disjoint/

| proc main
| var x, y: int
| proc one(var v: int) begin v := 1 end
| begin cobegin 1 do one(x) also 2 do y := 2 end; one(y) end
file lends_both
call 0 check lends_both
shows line 4 branches 1 2 may share/

| proc main
| var x: int
| proc inner begin x := 1 end
| proc outer begin inner end
| begin cobegin 1 do outer also 2 do x := 2 end end
file calls
call 0 check calls
shows line 5 branches 1 2 may share/

| proc main(proc display(c: char))
| var x: int
| begin cobegin 1 do display('a') also 2 do x := 1 also 3 do display('b') end end
file displays
call 0 check displays
shows line 3 branches 1 2 disjoint/line 3 branches 1 3 may share/line 3 branches 2 3 disjoint/

| proc main
| var x, y, z: int
| proc p
| begin cobegin 1 do x := 1 also 2 do y := 1 end end
| begin cobegin 1 do p also 2 do z := 1 end;
|   cobegin 1 do z := 2 also 2 do z := 3 end end
file nested
call 0 check nested
shows line 4 branches 1 2 disjoint/line 5 branches 1 2 disjoint/line 6 branches 1 2 may share/

| proc main begin skip end
file alone
call 0 check alone
";

/// Nothing else is touched, and objects fail.
const OBJECTS: &str = "
call 0 newdisk 64
input 0 edison
| proc main
| var x, y: int
| begin cobegin 1 do x := 1 also 2 do y := 2 also 3 do y := x end end
file three
call 0 check three
shows line 3 branches 1 2 disjoint/line 3 branches 1 3 may share/line 3 branches 2 3 may share/
unchanged
leaves edison
call 12 check none
shows absent/
call 1 check
shows bad words/
call 1 check three three
shows bad words/
call 1 check three --turns 5
shows bad words/
call 1 check three --choices three
shows bad words/

terminal 0 35
call 9 check three
shows line 3 branches 1 2 disjoint/line 3
unchanged
terminal 1 99
call 9 check three
unchanged
terminal 0 3
call 9 check none
shows abs
terminal 0 99
files 1
| proc main begin skip end
file alone
call 6 check alone
shows file fault/
unchanged
call 0 check alone
";

#[test]
fn branches_are_reported(rt: HostRuntime) {
    play_behind(&rt, rt.alloc(), RACE, REPORTS, 0);
    play(&rt, rt.alloc(), OBJECTS, 0);
}

/// A program of so many branches, as the file `many`, and the beginning of what its report is compared with.
fn many_branches(rt: &impl Abort, alloc: Global, count: u64) -> String {
    let mut script = String::from_str(alloc, "| proc main begin\n| cobegin 1 do skip").expect(
        rt, "memory",
    );
    for n in 2..=count {
        let branch = format!(in alloc; " also {n} do skip").expect(rt, "memory");
        script.push_str(&branch).expect(rt, "memory");
    }
    script
        .push_str(" end end\nfile many\ncall 0 check many\nshows ")
        .expect(rt, "memory");
    script
}

/// 31 branches may live at once beside the process that forks.
#[test]
fn there_are_31_branches(rt: HostRuntime) {
    let alloc = rt.alloc();
    let mut script = many_branches(&rt, alloc, 31);
    for i in 1..=31 {
        for j in i + 1..=31 {
            let line = format!(in alloc; "line 2 branches {i} {j} disjoint/").expect(&rt, "memory");
            script.push_str(&line).expect(&rt, "memory");
        }
    }
    play(&rt, alloc, &script, 0);
    let mut script = many_branches(&rt, alloc, 32);
    script
        .push_str("line 2 too many branches/")
        .expect(&rt, "memory");
    play(&rt, alloc, &script, 0);
}

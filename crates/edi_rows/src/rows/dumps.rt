//! Who stands where at the end.

use crate::rows::play::play_behind;
use crate::rows::programs::RACE;

/// The dumps of some runs: of two branches, of a code that enters one frame and leaves it at address 6, of a run that its bound ends, of a standstill,
/// and of a demonstration.
const LINES: &str = "
call 0 run race --dump d
shows ab
holds d done/main ran last/  main/    display = proc/    x = 1/

| proc main
| begin skip end
file skips
call 0 compile skips code
call 0 exec code --dump e
holds e done/main ran last/  frame at 0 goes on at 6: 0 0 0 0 0/

call 4 run race --turns 3 --dump z
shows turn limit/
holds z turn limit/main waits for 2 branches/  main/    display = proc/    x = 0/1.1 is at the when of line 3/1.2 ran last/

| proc main
| var x: int
| begin x := -3;
|   when x = 0 do skip end end
file waits
call 17 run waits --dump w --record r
shows standstill/
holds w standstill/main is at the when of line 4 in main/  main/    x = -3/
holds r

call 0 demo 1 --record q --dump f
shows demo 1 symbols 32 turns 11/
holds f done/main ran last/  main/    x = 2/
holds q 0/0/0/
";

/// Words that are refused, and programs that are not run: no dump is kept.
const NONE: &str = "
call 1 run race --dump
shows bad words/
call 1 run race --dump d --timeline d
shows bad words/
call 1 replay race race --record r --dump d
shows bad words/
call 12 run nobody --dump d
shows absent/
none d
none r
";

/// The files fail: at the record, and at the dump; and the terminal, in the run, and after the dump of a demonstration is kept.
const FAULTS: &str = "
files 2
| proc main(proc display(value: char))
| var x: int
| begin cobegin 1 do when x = 0 do display('a'); x := 1 end
| also 2 do when true do display('b') end end end
file race
call 6 run race --record r --dump d
shows ab/file fault/
none d
files 3
| proc main(proc display(value: char))
| var x: int
| begin cobegin 1 do when x = 0 do display('a'); x := 1 end
| also 2 do when true do display('b') end end end
file race
call 6 run race --record s --dump e
shows ab/file fault/
holds s 0/0/0/
files 0
terminal 0 0
| proc main(proc display(value: char))
| var x: int
| begin cobegin 1 do when x = 0 do display('a'); x := 1 end
| also 2 do when true do display('b') end end end
file race
call 9 run race --record x --dump y
none x
none y
call 9 demo 1 --dump z
holds z done/main ran last/  main/    x = 2/
";

#[test]
fn ends_are_kept(rt: HostRuntime) {
    play_behind(&rt, rt.alloc(), RACE, LINES, 0);
}

#[test]
fn no_dump_is_kept(rt: HostRuntime) {
    play_behind(&rt, rt.alloc(), RACE, NONE, 0);
}

#[test]
fn a_dump_is_lost(rt: HostRuntime) {
    play_behind(&rt, rt.alloc(), RACE, FAULTS, 0);
}

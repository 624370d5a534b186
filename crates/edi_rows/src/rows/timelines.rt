//! Which process went when.

use crate::rows::play::play_behind;
use crate::rows::programs::RACE;

/// The timelines of some runs: of two branches, of the same code, of other choices, of a standstill, of a run that its bound ends, and of a
/// demonstration, whose last line no stint has shown. Of a picture only that it is there.
const LINES: &str = "
call 0 run race --timeline t
shows ab
holds t.txt 1 turns 1 2 process main from begin forks 2/2 turns 3 3 process 1.1 from begin arrives 3/3 turns 4 4 process 1.2 from begin arrives 4/4 turns 5 5 process 1.1 from 3 ends shown \"a\"/5 turns 6 6 process 1.2 from 4 ends shown \"b\"/6 turns 7 7 process main from join done/

call 0 compile race code
call 0 exec code --timeline c --record q
shows ab
same t.txt c.txt
same t.svg c.svg

| 1
|
file second
call 0 replay race second --timeline s
shows ba
holds s.txt 1 turns 1 2 process main from begin forks 2/2 turns 3 3 process 1.2 from begin arrives 4/3 turns 4 4 process 1.1 from begin arrives 3/4 turns 5 5 process 1.2 from 4 ends shown \"b\"/5 turns 6 6 process 1.1 from 3 ends shown \"a\"/6 turns 7 7 process main from join done/

call 4 run race --turns 3 --timeline z
shows turn limit/
holds z.txt 1 turns 1 2 process main from begin forks 2/2 turns 3 3 process 1.1 from begin arrives 3/3 no turn process 1.2 from begin turn limit/

| proc main
| var x: int
| begin x := -3;
|   when x = 0 do skip end end
file waits
call 17 run waits --timeline w --record r
shows standstill/
holds w.txt 1 turns 1 2 process main from begin arrives 4/2 turns 3 3 process main from 4 standstill/
holds r

call 0 demo 1 --record q --timeline d
shows demo 1 symbols 32 turns 11/
holds d.txt 1 turns 1 2 process main from begin forks 2/2 turns 3 4 process 1.1 from begin arrives 4 6/3 turns 5 6 process 1.2 from begin arrives 4 7/4 turns 7 8 process 1.1 from 4 6 ends/5 turns 9 10 process 1.2 from 4 7 ends/6 turns 11 11 process main from join done/
holds q 0/0/0/
";

/// Words that are refused, and programs that are not run: no timeline is kept.
const NONE: &str = "
call 1 run race --timeline
shows bad words/
call 1 run race --timeline t --timeline t
shows bad words/
call 1 watch race race log --timeline t
shows bad words/
call 1 demo 0 --timeline t
shows bad words/
call 1 replay race race --record r --timeline t
shows bad words/
call 12 run nobody --timeline t
shows absent/
call 13 run race --choices race --timeline t
shows choices line 1/
none t.txt
none t.svg
none r
";

/// The files fail: at the record, at the lines, at the picture; and the terminal, in the run, and after the files of a demonstration are kept.
const FAULTS: &str = "
files 2
| proc main(proc display(value: char))
| var x: int
| begin cobegin 1 do when x = 0 do display('a'); x := 1 end
| also 2 do when true do display('b') end end end
file race
call 6 run race --record r --timeline t
shows ab/file fault/
none t.txt
none t.svg
files 3
| proc main(proc display(value: char))
| var x: int
| begin cobegin 1 do when x = 0 do display('a'); x := 1 end
| also 2 do when true do display('b') end end end
file race
call 6 run race --record s --timeline u
shows ab/file fault/
holds s 0/0/0/
none u.svg
files 4
| proc main(proc display(value: char))
| var x: int
| begin cobegin 1 do when x = 0 do display('a'); x := 1 end
| also 2 do when true do display('b') end end end
file race
call 6 run race --record v --timeline w
shows ab/file fault/
holds v 0/0/0/
none w.svg
files 2
call 6 demo 1 --timeline z
shows file fault/
none z.svg
files 0
terminal 0 0
| proc main(proc display(value: char))
| var x: int
| begin cobegin 1 do when x = 0 do display('a'); x := 1 end
| also 2 do when true do display('b') end end end
file race
call 9 run race --record x --timeline y
none x
none y.txt
none y.svg
call 9 demo 1 --timeline z
holds z.txt 1 turns 1 2 process main from begin forks 2/2 turns 3 4 process 1.1 from begin arrives 4 6/3 turns 5 6 process 1.2 from begin arrives 4 7/4 turns 7 8 process 1.1 from 4 6 ends/5 turns 9 10 process 1.2 from 4 7 ends/6 turns 11 11 process main from join done/
";

#[test]
fn stints_are_kept(rt: HostRuntime) {
    play_behind(&rt, rt.alloc(), RACE, LINES, 0);
}

#[test]
fn no_timeline_is_kept(rt: HostRuntime) {
    play_behind(&rt, rt.alloc(), RACE, NONE, 0);
}

#[test]
fn a_timeline_is_kept_in_part(rt: HostRuntime) {
    play_behind(&rt, rt.alloc(), RACE, FAULTS, 0);
}

//! What variables hold where processes arrive.

use crate::rows::play::{play, play_behind};
use crate::rows::programs::RACE;
use std::alloc::Global;
use std::process::Abort;

/// The logs of some runs: of two branches, of a standstill, and of a run that its bound ends; and each bad line.
const LOGS: &str = "
| 3 x
| 4 x
|
file both
call 0 watch race both log
shows ab
holds log turn 3 line 3 x 0/turn 4 line 4 x 0/

call 0 run race --record q
shows ab
call 0 watch race both log --record r
shows ab
same q r
call 0 watch race both r --record r
shows ab
same q r

| 0003 x
|
file zeros
call 4 watch race zeros log --turns 3
shows turn limit/
holds log turn 3 line 3 x 0/

| proc main
| var x: int
| begin x := -3;
|   when x = 0 do skip end end
file waits
| 4 x
|
file four
call 17 watch waits four log --record r
shows standstill/
holds log turn 2 line 4 x -3/turn 3 line 4 x -3/
holds r

| proc main(proc display(value: char)) begin display('a') end
file letter
file none_watched
call 0 watch letter none_watched log
shows a
holds log
";

/// Points that are refused: the log is not kept, nothing is shown but the line, and no choice is drawn.
const BAD_LINES: &str = "
| 9 x
|
file nine
call 18 watch race nine log --record r
shows points line 1/
none log
none r
unchanged
| 3 x
| 3 y
|
file unknown
call 18 watch race unknown log
shows points line 2/
| 3 x
file uncut
call 18 watch race uncut log
shows points line 1/
| 3 x
| 4 x
|
|
file empty_line
call 18 watch race empty_line log
shows points line 3/
| 000003 x
|
file digits
call 18 watch race digits log
shows points line 1/
| 3 display
|
file no_variable
call 18 watch race no_variable log
shows points line 1/
| 99999 x
|
file far
call 18 watch race far log
shows points line 1/
none log
";

/// What comes first: the text, the choices, the text's fault, the file of points; and objects that fail.
const ORDER: &str = "
| 3 x
|
file three
| x
file bad
| proc
file wrong
call 12 watch nobody nobody log
shows absent/
call 12 watch race nobody log
shows absent/
call 13 watch wrong nobody log --choices bad
shows choices line 1/
call 2 watch wrong nobody log
shows line 1 invalid syntax/
call 1 watch race three
shows bad words/
call 1 watch race three log more
shows bad words/
none log

world
files 2
| proc main begin skip end
file f
file p
call 6 watch f p log
shows file fault/
none log
files 3
| proc main(proc display(value: char)) begin display('a') end
file f
file p
call 6 watch f p log --record r
shows a/file fault/
none r
files 4
| proc main(proc display(value: char))
| var x: int
| begin cobegin 1 do when x = 0 do display('a'); x := 1 end
| also 2 do when true do display('b') end end end
file f
| 3 x
|
file p
call 6 watch f p log --record r
shows ab/file fault/
holds log turn 3 line 3 x 0/
none r
files 0
terminal 0 0
| proc main(proc display(value: char)) begin display('a') end
file f
file p
call 9 watch f p log --record r
none log
none r
";

#[test]
fn arrivals_are_logged(rt: HostRuntime) {
    play_behind(&rt, rt.alloc(), RACE, LOGS, 0);
}

#[test]
fn bad_lines_are_refused(rt: HostRuntime) {
    play_behind(&rt, rt.alloc(), RACE, BAD_LINES, 0);
}

#[test]
fn points_are_read_in_their_turn(rt: HostRuntime) {
    play_behind(&rt, rt.alloc(), RACE, ORDER, 0);
}

/// So many points on line 3, as the file `many`, and a call with them behind it.
fn many_points(rt: &impl Abort, alloc: Global, count: u64) -> String {
    let mut script = String::from_str(alloc, RACE).expect(rt, "memory");
    for _point in 0..count {
        script.push_str("| 3 x\n").expect(rt, "memory");
    }
    script.push_str("|\nfile many\n").expect(rt, "memory");
    script
}

#[test]
fn there_are_64_points(rt: HostRuntime) {
    let alloc = rt.alloc();
    let mut script = many_points(&rt, alloc, 64);
    script
        .push_str("call 0 watch race many log\nshows ab\nholds log ")
        .expect(&rt, "memory");
    for _point in 0..64 {
        script.push_str("turn 3 line 3 x 0/").expect(&rt, "memory");
    }
    play(&rt, alloc, &script, 0);
    let mut script = many_points(&rt, alloc, 65);
    script
        .push_str("call 18 watch race many log\nshows points line 65/")
        .expect(&rt, "memory");
    play(&rt, alloc, &script, 0);
}

//! Sessions: how programs end in them, and their choices.

use crate::rows::play::{play, play_behind};
use crate::rows::programs::RACE;

/// How programs end: each has the bound, no file is open, and the input goes on.
const ENDS: &str = "
call 0 newdisk 64
| proc main(proc display(c: char))
| begin display('h');
|   halt end
file h
| proc main
| var x: int
| begin x := 32767 + 1 end
file o
| proc main begin when false do skip end end
file w
| proc main(proc display(c: char)) begin while true do display('.') end end
file l
| proc main begin skip end
file n
| proc main(proc fresh) begin fresh end
file u
| proc main(proc write(c: char)) begin write('x') end
file v
| proc main(proc accept(var c: char); proc display(c: char); proc print(c: char))
| var x: char
| begin accept(x); display(x); print(x) end
file a
call 0 compile h ch
call 0 compile o co
call 0 compile w cw
call 0 compile l cl
call 0 compile n cn
call 0 compile u cu
call 0 compile v cv
call 0 compile a ca
call 0 put ch h
call 0 put co o
call 0 put cw w
call 0 put cl l
call 0 put cn n
call 0 put cu u
call 0 put cv v
call 0 put ca a
input 0 h/o/w/l/n/l/u/v/a/xhalt/a
call 0 boot --turns 5
| > h
| h
| line 3 halt
| > o
| line 3 range
| > w
| standstill
| > l
| .....
| turn limit
| > n
| > l
| .....
| turn limit
| > u
| > v
| line 1 no file
| > a
| x
| > halt
|
seen
prints x
leaves a
input 0 a
call 0 boot
shows > a/~/> /
prints ~
";

/// The choices go on from program to program, and their record is that of all.
const CHOICES: &str = "
call 0 newdisk 64
| 1
|
file one
| 1
| 256
file bad
call 0 put race t
input 0 compile t r/halt/
call 0 boot --record none
shows > compile t r/> halt/
holds none
input 0 r/r/halt/
call 0 boot --choices one --record r1
shows > r/ba/> r/ab/> halt/
holds r1 1/0/0/0/0/0/
input 0 r/r/
call 0 boot --seed 7 --record r7
shows > r/ab/> r/ab/> /
holds r7 230/15/76/59/
call 12 boot --choices no
shows absent/
call 13 boot --choices bad --record never
shows choices line 2/
none never
call 1 boot t
shows bad words/
call 1 boot --from one
shows bad words/
";

#[test]
fn programs_end_in_a_session(rt: HostRuntime) {
    play(&rt, rt.alloc(), ENDS, 0);
    play_behind(&rt, rt.alloc(), RACE, CHOICES, 0);
}

//! Worked programs: what they show and leave, with choices, records and bounds.

use crate::rows::play::play_behind;
use crate::rows::programs::{ALIAS, RACE};

/// The choices of some runs, and programs of one process.
const ALONE: &str = "
| proc main(proc display(value: char)) begin display('a') end
file letter
call 0 run letter
shows a
call 4 run letter --turns 1
shows a/turn limit/
call 0 run letter --turns 2 --record r
shows a
holds r

| proc main(proc display(value: char))
| var x: int
| begin display('a');
|   x := 32767 + 1
| end
file overflow
call 3 run overflow
shows a/line 4 range/

| proc main(proc display(value: char))
| var x: int
| begin x := -7;
|   if (x div 2 = -3) and (x mod 2 = -1) do display('k') end;
|   x := 0 - 32767 - 1;
|   x := x div (0 - 1)
| end
file quotient
call 3 run quotient
shows k/line 6 range/

| proc main
| array t [1:3] (int)
| var a: t; i: int
| begin i := 3; a[i] := 7; i := 4;
|   a[
|   i] := 7 end
file index
call 3 run index
shows line 5 range/

| proc main(proc display(value: char))
| set s (int)
| var x: s; i: int
| begin x := s(127); x := s; i := 128;
|   if i in x do skip else true do display('n') end;
|   x := s(i) end
file member
call 3 run member
shows n/line 6 range/

| proc main(proc display(value: char))
| proc p begin p end
| begin p end
file endless
call 3 run endless
shows line 2 variable limit/

| proc main(proc display(value: char))
| array t [1:2] (char)
| var a: t; i: int
| proc f: char begin i := 2; val f := 'q' end
| begin i := 1; a[i] := f; display(a[1]);
|   if a[2] = char(0) do display('z') end end
file order
call 0 run order
shows qz

call 0 run alias
shows 12

| proc main(proc display(value: char))
| proc go(n: int; proc q)
|   proc r begin if n = 1 do display('1') else n = 2 do display('2') end end
| begin if n = 1 do go(2, r) else true do q end end
| proc none begin skip end
| begin go(1, none) end
file passed
call 0 run passed
shows 1

| proc main(proc display(value: char))
| begin if false and (1 div 0 = 1) do skip else true do display('k') end end
file both
call 0 run both
shows k

| proc main(proc display(value: char)) var x: int begin while x < 3 do display('k'); x := x + 1 end end
file loop
call 0 run loop --turns 5
shows kkk
call 4 run loop --turns 4
shows kkk/turn limit/

| proc main(proc accept(var c: char); proc display(c: char))
| var x: char
| begin accept(x); display(x); accept(x); display(x); accept(x); display(x) end
file accepts
input 0 x
call 0 run accepts
shows x~~
leaves
input 0 wxyz
call 0 run accepts
shows wxy
leaves z

| proc main(proc print(c: char); proc display(c: char)) begin print('p'); display('d'); print('q') end
file prints
call 0 run prints
shows d
prints pq

| proc main(proc display(value: char))
| module
|   var hidden: char
|   * proc show begin display(hidden) end
| begin hidden := 'm' end
| begin show end
file module
call 0 run module
shows m

call 1 run
shows bad words/
call 1 run letter --turns 0
shows bad words/
call 1 run letter --seed 1 --choices b
shows bad words/
call 1 run letter --turns=5
shows bad words/
call 12 run none
shows absent/
call 12 run letter --choices none
shows absent/
";

#[test]
fn programs_end_as_they_mean(rt: HostRuntime) {
    play_behind(&rt, rt.alloc(), ALIAS, ALONE, 0);
}

/// Programs of several processes. The array of `too_small` is one word longer than that of `shares`.
const TOGETHER: &str = "
| 0
| 0
| 1
|
file b
| 1
|
file one
| 0
| 0
| 0
|
file zeros
| 0
| 1
| 0
| 1
| 1
| 1
| 0
|
file seven
| 0
| 300
|
file bad

call 0 run race --turns 7 --record r0
shows ab
holds r0 0/0/0/
call 0 replay race r0
shows ab
call 0 run race --choices b
shows ba
call 0 run --choices one race --record r1
shows ba
holds r1 1/0/0/
call 0 replay race r1 --turns 7
shows ba
call 4 --turns 6 run race
shows ab/turn limit/
call 13 run race --choices bad
shows choices line 2/
call 0 run race --seed 7 --record r7
shows ab
holds r7 230/15/

| proc main begin when false do skip end end
file waits
call 17 run waits
shows standstill/
call 17 run waits --turns 3
shows standstill/
call 4 run waits --turns 2
shows turn limit/

| proc main begin cobegin 1 do when false do skip end also 2 do when false do skip end end end
file both_wait
call 17 run both_wait --record s0
shows standstill/
holds s0 0/0/0/0/
call 17 run both_wait --choices seven --record s7
shows standstill/
holds s7 0/1/0/1/1/1/0/
call 4 run both_wait --turns 5
shows turn limit/

| proc main proc f: bool begin val f := false end begin when f do skip end end
file asks
call 4 run asks --turns 10
shows turn limit/

| proc main(proc display(value: char))
| var x: int
| proc f: int
| begin
|   when true do val f := 1 end
| end
| begin x := f end
file held
call 3 run held --record never
shows line 5 held/
holds never

| proc main(proc display(value: char))
| var x: int
| proc p var y: int begin y := x; x := y + 1 end
| begin cobegin 1 do p also 2 do p end;
|   if x = 2 do display('2') else true do display('1') end end
file whole
call 0 run whole
shows 2

| proc main begin
| cobegin 1 do skip also 2 do skip also 3 do skip also 4 do skip also 5 do skip also 6 do skip also 7 do skip also 8 do skip
| also 9 do skip also 10 do skip also 11 do skip also 12 do skip also 13 do skip also 14 do skip also 15 do skip
| also 16 do skip also 17 do skip also 18 do skip also 19 do skip also 20 do skip also 21 do skip also 22 do skip
| also 23 do skip also 24 do skip also 25 do skip also 26 do skip also 27 do skip also 28 do skip also 29 do skip
| also 30 do skip also 31 do skip end end
file branches_31
call 0 run branches_31

| proc main begin
| cobegin 1 do skip also 2 do skip also 3 do skip also 4 do skip also 5 do skip also 6 do skip also 7 do skip also 8 do skip
| also 9 do skip also 10 do skip also 11 do skip also 12 do skip also 13 do skip also 14 do skip also 15 do skip
| also 16 do skip also 17 do skip also 18 do skip also 19 do skip also 20 do skip also 21 do skip also 22 do skip
| also 23 do skip also 24 do skip also 25 do skip also 26 do skip also 27 do skip also 28 do skip also 29 do skip
| also 30 do skip also 31 do skip also 32 do skip end end
file branches_32
call 3 run branches_32
shows line 2 process limit/

| proc main
| array a [1:2103] (int)
| proc p var x: a begin skip end
| begin cobegin
| 1 do p
| also 2 do skip also 3 do skip also 4 do skip also 5 do skip also 6 do skip also 7 do skip also 8 do skip also 9 do skip
| also 10 do skip also 11 do skip also 12 do skip also 13 do skip also 14 do skip also 15 do skip also 16 do skip
| also 17 do skip also 18 do skip also 19 do skip also 20 do skip also 21 do skip also 22 do skip also 23 do skip
| also 24 do skip also 25 do skip also 26 do skip also 27 do skip also 28 do skip also 29 do skip also 30 do skip
| also 31 do skip end end
file shares
call 0 run shares

copy shares
at 24 34
file too_small
call 3 run too_small
shows line 5 variable limit/

| proc main(proc accept(var c: char); proc display(c: char))
| module
|   array slots [0:3] (char)
|   var slot: slots; head, tail, length: int
|   * proc put(c: char)
|   begin when length < 4 do
|     slot[tail] := c; tail := (tail + 1) mod 4; length := length + 1 end
|   end
|   * proc get(var c: char)
|   begin when length > 0 do
|     c := slot[head]; head := (head + 1) mod 4; length := length - 1 end
|   end
| begin head := 0; tail := 0; length := 0 end
| proc producer
| var x: char
| begin accept(x);
|   while x <> char(25) do put(x); accept(x) end; put(x)
| end
| proc consumer
| var y: char
| begin get(y); while y <> char(25) do display(y); get(y) end end
| begin cobegin 1 do producer also 2 do consumer end end
file buffer
input 0 edison
call 0 run buffer
shows edison
input 0 edison
call 0 run buffer --seed 7 --record kept
shows edison
input 0 edison
call 0 replay buffer kept
shows edison
input 0 edison
call 0 run buffer --choices one
shows edison

call 0 demo 1
shows demo 1 symbols 32 turns 11/
call 0 demo 3
shows demo 3 symbols 70 turns 23/
call 0 demo 3 --seed 7
shows demo 3 symbols 70 turns 23/
call 0 demo 1000
shows demo 1000 symbols 19013 turns 6005/
call 4 demo 3 --turns 5
shows turn limit/
";

#[test]
fn processes_end_as_their_choices_select(rt: HostRuntime) {
    play_behind(&rt, rt.alloc(), RACE, TOGETHER, 0);
}

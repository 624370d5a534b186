//! Objects that fail.

use crate::rows::play::{play, play_behind};
use crate::rows::programs::ALIAS;

/// Files and inputs of which one call fails.
const OBJECTS: &str = "
files 1
| proc main(proc display(value: char)) begin display('a') end
file f
call 6 run f
shows file fault/
files 2
| proc main(proc display(value: char)) begin display('a') end
file f
call 6 run f --choices f
shows file fault/
files 2
| proc main(proc display(value: char)) begin display('a') end
file f
call 6 run f --record r
shows a/file fault/
none r
files 2
| proc main(proc display(value: char)) begin display('a') end
file f
call 6 compile f r
shows file fault/
none r
call 0 compile f r
call 0 exec r
shows a

world
| proc main(proc accept(var c: char); proc display(c: char))
| var x: char
| begin accept(x); display(x); accept(x); display(x); accept(x); display(x) end
file accepts
input 1 xy
call 8 run accepts --record r
shows input fault/
leaves xy
none r
input 2 xy
call 8 run accepts --record r
shows x/input fault/
leaves y
none r
";

/// Terminals that have room for one byte, or of which one put fails.
const TERMINALS: &str = "
terminal 0 1
call 9 run alias
shows 1
terminal 2 9
call 9 run alias --record r
shows 1
none r
terminal 3 9
call 9 run alias --turns 2 --record r
shows 12
holds r
";

/// Lines of statuses that cannot be shown, and printers.
const SHOWN: &str = "
terminal 0 0
call 9 run none
terminal 0 3
call 9 run none
shows abs
terminal 1 9
call 9 run
| proc main(proc display(value: char)) begin display('a') end
file letter
terminal 2 99
call 9 run letter --turns 1 --record r
shows a
holds r
| proc main
| const a = 1; a = 2
| begin skip end
file twice
terminal 0 0
call 9 compile twice c
none c
terminal 1 0
call 0 compile letter c
call 0 newdisk 64

| proc main(proc print(c: char); proc display(c: char)) begin print('p'); display('d'); print('q') end
file prints
terminal 0 99
printer 1 99
call 9 run prints --record never
printer 2 99
call 9 run prints --record never
shows d
prints p
printer 0 1
call 9 run prints
shows d
prints p
none never
printer 3 99
call 0 run prints
shows d
prints pq
";

#[test]
fn a_fault_of_an_object_is_told(rt: HostRuntime) {
    play(&rt, rt.alloc(), OBJECTS, 0);
    play_behind(&rt, rt.alloc(), ALIAS, TERMINALS, 0);
    play(&rt, rt.alloc(), SHOWN, 0);
}

/// An image without files, whose first 33 blocks are read before a program runs.
const RUNS: &str = "
| proc main(proc display(value: char)) begin display('a') end
file letter
bytes 32768 0
at 0 4544495300020040
drive n
call 7 run letter --record r
shows drive fault/
unchanged
none r
call 0 run letter
shows a
";

/// An image with a file of two pages: its map is read too, and then the pages.
const GETS: &str = "
bytes 32768 0
at 0 4544495300020040
at 512 742020202020202020202020202020202020202020202020
at 536 01000021000000000201
at 16896 000200220023
lands n
call 7 get t g
shows drive fault/
unchanged
none g
call 0 get t g
bytes 513 0
file zeros
same g zeros
";

/// A file of two pages is put: 33 reads, and then four writes, of its pages, its map and its entry.
const PUTS: &str = "
bytes 513 5
file f
bytes 32768 0
at 0 4544495300020040
drive n
call 7 put f t
shows drive fault/
blocks 64
either f

world
bytes 513 5
file f
bytes 32768 0
at 0 4544495300020040
lands n
call 7 put f t
shows drive fault/
blocks 64
either f
call 0 put f t
call 0 get t h
same f h
";

/// A call behind the last one that is made does not fail.
const WHOLE: &str = "
| proc main(proc display(value: char)) begin display('a') end
file letter
bytes 32768 0
at 0 4544495300020040
drive 34
call 0 run letter
shows a
bytes 513 5
file f
bytes 32768 0
at 0 4544495300020040
drive 38
call 0 put f t
bytes 32768 0
at 0 4544495300020040
at 512 742020202020202020202020202020202020202020202020
at 536 01000021000000000201
at 16896 000200220023
drive 37
call 0 get t g
";

/// A drive is given its blocks by one call, and then the first block is written.
const NEW: &str = "
drive n
call 7 newdisk 64
shows drive fault/
bytes 32768 0
at 0 4544495300010040
file old
lands n
call 7 newdisk 64 --from old
shows drive fault/
";

#[test]
fn each_call_of_a_drive_may_fail(rt: HostRuntime) {
    let alloc = rt.alloc();
    let scripts: [(&str, u64); 4] = [(RUNS, 33), (GETS, 36), (PUTS, 37), (NEW, 2)];
    for (script, calls) in scripts {
        for n in 1..=calls {
            play(&rt, alloc, script, n);
        }
    }
    play(&rt, alloc, WHOLE, 0);
}

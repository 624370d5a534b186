//! Disks: made, filled and read.

use crate::rows::play::play;

/// New disks, and files that are put there and got from there.
const FILES: &str = "
call 0 newdisk 64
blocks 64
sees 0 4544495300020040
zeros 8 32768
call 1 newdisk 63
shows bad words/
unchanged
call 1 newdisk 4097
shows bad words/
unchanged
call 12 put f t
shows absent/
unchanged
call 12 get t g
shows absent/
unchanged
none g

bytes 513 7
file f
call 0 put f t
blocks 64
call 0 get t g
same f g
unchanged
call 1 put f 1
shows bad words/

bytes 2 0
at 0 ed15
file code
bytes 1 237
file short
file empty
call 0 put code c
sees 600 02
call 0 put short d
sees 664 01
call 0 put empty e
sees 728 01
call 0 get e h
same empty h

bytes 261121 0
file large
call 16 put large t
shows file too large/
unchanged
call 0 newdisk 64
call 12 get t h
shows absent/
same empty h

call 0 newdisk 545
bytes 261120 5
file most
call 0 put most t
call 0 get t i
same most i
call 15 put empty e
shows disk full/
unchanged
call 0 newdisk 544
call 15 put most t
shows disk full/
unchanged

call 0 newdisk 300
bytes 130561 1
file f258
bytes 3585 2
file f9
call 0 put f258 t
call 0 put f9 u
call 15 put short v
shows disk full/
unchanged
call 0 get t j
same j f258
call 0 get u k
same k f9
";

/// All 256 slots are taken.
const FULL: &str = "call 15 put e t
shows disk full/
unchanged
call 0 put e t255
input 0 enter x/./copy t0 x/copy t0 t1/rename t0 x/
call 0 boot
shows > enter x/catalogue full/> copy t0 x/catalogue full/> copy t0 t1/> rename t0 x/> /
";

#[test]
fn there_are_256_slots(rt: HostRuntime) {
    let alloc = rt.alloc();
    let first = "call 0 newdisk 1024\nfile e\n";
    let mut script = String::from_str(alloc, first).expect(&rt, "memory");
    for n in 0..256 {
        let line = format!(in alloc; "call 0 put e t{n}\n").expect(&rt, "memory");
        script.push_str(&line).expect(&rt, "memory");
    }
    script.push_str(FULL).expect(&rt, "memory");
    play(&rt, alloc, &script, 0);
}

#[test]
fn files_are_put_and_got(rt: HostRuntime) {
    play(&rt, rt.alloc(), FILES, 0);
}

/// A protected file is replaced in its slot, where there is room beside it; it has 2 of the 31 blocks for files.
const PROTECTED: &str = "
bytes 32768 0
at 0 4544495300020040
at 576 742020202020202020202020202020202020202020202020
at 600 0101002100000000003c
at 16896 00010022
at 17408 07
drive 0
bytes 60 0
at 0 07
file t60
call 0 get t g
same g t60
unchanged
bytes 14848 3
file f30
call 15 put f30 t
shows disk full/
unchanged
bytes 14336 3
file f29
call 0 put f29 t
zeros 512 576
sees 576 742020202020202020202020202020202020202020202020
sees 601 00
call 0 get t h
same h f29
";

/// A program keeps its input as a file of the disk, where there are blocks enough and the old file is not protected.
const KEPT: &str = "
| array name [1:12] (char)
| proc main(proc accept(var c: char); proc display(c: char);
|   proc fresh; proc write(c: char); proc close(title: name; var done: bool))
| var c: char; done: bool
| begin fresh; accept(c);
|   while c <> char(25) do write(c); accept(c) end;
|   close(name('t           '), done);
|   if done do display('y') else true do display('n') end end
file keeps
| array name [1:12] (char)
| proc main(proc display(c: char); proc find(title: name; var found: bool);
|   proc more(var there: bool); proc read(var c: char))
| var there: bool; c: char
| begin find(name('t           '), there);
|   if there do more(there);
|     while there do read(c); display(c); more(there) end
|   else true do display('-') end end
file tells
input 0 edison
call 0 run keeps
shows n
blocks 0

call 0 newdisk 64
call 0 run tells
shows -
input 0 edison
call 0 run keeps
shows y
blocks 64
call 0 run tells
shows edison
unchanged
call 0 get t g
holds g edison
input 0 pascal
call 4 run keeps --turns 5
shows turn limit/
call 0 run tells
shows edison

| array name [1:12] (char)
| proc main(proc display(c: char); proc fresh; proc write(c: char); proc close(title: name; var done: bool))
| var n: int; done: bool
| begin fresh; while n < 513 do write('w'); n := n + 1 end;
|   close(name('u           '), done);
|   if done do display('y') else true do display('n') end end
file closes
call 0 newdisk 64
bytes 14336 3
file f29
call 0 put f29 v
call 0 run closes
shows n
unchanged
bytes 13824 3
file f28
call 0 newdisk 64
call 0 put f28 v
call 0 run closes
shows y
bytes 513 119
file w513
call 0 get u h
same h w513

bytes 32768 0
at 0 4544495300020040
at 512 752020202020202020202020202020202020202020202020
at 536 0101002100000000003c
at 16896 00010022
drive 0
call 0 run closes
shows n
unchanged
";

#[test]
fn protected_files_are_replaced_by_put_alone(rt: HostRuntime) {
    play(&rt, rt.alloc(), PROTECTED, 0);
}

#[test]
fn programs_keep_files(rt: HostRuntime) {
    play(&rt, rt.alloc(), KEPT, 0);
}

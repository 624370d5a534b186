//! Drives that are no disk, and images of version 1.

use crate::rows::play::play;

/// No disk, and disks that are none.
const NONE: &str = "
bytes 1 1
file f
bytes 261121 1
file large
| proc main(proc display(value: char)) begin display('a') end
file letter
call 15 put f t
shows disk full/
blocks 0
call 16 put large t
shows file too large/
blocks 0
call 12 get t g
shows absent/
none g
call 0 run letter
shows a
blocks 0

bytes 32768 0
drive 0
call 10 put f t
shows bad image header/
unchanged
call 10 get t g
shows bad image header/
unchanged
none g
call 10 run letter
shows bad image header/
unchanged
call 16 put large t
shows file too large/
unchanged

bytes 32256 0
at 0 4544495300020040
drive 0
call 10 put f t
shows bad image short/
unchanged

bytes 32768 0
at 0 4544495300010040
drive 0
call 10 get t g
shows bad image header/
unchanged

bytes 32768 0
at 0 4544495300020040
at 512 742020202020202020202020202020202020202020202020
at 536 03
at 539 21
drive 0
call 10 run letter
shows bad image entry 0/
unchanged

bytes 32768 0
at 0 4544495300020040
at 512 742020202020202020202020202020202020202020202020
at 536 01
at 539 20
drive 0
call 10 run letter
shows bad image entry 0/

bytes 32768 0
at 0 4544495300020040
at 512 742020202020202020202020202020202020202020202020
at 536 01000021000000000001
at 16896 00010040
drive 0
call 10 run letter
shows bad image page 0 64/

bytes 32768 0
at 0 4544495300020040
at 512 742020202020202020202020202020202020202020202020
at 536 01000021
at 576 752020202020202020202020202020202020202020202020
at 600 01000021
drive 0
call 10 run letter
shows bad image shared 33/

bytes 32768 0
at 0 4544495300020040
at 512 742020202020202020202020202020202020202020202020
at 536 01000021
at 576 742020202020202020202020202020202020202020202020
at 600 01000022
drive 0
call 10 run letter
shows bad image entry 1/
";

#[test]
fn what_is_no_disk_is_refused(rt: HostRuntime) {
    play(&rt, rt.alloc(), NONE, 0);
}

/// Old images of 64 blocks: one with a file in its second slot, one with a file that has no room, and broken ones.
const OLD: &str = "
call 12 newdisk 64 --from old
shows absent/
blocks 0

bytes 32769 0
at 0 4544495300010040
at 544 742020202020202020202020
at 556 010000050000003c
at 2560 00010006
at 3072 07
file old
bytes 60 0
at 0 07
file t60
call 0 newdisk 64 --from old
blocks 64
sees 0 4544495300020040
zeros 512 576
sees 576 742020202020202020202020202020202020202020202020
call 0 get t g
same g t60
input 0 list
call 0 boot
shows > list/t                        text     60/29 blocks free/> /
bytes 14336 3
file f29
call 0 put f29 u
call 15 put t60 v
shows disk full/

bytes 32768 0
at 0 4544495300010040
at 512 742020202020202020202020
at 524 0100000500007400
at 2560 003a0006000700080009000a000b000c000d000e000f0010001100120013001400150016001700180019001a001b001c001d001e001f002000210022
at 2620 0023002400250026002700280029002a002b002c002d002e002f0030003100320033003400350036003700380039003a003b003c003d003e003f
file full
call 15 newdisk 64 --from full
shows disk full/
unchanged
call 15 newdisk 91 --from full
shows disk full/
unchanged

bytes 32768 0
at 0 4544495300010040
at 512 742020202020202020202020
at 524 01000004
file entry_map
call 10 newdisk 64 --from entry_map
shows bad image entry 0/
unchanged

bytes 32768 0
at 0 4544495300010040
at 512 742020202020202020202020
at 524 010000050000003c
at 2560 000200060007
file entry_pages
call 10 newdisk 64 --from entry_pages
shows bad image entry 0/
unchanged

copy entry_pages
at 2560 000100400000
file page
call 10 newdisk 64 --from page
shows bad image page 0 64/
unchanged

bytes 32768 0
at 0 4544495300010040
at 512 742020202020202020202020
at 524 01000005
at 544 752020202020202020202020
at 556 01000005
file shared
call 10 newdisk 64 --from shared
shows bad image shared 5/
unchanged

bytes 32768 0
at 0 4544495300010040
at 512 742020202020202020202020
at 524 01000005
at 544 742020202020202020202020
at 556 01000006
file entry_1
call 10 newdisk 64 --from entry_1
shows bad image entry 1/
unchanged

bytes 32768 0
at 0 4544495300020040
file new
call 10 newdisk 64 --from new
shows bad image header/
unchanged
call 0 newdisk 92 --from full
blocks 92
bytes 29696 0
file f59
call 0 get t h
same h f59
";

#[test]
fn old_images_are_taken_over(rt: HostRuntime) {
    play(&rt, rt.alloc(), OLD, 0);
}

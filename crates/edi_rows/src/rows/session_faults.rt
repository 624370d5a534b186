//! Sessions in which an object fails, or the limit is reached, and disks on which none is held.

use crate::rows::play::{play, play_behind};

/// Files, inputs, terminals and printers of which one call fails, or that have no room.
const OBJECTS: &str = "
call 0 newdisk 64
input 0 enter t/ab/./halt/
call 0 boot
shows > enter t/> halt/

files 1
| 0
|
file c
call 6 boot --choices c
shows file fault/
files 1
input 0 enter u/./
call 6 boot --record r
shows > enter u/> /file fault/
none r
call 0 get u u
holds u

input 1 halt
call 8 boot --record r
shows > /input fault/
leaves halt
none r
input 3 halt
call 8 boot
shows > ha/input fault/
leaves lt
input 11 enter w/a/./halt/
call 8 boot
shows > enter w/input fault/
call 12 get w w
shows absent/

input 0 type t/halt/
terminal 1 99
call 9 boot --record r
leaves type t/halt/
terminal 0 1
call 9 boot
shows >
leaves type t/halt/
terminal 0 11
call 9 boot --record r
shows > type t/ab
leaves halt/
none r
terminal 0 65536
printer 0 1
input 0 print t/halt/
call 9 boot
shows > print t/
prints a
leaves halt/
printer 1 99
input 0 print t/halt/
call 9 boot
shows > print t/
leaves halt/
";

/// Disks on which no session is held.
const DISKS: &str = "
input 0 halt
bytes 32768 0
drive 0
call 10 boot --record r
shows bad image header/
unchanged
bytes 32256 0
at 0 4544495300020040
drive 0
call 10 boot
shows bad image short/
unchanged
bytes 32768 0
at 0 4544495300010040
drive 0
call 10 boot
shows bad image header/
unchanged
leaves halt
none r
";

/// A session takes 4,194,304 bytes.
const LIMIT: &str = "
call 0 newdisk 64
bytes 4194305 120
at 0 656e74657220740a
types 0
call 14 boot --record r
shows > enter t/session limit/
leaves x
holds r
bytes 4194304 120
at 0 656e74657220740a
at 4194302 0a2e
types 0
call 14 boot
shows > enter t/session limit/
call 12 get t g
shows absent/
";

#[test]
fn a_session_is_broken_off(rt: HostRuntime) {
    play(&rt, rt.alloc(), OBJECTS, 0);
    play(&rt, rt.alloc(), DISKS, 0);
}

#[test]
fn a_session_has_a_limit(rt: HostRuntime) {
    play(&rt, rt.alloc(), LIMIT, 0);
}

/// A file of 2,000 bytes, and an image that has it.
const IMAGE: &str = "
bytes 2000 0
at 0 61
at 1999 7a
file wanted
bytes 32768 0
at 0 4544495300020040
at 512 662020202020202020202020202020202020202020202020
at 536 010000210000000007d0
at 16896 00040022002300240025
at 17408 61
at 19407 7a
";

/// The first 33 blocks of the image and the map of its file are read before a session begins.
const MOUNTS: &str = "
drive n
input 0 copy f t/halt/
call 7 boot --record r
shows drive fault/
unchanged
leaves copy f t/halt/
none r
";

/// The copy is broken off by the drive: the disk has the copy, or not, and the file as it was.
const COPIES: &str = "
drive n
input 0 copy f t/halt/
call 7 boot --record r
shows > copy f t/drive fault/
leaves halt/
none r
blocks 64
either wanted
call 0 get f g
same g wanted
";

/// So it is also where the call that fails has done what it was to do.
const LANDED: &str = "
lands n
input 0 copy f t/halt/
call 7 boot
shows > copy f t/drive fault/
blocks 64
either wanted
call 0 get f g
same g wanted
";

/// The call behind the last one of a copy fails, which is another command's.
const COPIED: &str = "
drive n
input 0 copy f t/halt/
call 0 boot
shows > copy f t/> halt/
call 7 get t g
shows drive fault/
call 0 get t g
same g wanted
call 0 get f h
same h wanted
";

#[test]
fn each_call_of_the_drive_may_fail_in_a_copy(rt: HostRuntime) {
    for n in 1..=45u64 {
        let script = match n {
            1..=34 => MOUNTS,
            45 => COPIED,
            _ => COPIES,
        };
        play_behind(&rt, rt.alloc(), IMAGE, script, n);
    }
}

#[test]
fn a_call_that_fails_may_be_done_in_a_copy(rt: HostRuntime) {
    for n in 35..=44u64 {
        play_behind(&rt, rt.alloc(), IMAGE, LANDED, n);
    }
}

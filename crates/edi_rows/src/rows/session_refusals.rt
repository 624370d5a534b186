//! Sessions: each refusal of a command of the shell.

use crate::rows::play::play;

/// Each command with each of its refusals, the first of which is told; and lines that are no commands.
const REFUSED: &str = "
call 0 newdisk 64
| proc main begin skip end
file t
call 0 put t t
call 0 put t p
| proc main
| begin x end
file bad
call 0 put bad bad
bytes 62 0
at 0 ed1500010000000f000000000102
at 32 0021000900000003000000000001006100230000000500010025
file c
call 0 put c c
copy c
at 3 02
at 56 002c0000000c
file ends_badly
call 0 put ends_badly y
bytes 3 0
at 0 ed15
file cut
call 0 put cut x

input 0 protect p/type d/type c/print d/print c/protect d/release d/edit c/d/t/x/y/halt/
call 0 boot
| > protect p
| > type d
| no file d
| > type c
| not text c
| > print d
| no file d
| > print c
| not text c
| > protect d
| no file d
| > release d
| no file d
| > edit c
| not text c
| > d
| no file d
| > t
| not code t
| > x
| bad code x
| > y
| a
| bad code y
| > halt
|
seen
input 0 copy d p/copy t p/rename d t/rename p d/rename p t/rename t p/rename t t/halt/
call 0 boot
| > copy d p
| no file d
| > copy t p
| protected p
| > rename d t
| no file d
| > rename p d
| protected p
| > rename p t
| protected p
| > rename t p
| title taken p
| > rename t t
| title taken t
| > halt
|
seen
input 0 compile d p/compile c p/compile bad p/compile t p/enter p/a/./delete d/delete p/release p/delete p/delete p/halt/
call 0 boot
| > compile d p
| no file d
| > compile c p
| not text c
| > compile bad p
| line 2 undeclared name
| > compile t p
| protected p
| > enter p
| protected p
| > delete d
| no file d
| > delete p
| protected p
| > release p
| > delete p
| > delete p
| no file p
| > halt
|
seen

input 0 list t/type/type t t/type 1/print/enter/enter t t
call 0 boot
shows > list t/bad command/> type/bad command/> type t t/bad command/> type 1/bad command/> print/bad command/> enter/bad command/> enter t t/bad command/> /
input 0 copy t/copy 1 t/rename t/rename t 1/rename t t t
call 0 boot
shows > copy t/bad command/> copy 1 t/bad command/> rename t/bad command/> rename t 1/bad command/> rename t t t/bad command/> /
input 0 delete/protect/release t t/compile t/compile t t t/edit
call 0 boot
shows > delete/bad command/> protect/bad command/> release t t/bad command/> compile t/bad command/> compile t t t/bad command/> edit/bad command/> /
input 0 edit t t/halt t/erase t/t c/1/a-b/_
call 0 boot
shows > edit t t/bad command/> halt t/bad command/> erase t/bad command/> t c/bad command/> 1/bad command/> a-b/bad command/> _/bad command/> /
input 0 t\u{7f}/t ~/\u{e9}/Type t
call 0 boot
shows > t\u{7f}/bad command/> t ~/bad command/> \u{e9}/bad command/> Type t/bad command/> /
input 0 abcdefghijklmnopqrstuvwxy/abcdefghijklmnopqrstuvwx
call 0 boot
shows > abcdefghijklmnopqrstuvwxy/bad command/> abcdefghijklmnopqrstuvwx/no file abcdefghijklmnopqrstuvwx/> /

bytes 80 32
at 0 68616c74
types 0
call 0 boot
bytes 83 32
at 0 3e2068616c74
at 82 0a
seen
bytes 81 32
at 0 68616c74
types 0
call 0 boot
bytes 99 32
at 0 3e2068616c74
at 83 0a62616420636f6d6d616e640a3e200a
seen
";

/// What is stored is refused where it is too large, or where there is no room; the larger refusal is told first.
const ROOM: &str = "
input 0 list/enter t/./list/halt/
call 0 boot
| > list
| 0 blocks free
| > enter t
| disk full 1 0
| > list
| 0 blocks free
| > halt
|
seen
call 0 newdisk 64
bytes 14848 65
file f30
call 0 put f30 f
input 0 copy f g/copy f f/enter e/./enter g/a/./edit g/w/q/list/halt/
call 0 boot
| > copy f g
| disk full 30 1
| > copy f f
| disk full 30 1
| > enter e
| > enter g
| disk full 2 0
| > edit g
| disk full 1 0
| > list
| f                        text  14848
| e                        text      0
| 0 blocks free
| > halt
|
seen

call 0 newdisk 64
bytes 261131 10
at 0 656e7465722074
at 261129 2e
types 0
call 0 boot
shows > enter t/file too large 261121/> /
bytes 261130 10
at 0 656e7465722074
at 261128 2e
types 0
call 0 boot
shows > enter t/disk full 512 31/> /
call 12 get t g
shows absent/
call 0 newdisk 545
bytes 261130 10
at 0 656e7465722074
at 261128 2e
types 0
call 0 boot
shows > enter t/> /
call 0 get t g
bytes 261120 10
file lines
same g lines
";

#[test]
fn commands_are_refused_in_order(rt: HostRuntime) {
    play(&rt, rt.alloc(), REFUSED, 0);
    play(&rt, rt.alloc(), ROOM, 0);
}

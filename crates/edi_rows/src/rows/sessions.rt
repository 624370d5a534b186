//! Sessions: what the lines of the shell show and leave.

use crate::rows::play::play;

/// A text is entered, compiled and executed; lines that end at the input's end.
const WORKED: &str = "
call 0 newdisk 64
input 0 list
call 0 boot
shows > list/31 blocks free/> /
| enter t
| proc main(proc display(value: char))
| begin display('a') end
| .
| list
| compile t c
| c
| halt
| list
types 0
call 0 boot
| > enter t
| > list
| t                        text     60
| 29 blocks free
| > compile t c
| > c
| a
| > halt
|
seen
leaves list
call 0 get c g
call 0 exec g
shows a

input 0
call 0 boot
shows > /
input 0 type t
call 0 boot
shows > type t/proc main(proc display(value: char))/begin display('a') end/> /
input 0 c
call 0 boot
shows > c/a/> /
input 0 halt
call 0 boot
shows > halt/
input 0 /  / \t/\t halt \r/halt
call 0 boot
shows > />   />  \t/> \t halt \r/
leaves halt
input 0 enter e/one//two/./print e/type e/halt/
call 0 boot
shows > enter e/> print e/> type e/one//two/> halt/
prints one//two/
call 0 get e g
holds g one//two/
input 0 enter e/.x/./enter f/a/./enter f/b
call 0 boot
shows > enter e/> enter f/> enter f/
input 0 type e/type f/enter f/./type f/enter g/a/.
call 0 boot
shows > type e/.x/> type f/a/> enter f/> type f/> enter g/> /
call 0 get g g2
holds g2 a/
call 0 newdisk 64
bytes 513 65
file two_pages
call 0 put two_pages t
input 0 copy t u/rename u v/delete t/protect v/list/halt/
call 0 boot
| > copy t u
| > rename u v
| > delete t
| > protect v
| > list
| v                        text    513 protected
| 28 blocks free
| > halt
|
seen
call 0 get v w
same w two_pages
";

#[test]
fn sessions_are_as_they_were_worked(rt: HostRuntime) {
    play(&rt, rt.alloc(), WORKED, 0);
}

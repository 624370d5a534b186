//! Texts that are refused, and the greatest that are not; codes that are damaged.

use crate::rows::play::play;

/// Texts with a first fault.
const TEXTS: &str = "
file empty
call 2 run empty
shows line 1 invalid syntax/
call 2 check empty
shows line 1 invalid syntax/
call 2 run empty --record r
shows line 1 invalid syntax/
none r
call 2 compile empty r
shows line 1 invalid syntax/
none r

bytes 262144 32
file blanks
call 2 run blanks
shows line 1 invalid syntax/
call 2 check blanks
shows line 1 invalid syntax/
bytes 262145 32
file long
call 2 run long
shows line 0 text too long/
call 2 check long
shows line 0 text too long/

| proc main(proc display(value: char))
| module
|   var hidden: char
|   * proc show begin display(hidden) end
| begin hidden := 'm' end
| begin show; display(hidden) end
file hidden
call 2 run hidden
shows line 6 undeclared name/
call 2 check hidden
shows line 6 undeclared name/

| proc main
| pre proc p
| begin skip end
file split
call 2 run split
shows line 2 invalid split procedure/
call 2 check split
shows line 2 invalid split procedure/

| proc main begin skip; end
file no_statement
call 2 run no_statement
shows line 1 invalid syntax/
call 2 check no_statement
shows line 1 invalid syntax/

| proc main(proc display(value: char)) begin display('a':char) end
file converted
call 2 run converted
shows line 1 not in profile/
call 2 check converted
shows line 1 not in profile/

bytes 10 7
at 0 70726f63206d61696e
file byte_7
call 2 run byte_7
shows line 1 invalid character/
call 2 check byte_7
shows line 1 invalid character/

| proc main const a = 32768; begin skip end
file numeral
call 2 run numeral
shows line 1 invalid numeral/
call 2 check numeral
shows line 1 invalid numeral/

| proc main
| const a = 1; a = 2
| begin skip end
file twice
call 2 run twice
shows line 2 ambiguous name/
call 2 check twice
shows line 2 ambiguous name/

| proc main var a: int begin a := true end
file types
call 2 run types
shows line 1 incompatible types/
call 2 check types
shows line 1 incompatible types/

| proc main(proc beep) begin skip end
file heading
call 2 run heading
shows line 1 invalid program heading/
call 2 check heading
shows line 1 invalid program heading/

| proc main set s (int) array t [1:8192] (s) begin skip end
file large_type
call 2 run large_type
shows line 1 invalid range/
call 2 check large_type
shows line 1 invalid range/

| proc main array t [1:32767] (int) var a, b: t begin skip end
file large_need
call 2 run large_need
shows line 1 invalid range/
call 2 check large_need
shows line 1 invalid range/

| proc main(proc display(value: char))
| begin display((((((((((((((((((((((((((((((((((((((((((((((((((((((((((((((('a'))))))))))))))))))))))))))))))))))))))))))))))))))))))))))))))) end
file levels_64
call 0 run levels_64
shows a

| proc main(proc display(value: char))
| begin display(((((((((((((((((((((((((((((((((((((((((((((((((((((((((((((((('a')))))))))))))))))))))))))))))))))))))))))))))))))))))))))))))))) end
file levels_65
call 2 run levels_65
shows line 2 nesting too deep/
call 2 check levels_65
shows line 2 nesting too deep/

| proc main module module module module module module module module module module module module module module module module
| module module module module module module module module module module module module module module module module
| module module module module module module module module module module module module module module module module
| module module module module module module module module module module module module module module module
file modules_63
call 2 run modules_63
shows line 4 invalid syntax/
call 2 check modules_63
shows line 4 invalid syntax/

| proc main module module module module module module module module module module module module module module module module
| module module module module module module module module module module module module module module module module
| module module module module module module module module module module module module module module module module
| module module module module module module module module module module module module module module module module
file modules_64
call 2 run modules_64
shows line 4 nesting too deep/
call 2 check modules_64
shows line 4 nesting too deep/
";

#[test]
fn texts_are_refused_at_their_first_fault(rt: HostRuntime) {
    play(&rt, rt.alloc(), TEXTS, 0);
}

/// The code that shows the letter `a`, in version 1, and damaged copies of it.
const CODES: &str = "
bytes 62 0
at 0 ed1500010000000f000000000102
at 32 0021000900000003000000000001006100230000000500010025
file c
call 0 exec c
shows a
call 4 exec c --turns 1 --record r
shows a/turn limit/
holds r

call 0 list c
shows       0 ENTRY 9 0 3 0 0/      6 CONST 97/      8 CALLP 0 5 1/     12 RETURN 0 0/
call 12 list none
shows absent/

copy c
at 3 02
file version_2
call 0 exec version_2
shows a

bytes 31 0
at 0 ed1500010000000f000000000102
file cut
call 11 exec cut
shows bad code short 31/
call 11 list cut
shows bad code short 31/

bytes 63 0
at 0 ed1500010000000f000000000102
at 32 0021000900000003000000000001006100230000000500010025
file over
call 11 exec over
shows bad code over 62/
call 11 list over
shows bad code over 62/

copy c
at 3 03
file version_3
call 11 exec version_3
shows bad code header 2/

copy c
at 31 01
file header_31
call 11 exec header_31
shows bad code header 31/

copy c
at 45 1c
at 47 00
at 49 07
at 51 0f
file jump
call 11 exec jump
shows bad code jump 6/

copy c
at 57 2c
at 61 0c
file quiet
call 11 exec quiet
shows bad code operation 12/

copy c
at 3 02
at 57 2c
at 61 0c
file quiet_2
call 11 exec quiet_2
shows a/bad code state 12/

call 12 exec none
shows absent/
| proc main(proc display(value: char)) begin display('a') end
file text
call 11 exec text
shows bad code header 0/
call 2 run c
shows line 1 invalid character/
call 0 compile text d
call 0 exec d
shows a
call 12 compile none e
shows absent/
none e
";

#[test]
fn codes_are_refused_at_their_first_fault(rt: HostRuntime) {
    play(&rt, rt.alloc(), CODES, 0);
}

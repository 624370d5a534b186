//! Explorations of texts: what they show, keep and leave.

use crate::rows::play::play;

/// Of a program whose first branch waits for ever, if the second one is first; and of one that asks for input.
const EXPLORATIONS: &str = "
call 0 newdisk 64
input 0 left
| proc main
| var x: int
| begin x := 0;
| cobegin 1 do when x = 0 do x := 1 end
| also 2 do when true do x := 2 end end end
file either
call 19 explore either --record r
shows standstill after 6 turns: choices 0 0 1 in r.1/  1.1 waits at line 4/done after 7 turns: no choices in r.2/no execution ends otherwise; 10 states/no execution makes more than 5 moves/no order of steps ends otherwise, but perhaps by process limit/found 1/
unchanged
leaves left
holds r.1 0/0/1/
none r
none r.3
call 20 explore either --states 1
shows perhaps not all: --states allows no more; every execution of fewer than 1 move was followed; 2 states/not all/
call 12 explore none --record r
shows absent/
call 1 explore either --seed 5
shows bad words/
leaves left
holds r.1 0/0/1/

| proc main(proc accept(var value: char))
| var c: char
| begin accept(c); if c = 'l' do halt end end
file asks
call 19 explore asks
shows line 3 halt after 1 turn: no choices/no execution ends otherwise; 1 state/no execution makes more than 0 moves/found 1/
call 0 explore asks
shows done after 2 turns: no choices/no execution ends otherwise; 1 state/no execution makes more than 0 moves/no order of steps ends otherwise, but perhaps by process limit/
";

/// Objects fail.
const FAULTS: &str = "
| proc main(proc accept(var value: char))
| var c: char
| begin accept(c) end
file asks
input 2 left
call 8 explore asks --record r
shows input fault/
leaves eft
none r.1

terminal 0 35
call 9 explore asks --record r
shows done after 2 turns: no choices in r
none r.1

terminal 0 400
files 3
| proc main
| var x: int
| begin x := 0;
| cobegin 1 do when x = 0 do x := 1 end
| also 2 do when true do x := 2 end end end
file either
call 6 explore either --record r
shows standstill after 6 turns: choices 0 0 1 in r.1/  1.1 waits at line 4/done after 7 turns: no choices in r.2/no execution ends otherwise; 10 states/no execution makes more than 5 moves/no order of steps ends otherwise, but perhaps by process limit/file fault/
holds r.1 0/0/1/
none r.2
";

#[test]
fn texts_are_explored(rt: HostRuntime) {
    play(&rt, rt.alloc(), EXPLORATIONS, 0);
    play(&rt, rt.alloc(), FAULTS, 0);
}

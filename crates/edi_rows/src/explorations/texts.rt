//! Texts of programs.

/// One letter is shown.
pub(crate) const LETTER: &str = "proc main(proc display(value: char))
begin display('a') end";

/// Two processes each add 1 to a variable, and an update may be lost: then the program halts.
pub(crate) const LOST: &str = "proc main(proc display(value: char))
var count: int
proc adds
var seen, i: int
begin
  i := 0;
  while i < 1 do
    when true do seen := count end;
    when true do count := seen + 1 end;
    i := i + 1
  end
end
begin
  count := 0;
  cobegin 1 do adds
  also 2 do adds end;
  display(char(int('0') + count));
  if count < 2 do halt end
end";

/// Peterson's algorithm for ever, with its two assignments in the wrong order: it halts where two processes are inside.
pub(crate) const PETERSON: &str = "proc main(proc display(value: char))
array flags [1:2] (bool)
var wants: flags; last, inside: int
proc process(me, other: int)
var busy: bool
begin
  while true do
    when true do last := me end;
    when true do wants[me] := true end;
    busy := true;
    while busy do
      when true do busy := wants[other] end;
      if busy do
        when true do busy := last = me end
      end
    end;
    when true do inside := inside + 1; if inside > 1 do halt end end;
    when true do inside := inside - 1; wants[me] := false end
  end
end
begin
  inside := 0; last := 1;
  cobegin 1 do process(1, 2) also 2 do process(2, 1) end
end";

/// A monitor, written as a module.
pub(crate) const MONITOR: &str = "proc main(proc display(value: char))

module
  var balance: int

  proc tell(who, sign: char)
  begin
    display(who); display(sign);
    display(char(int('0') + balance));
    display(char(10))
  end

  * proc pay(who: char; sum: int)
  begin
    when true do balance := balance + sum; tell(who, '+') end
  end

  * proc draw(who: char; sum: int)
  begin
    when balance >= sum do balance := balance - sum; tell(who, '-') end
  end

begin balance := 1 end

begin
  cobegin 1 do draw('a', 3); draw('a', 1)
  also 2 do draw('b', 2)
  also 3 do pay('c', 2); pay('c', 2); pay('c', 1)
  end
end";

/// Two processes wait for each other.
pub(crate) const STANDS: &str = "proc main
var one, other: bool
begin
  one := false; other := false;
  cobegin 1 do when one do other := true end
  also 2 do when other do one := true end end
end";

/// Two processes each add 1 to a variable, and an update may be lost: the program shows what came of it.
pub(crate) const EITHER: &str = "proc main(proc display(value: char))
var x: int

proc add
var seen: int
begin
  when true do seen := x end;
  when true do x := seen + 1 end
end

begin
  x := 0;
  cobegin 1 do add also 2 do add end;
  display(char(int('0') + x));
  display(char(10))
end";

/// A process waits for ever. Its condition calls a function, so that no attempt marks it: it is no standstill.
pub(crate) const WAITS: &str = "proc main
proc never: bool
begin val never := false end
begin when never do skip end end";

/// A stint without end.
pub(crate) const FOREVER: &str = "proc main
begin while true do skip end end";

/// Shows its input.
pub(crate) const ECHO: &str = "proc main(proc accept(var value: char); proc display(value: char))
var c: char
begin
  accept(c);
  while c <> char(25) do
    when true do display(c) end;
    accept(c)
  end
end";

/// Each branch shows its letter.
pub(crate) const BOTH: &str = "proc main(proc display(value: char))
begin cobegin 1 do when true do display('a') end also 2 do when true do display('b') end end end
";

/// One branch uses a variable and shows a letter outside critical phases.
pub(crate) const OPEN: &str = "proc main(proc display(value: char))
var x: int
begin
  cobegin 1 do x := 1; display('a')
  also 2 do skip end
end";

/// One branch uses eleven variables outside critical phases.
pub(crate) const MANY: &str = "proc main
var a, b, c, d, e, f, g, h, i, j, k: int
begin
  cobegin 1 do a := 1; b := 1; c := 1; d := 1; e := 1; f := 1; g := 1; h := 1; i := 1; j := 1; k := 1
  also 2 do skip end
end";

//! Programs that several scripts run.

/// A variable with two names, as the file `alias`.
pub const ALIAS: &str = "
| proc main(proc display(value: char))
| var g: int
| proc p(var v: int)
| begin v := 1; if g = 1 do display('1') end;
|   g := 2; if v = 2 do display('2') end end
| begin p(g) end
file alias
";

/// Two processes of which either may be the first, as the file `race`.
pub const RACE: &str = "
| proc main(proc display(value: char))
| var x: int
| begin cobegin 1 do when x = 0 do display('a'); x := 1 end
| also 2 do when true do display('b') end end end
file race
";

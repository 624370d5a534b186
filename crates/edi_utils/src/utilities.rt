//! The utility programs, as Edison programs. Each takes its titles from the input, one to a line, and shows `no file` where there is no file
//! of a title. What they do is tested, and not proved.

use crate::kinds::Utility;

/// The Edison program of a utility.
pub fn utility(which: Utility) -> &'static str {
    match which {
        Utility::CopyText => COPYTEXT,
        Utility::Compare => COMPARE,
        Utility::Count => COUNT,
        Utility::Pages => PAGES,
    }
}

const COPYTEXT: &str = r#""Copies a text. It takes two titles, one to a line, and stores the
text of the first under the second."

array name [1:12] (char)
array line [1:10] (char)

proc main(proc accept(var c: char); proc display(c: char);
  proc find(title: name; var found: bool); proc more(var some: bool);
  proc read(var c: char); proc fresh; proc write(c: char);
  proc close(title: name; var done: bool))

const feed = char(10); medium = char(25)
var old, new: name; there, done: bool; c: char

proc take(var title: name)
var c: char; i: int
begin i := 0;
  while i < 12 do i := i + 1; title[i] := ' ' end;
  i := 0; accept(c);
  while (c <> feed) and (c <> medium) do
    if i < 12 do i := i + 1; title[i] := c
    else true do title[1] := ' ' end;
    accept(c)
  end
end

proc show(text: line)
var i: int
begin i := 1;
  while text[i] <> '.' do display(text[i]); i := i + 1 end;
  display(feed)
end

begin take(old); take(new); find(old, there);
  if there do
    fresh; more(there);
    while there do read(c); write(c); more(there) end;
    close(new, done);
    if done do show(line('done.     '))
    else true do show(line('not done. ')) end
  else true do show(line('no file.  ')) end
end
"#;

const COMPARE: &str = r#""Compares two texts, whose titles it takes, one to a line. A program
finds one file at a time, so a part of the first text is read into a
page, and then the second is found and compared with the page from the
same place on."

const size = 30000
array name [1:12] (char)
array line [1:10] (char)
array page [1:size] (char)

proc main(proc accept(var c: char); proc display(c: char);
  proc find(title: name; var found: bool); proc more(var some: bool);
  proc read(var c: char))

const feed = char(10); medium = char(25)
var one, other: name; there: bool; part: page;
  parts, length: int; same, ended: bool

proc take(var title: name)
var c: char; i: int
begin i := 0;
  while i < 12 do i := i + 1; title[i] := ' ' end;
  i := 0; accept(c);
  while (c <> feed) and (c <> medium) do
    if i < 12 do i := i + 1; title[i] := c
    else true do title[1] := ' ' end;
    accept(c)
  end
end

proc show(text: line)
var i: int
begin i := 1;
  while text[i] <> '.' do display(text[i]); i := i + 1 end;
  display(feed)
end

"finds a text again, at the end of the parts that were compared"
proc go_on(title: name)
var c: char; some: bool; i, n: int
begin find(title, some); n := 0;
  while n < parts do
    i := 0; more(some);
    while some and (i < size) do read(c); i := i + 1; more(some) end;
    n := n + 1
  end
end

proc read_part
var some: bool
begin go_on(one); length := 0; more(some);
  while some and (length < size) do
    length := length + 1; read(part[length]); more(some)
  end;
  ended := not some
end

proc compare_part
var some: bool; c: char; i: int
begin go_on(other); i := 0; more(some);
  while some and same and (i < length) do
    i := i + 1; read(c); same := c = part[i]; more(some)
  end;
  if i < length do same := false end;
  if ended and some do same := false end
end

begin take(one); take(other); find(one, there);
  if there do find(other, there) end;
  if there do
    parts := 0; same := true; ended := false;
    while same and not ended do
      read_part; compare_part; parts := parts + 1
    end;
    if same do show(line('equal.    '))
    else true do show(line('different.')) end
  else true do show(line('no file.  ')) end
end
"#;

const COUNT: &str = r#""Counts the lines of a text: it takes its title, and shows the number
of its line feeds. The number has six digits, the last one in place 6,
since a text may have more lines than an int can count."

array name [1:12] (char)
array line [1:10] (char)
array number [1:6] (int)

proc main(proc accept(var c: char); proc display(c: char);
  proc find(title: name; var found: bool); proc more(var some: bool);
  proc read(var c: char))

const feed = char(10); medium = char(25)
var title: name; there: bool; c: char; count: number; i: int

proc take(var title: name)
var c: char; i: int
begin i := 0;
  while i < 12 do i := i + 1; title[i] := ' ' end;
  i := 0; accept(c);
  while (c <> feed) and (c <> medium) do
    if i < 12 do i := i + 1; title[i] := c
    else true do title[1] := ' ' end;
    accept(c)
  end
end

proc show(text: line)
var i: int
begin i := 1;
  while text[i] <> '.' do display(text[i]); i := i + 1 end;
  display(feed)
end

proc step
var i: int
begin i := 6; count[i] := count[i] + 1;
  while count[i] = 10 do
    count[i] := 0; i := i - 1; count[i] := count[i] + 1
  end
end

begin take(title); find(title, there);
  if there do
    count := number(0, 0, 0, 0, 0, 0); more(there);
    while there do
      read(c);
      if c = feed do step end;
      more(there)
    end;
    i := 1;
    while (i < 6) and (count[i] = 0) do i := i + 1 end;
    while i <= 6 do display(char(48 + count[i])); i := i + 1 end;
    display(feed)
  else true do show(line('no file.  ')) end
end
"#;

const PAGES: &str = r#""Prints a text, whose title it takes, with a form feed behind each 60
lines."

array name [1:12] (char)
array line [1:10] (char)

proc main(proc accept(var c: char); proc display(c: char);
  proc print(c: char); proc find(title: name; var found: bool);
  proc more(var some: bool); proc read(var c: char))

const feed = char(10); medium = char(25); form = char(12)
var title: name; there: bool; c: char; lines: int

proc take(var title: name)
var c: char; i: int
begin i := 0;
  while i < 12 do i := i + 1; title[i] := ' ' end;
  i := 0; accept(c);
  while (c <> feed) and (c <> medium) do
    if i < 12 do i := i + 1; title[i] := c
    else true do title[1] := ' ' end;
    accept(c)
  end
end

proc show(text: line)
var i: int
begin i := 1;
  while text[i] <> '.' do display(text[i]); i := i + 1 end;
  display(feed)
end

begin take(title); find(title, there);
  if there do
    lines := 0; more(there);
    while there do
      read(c); print(c);
      if c = feed do
        lines := lines + 1;
        if lines = 60 do print(form); lines := 0 end
      end;
      more(there)
    end
  else true do show(line('no file.  ')) end
end
"#;

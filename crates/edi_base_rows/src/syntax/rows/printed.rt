//! A program that is printed, and read again.

use edi_lex::scan;
use edi_syntax::parse;
use edi_tree::{depth, print};
use std::alloc::Global;
use std::process::Abort;

/// A program with most constructs of the grammar.
const TEXT: &str = "\"most constructs\"
const limit = 07; star='*'; feed = char(10)
enum colour (red, green)
record pair (left, right: int; mark: char)
array rows [0:limit] (pair)
set members (int)
proc main(proc display(value: char); proc more(var yes: bool))
pre proc ask(n: int): bool
module
  * var count: int; last: char
  * proc put(c: char; var d: char) begin d := c end
  module begin skip end
begin count := 0 end
post proc ask(n: int): bool
begin val ask := n > 1 end
begin
  if count = 1 do skip else not true do put('a', last) end;
  while count in members(1, 2) do rows[1].left := -count mod 3 + 2*(4 - 1) end;
  when ask(1) and last <> 'x' do more end;
  cobegin 1 do skip also
    2 do display('b') end
end
";

/// Its symbols with a blank between two of them. Line feeds stand in place of the blank where a symbol whose line is kept
/// stands on a later line than what is before it: so behind `module`, whose line is not kept, two lines begin at once.
const PRINTED: &str = "const
limit = 7 ; star = '*' ; feed = char ( 10 ) enum
colour ( red , green ) record
pair ( left , right : int ; mark : char ) array
rows [ 0 : limit ] ( pair ) set
members ( int ) proc
main ( proc display ( value : char ) ; proc more ( var yes : bool ) ) pre proc
ask ( n : int ) : bool module * var

count : int ; last : char * proc
put ( c : char ; var d : char ) begin d := c end module begin skip end begin

count := 0 end post proc
ask ( n : int ) : bool begin val
ask := n > 1 end begin if

count = 1 do skip else not true do put ( 'a' , last ) end ; while
count in members ( 1 , 2 ) do rows [ 1 ] . left := - count mod 3 + 2 * ( 4 - 1 ) end ;
when ask ( 1 ) and last <> 'x' do more end ;
cobegin 1 do skip also 2
do display ( 'b' ) end
end";

/// A program that shows one character, as it is printed.
const LETTER: &str = "proc main ( proc display ( value : char ) ) begin display ( 'a' ) end";

/// The depth of the program that a text is read as, and what is printed for it.
fn printed(rt: &impl Abort, alloc: Global, text: &str) -> (u32, Vec<u8>) {
    let symbols = scan(alloc, text.as_bytes()).expect(rt, "symbols");
    let tree = parse(alloc, &symbols).expect(rt, "a program");
    (depth(&tree), print(alloc, &tree).expect(rt, "memory"))
}

#[test]
fn a_printed_program_is_read_again(rt: HostRuntime) {
    // The levels of the last one: `proc`, its parenthesis, the `proc` in it, and the parenthesis of that.
    for (text, wanted, levels) in [
        (TEXT, PRINTED, 0),
        (PRINTED, PRINTED, 0),
        (LETTER, LETTER, 4),
    ] {
        let (found, shown) = printed(&rt, rt.alloc(), text);
        assert!(rt; shown.as_slice() == wanted.as_bytes(), "{text}");
        assert!(rt; levels == 0 || found == levels, "{text}");
    }
}

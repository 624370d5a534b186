//! What several parsing functions end with.

/// `{ separator item }`, and the marks behind it. The last argument reads one item, behind the marks of this name, and where
/// none is there the function stops. The list is in this memory.
#[macro_export]
macro_rules! separated {
    ($alloc:expr, $marks:expr, $separator:ident => |$behind:ident| $read:expr) => {{
        let mut items = Vec::new($alloc);
        let mut rest = $marks;
        while let Some((_, $behind)) = $crate::eat(rest, &edi_lex::Symbol::$separator) {
            let (item, further) = $read?;
            items.push(item)?;
            rest = further;
        }
        Ok((edi_tree::Sequence::from_vec(items), rest))
    }};
}

/// The text of this kind that must stand here, a name or a string, as the tree of the same name, and the marks behind it.
#[macro_export]
macro_rules! text_here {
    ($alloc:expr, $marks:expr, $kind:ident) => {{
        let Some((first, rest)) = $marks.split_first() else {
            return Err($crate::Stop::Fault($marks));
        };
        let edi_lex::Symbol::$kind(text) = &first.symbol else {
            return Err($crate::Stop::Fault($marks));
        };
        let text = edi_lex::Text::from_slice($alloc, text.as_slice())?;
        let line = first.line;
        Ok((edi_tree::$kind { text, line }, rest))
    }};
}

/// What the parsing function of the symbol in front gives; where none of these symbols is, that of a test, behind a bar, which
/// holds; and where none does, the last one.
#[macro_export]
macro_rules! by_front {
    (
        $alloc:expr, $marks:expr, $level:expr,
        $($symbol:ident => $parse:ident,)*
        $(| $test:ident => $tested:ident,)*
        _ => $other:ident
    ) => {{
        $(
            if $crate::at($marks, &edi_lex::Symbol::$symbol) {
                return $parse($alloc, $marks, $level);
            }
        )*
        $(
            if $test($marks) {
                return $tested($alloc, $marks, $level);
            }
        )*
        $other($alloc, $marks, $level)
    }};
}

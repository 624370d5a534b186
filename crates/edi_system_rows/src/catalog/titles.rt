//! What is a title.

use edi_catalog::Title;
use std::test::Fail;

// Whether the characters are a title of these bytes, or none.
fn is_spelled(characters: &[u8], expected: Option<&[u8]>) -> bool {
    match Title::new(characters) {
        Some(title) => expected == Some(title.bytes()),
        None => expected.is_none(),
    }
}

#[test]
fn titles_are_spelled(rt: HostRuntime) -> Result<(), Fail> {
    let cases: [(&[u8], Option<&[u8]>); 12] = [
        (b"a", Some(b"a")),
        (b"a   ", Some(b"a")),
        (b"Ab_9", Some(b"Ab_9")),
        (b"", None),
        (b"   ", None),
        (b" a", None),
        (b"9a", None),
        (b"_a", None),
        (b"a b", None),
        (b"a-b", None),
        (
            b"abcdefghijklmnopqrstuvwx",
            Some(b"abcdefghijklmnopqrstuvwx"),
        ),
        (b"abcdefghijklmnopqrstuvwxy", None),
    ];
    for (characters, expected) in cases {
        assert!(rt; is_spelled(characters, expected), "{characters:?}");
    }
    Ok(())
}

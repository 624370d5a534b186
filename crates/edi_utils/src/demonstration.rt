//! The text of the demonstration.

ghost use Rattle.std.specs.Prelude.{◌≡◌, ◌≤◌, ◌++◌, IfOk, OnOk};
ghost use Rattle.edi_utils.specs.Demo.{demo_calls, demo_procedure, demo_text, next_call, numbered};

use itoa::Buffer;
use std::alloc::{AllocError, Global};

// Puts the declaration of procedure `i` behind bytes.
fn put_procedure(bytes: &mut Vec<u8>, i: u32) -> Result<(), AllocError>
    ensures { OnOk result (bytes.new.items ≡ bytes.old.items ++ demo_procedure i) }
{
    let mut buffer = Buffer::new();
    bytes.extend_from_slice(b"proc p")?;
    bytes.extend_from_slice(buffer.format(i).as_bytes())?;
    bytes.extend_from_slice(b"\nbegin when x < 32767 do x := x + 1 end end\n")?;
    Ok(())
}

// Puts the declarations of n procedures behind bytes.
fn put_procedures(bytes: &mut Vec<u8>, n: u32) -> Result<(), AllocError>
    requires { n ≤ 1000 }
    ensures { OnOk result (bytes.new.items ≡ bytes.old.items ++ numbered demo_procedure 1 n) }
{
    for before in 0..n {
        put_procedure(bytes, before + 1)?;
    }
    Ok(())
}

// Puts the call of procedure `i` behind that of another.
fn put_call(bytes: &mut Vec<u8>, i: u32) -> Result<(), AllocError>
    ensures { OnOk result (bytes.new.items ≡ bytes.old.items ++ next_call i) }
{
    let mut buffer = Buffer::new();
    bytes.extend_from_slice(b"; p")?;
    bytes.extend_from_slice(buffer.format(i).as_bytes())?;
    Ok(())
}

// Puts the calls of n procedures behind bytes.
fn put_calls(bytes: &mut Vec<u8>, n: u32) -> Result<(), AllocError>
    requires some { 1 ≤ n }
    requires many { n ≤ 1000 }
    ensures { OnOk result (bytes.new.items ≡ bytes.old.items ++ demo_calls n) }
{
    bytes.extend_from_slice(b"p1")?;
    for before in 1..n {
        put_call(bytes, before + 1)?;
    }
    Ok(())
}

/// The text of the demonstration with `n` procedures, 1 to 1000. Two processes call all of them, and each call counts one
/// variable up in a `when`. It has 19n + 13 symbols, and its run takes 6n + 5 turns, whatever the choices.
pub fn demo(alloc: Global, n: u32) -> Result<Vec<u8>, AllocError>
    requires some { 1 ≤ n }
    requires many { n ≤ 1000 }
    ensures exact { IfOk result (λ text. text.items ≡ demo_text n) }
{
    let mut text = Vec::from_slice(alloc, b"proc main\nvar x: int\n")?;
    put_procedures(&mut text, n)?;
    text.extend_from_slice(b"begin cobegin\n1 do ")?;
    put_calls(&mut text, n)?;
    text.extend_from_slice(b"\nalso 2 do ")?;
    put_calls(&mut text, n)?;
    text.extend_from_slice(b"\nend end\n")?;
    Ok(text)
}

//! The fields of a header that speak of the code.

ghost use Rattle.std.specs.Prelude.{◌≡◌, ◌<◌, ◌≤◌, ◌^◌, [], length};
ghost use Rattle.edi_target.specs.Check.{fields_fault, numbers_fault};

use crate::code_fault::CodeFault;

/// The most words that a code has.
const WORDS: usize = 4_194_304;

/// The most parameters that a program has, and the greatest number of a call.
const CALLS: usize = 10;

/// The first field that breaks its rule, of a code of `count` words.
pub fn header_fault(count: usize, entry: u32, calls: &[u8]) -> Option<CodeFault>
    requires size { count < 2 ^ 32 }
    requires number { length calls.now ≤ 255 }
    ensures first { result ≡ fields_fault count entry (length calls.now) calls.now }
{
    if count == 0 || count > WORDS {
        return Some(CodeFault::Header {
            at: 4,
            found: (count / 0x100_0000) as u8,
        });
    }
    if entry as usize >= count {
        return Some(CodeFault::Header {
            at: 8,
            found: (entry / 0x100_0000) as u8,
        });
    }
    if calls.len() > CALLS {
        return Some(CodeFault::Header {
            at: 12,
            found: calls.len() as u8,
        });
    }
    call_fault(calls)
}

// The first call number that is none, or that stands there twice.
fn call_fault(calls: &[u8]) -> Option<CodeFault>
    requires { length calls.now ≤ 10 }
    ensures { result ≡ numbers_fault [] 13 calls.now }
{
    for (i, number) in calls.iter().enumerate() {
        if !is_new_call(*number, &calls[..i]) {
            return Some(CodeFault::Header {
                at: 13 + i as u32,
                found: *number,
            });
        }
    }
    None
}

ghost use Rattle.std.specs.Prelude.{◌&&◌, ◌==◌, nat_le, not};
ghost use Rattle.std.specs.List.{list_any};

// Whether this is the number of a call, and none of those before it.
fn is_new_call(number: u8, before: &[u8]) -> bool
    ensures { result ≡ (nat_le 1 number && nat_le number 10 && not (list_any (λ m. m == number) before.now)) }
{
    1 <= number && usize::from(number) <= CALLS && !before.contains(&number)
}

//! Where in a text no piece stands.

ghost use Rattle.std.specs.Prelude.{◌≡◌};
ghost use Rattle.edi_explain.specs.told.Scanned.{HasStray};
ghost use Rattle.edi_explain.specs.told.Stray as spec;

use crate::places::{Cut, cut_of};
use crate::told::source::back_of;

/// The first place of a text, in bytes from its front, at which no piece stands.
pub(crate) fn stray_of(bytes: &[u8]) -> usize
    requires has { HasStray bytes.now }
    ensures exact { result ≡ spec.stray_of bytes.now }
{
    let mut at: usize = 0;
    while at < bytes.len() {
        match cut_of(bytes[at], back_of(bytes, at + 1)) {
            Cut::Space(more) => {
                at = at + more + 1;
            }
            Cut::Symbol(more) => {
                at = at + more + 1;
            }
            Cut::Stray => return at,
        }
    }
    at
}

//! What the causes of failures are called.

ghost use Rattle.std.specs.Prelude.{◌≡◌, ◌≤◌, length};
ghost use Rattle.edi_texts.specs.Lines as lines;

use edi_calls::Cause;

/// The text of a cause, as `variable limit`.
pub fn cause_text(cause: Cause) -> &'static str
    ensures exact { result.now ≡ lines.cause_text cause }
    ensures short { length result.now ≤ 32 }
{
    match cause {
        Cause::Range => "range",
        Cause::VariableLimit => "variable limit",
        Cause::ProcessLimit => "process limit",
        Cause::Held => "held",
        Cause::NoFile => "no file",
        Cause::FileLimit => "file limit",
        Cause::Halt => "halt",
    }
}

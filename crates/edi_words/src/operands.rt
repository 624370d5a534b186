//! The operands of a command, where there are as many as it takes.

ghost use Rattle.std.specs.Prelude.{◌≡◌, option_map};
ghost use Rattle.edi_words.specs.Words as words;
ghost use Rattle.edi_words.specs.View.{texts};

/// The operand where there is just one.
pub(crate) fn one_operand<'a>(operands: &[&'a str]) -> Option<&'a str>
    ensures { option_map (λ text. text.now) result ≡ words.one_operand (texts operands.now) }
{
    match *operands {
        [one] => Some(one),
        _ => None,
    }
}

/// The operands where there are two.
pub(crate) fn two_operands<'a>(operands: &[&'a str]) -> Option<(&'a str, &'a str)>
    ensures { option_map (λ p. (p.0.now, p.1.now)) result ≡ words.two_operands (texts operands.now) }
{
    match *operands {
        [one, two] => Some((one, two)),
        _ => None,
    }
}

/// The operands where there are three.
pub(crate) fn three_operands<'a>(operands: &[&'a str]) -> Option<(&'a str, &'a str, &'a str)>
    ensures { option_map (λ p. (p.0.now, p.1.now, p.2.now)) result ≡ words.three_operands (texts operands.now) }
{
    match *operands {
        [one, two, three] => Some((one, two, three)),
        _ => None,
    }
}

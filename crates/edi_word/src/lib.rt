//! The operators of Edison's types (Brinch Hansen, "The Design of Edison", Software: Practice and Experience 11, 1981):
//! arithmetic of `int`, whose values are -32768 to 32767, and sets of ordinals 0 to 127. A value takes one word of 16
//! bits, and a set eight.
#![tactic(auto)]

ghost use Rattle.std.specs.Prelude.{◌≡◌};
ghost use Rattle.edi_word.specs.Integers.{
  int_sum,
  int_difference,
  int_product,
  int_quotient,
  int_remainder,
};
ghost use Rattle.edi_word.specs.Words.{
  WordsStandForInt,
  WordsFollow,
  word_add,
  word_sub,
  word_mul,
  word_div,
  word_modulo,
};

mod members;

pub use members::{Members, words_are_members};

/// The sum, or `None` where it leaves -32768 to 32767.
pub fn add(a: i16, b: i16) -> Option<i16>
    ensures exact { result ≡ int_sum a b }
{
    a.checked_add(b)
}

/// The difference, or `None` where it leaves -32768 to 32767.
pub fn sub(a: i16, b: i16) -> Option<i16>
    ensures exact { result ≡ int_difference a b }
{
    a.checked_sub(b)
}

/// The product, or `None` where it leaves -32768 to 32767.
pub fn mul(a: i16, b: i16) -> Option<i16>
    ensures exact { result ≡ int_product a b }
{
    a.checked_mul(b)
}

/// The quotient, truncated toward zero, or `None` where the divisor is 0 or -32768 is divided by -1.
pub fn div(a: i16, b: i16) -> Option<i16>
    ensures exact { result ≡ int_quotient a b }
{
    a.checked_div(b)
}

/// The remainder `a - (a div b) * b`, which has the sign of `a`, or `None` where `div` gives none.
pub fn modulo(a: i16, b: i16) -> Option<i16>
    ensures exact { result ≡ int_remainder a b }
{
    a.checked_rem(b)
}

/// The law that 16-bit words in two's complement stand for the values of `int` one to one, and that the arithmetic of
/// words gives the word of what the arithmetic of `int` gives. It does nothing.
pub fn words_follow_int()
    ensures one_to_one { WordsStandForInt }
    ensures sum { WordsFollow int_sum word_add }
    ensures difference { WordsFollow int_difference word_sub }
    ensures product { WordsFollow int_product word_mul }
    ensures quotient { WordsFollow int_quotient word_div }
    ensures remainder { WordsFollow int_remainder word_modulo }
{}

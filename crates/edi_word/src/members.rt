//! Sets of ordinals 0 to 127.

ghost use Rattle.std.specs.Prelude.{◌≡◌, ◌≤◌, []};
ghost use Rattle.edi_word.specs.Sets.{set_has_int, with_member, set_union, set_minus, set_meet, words_union, words_minus, words_meet};
ghost use Rattle.edi_word.specs.SetWords.{IsOrdinalSet, members_of, words_of_members, ViewsAreOne, ViewsAgree, ViewsAgreeOnWith, ViewsAgreeOnHas};

use std::array;
use std::marker::Model;

/// A set of ordinals 0 to 127, which contracts see as the increasing list of its members. It is kept in eight
/// words: member `n` is bit `n % 16` of word `n / 16`, bit 0 the least.
#[derive(Clone, Copy, PartialEq, Eq, Debug)]
pub struct Members([u16; 8]);

impl Model for Members {
    ghost use Rattle.std.specs.Prelude.{ℕ, List};
    ghost use Rattle.edi_word.specs.SetWords.{members_of, words_of_members, AreSetWords};
    ghost use Rattle.edi_word.specs.SetViews.{words_of_members-members_of};

    ghost Value = { List ℕ };

    ghost view = { λ set. members_of set.0 };

    ghost invariant = { λ set. AreSetWords set.0 };

    ghost inverse = { λ members. record { 0 = words_of_members members } };

    ghost inverse_ok = { λ set words i. record { 0 = words_of_members-members_of set.0 words i } };
}

impl Members {
    /// The set with no member.
    pub fn empty() -> Members
        ensures exact { result ≡ [] }
    {
        Members([0; 8])
    }

    /// The set that these eight words are.
    pub fn from_words(words: [u16; 8]) -> Members
        ensures exact { result ≡ members_of words }
    {
        Members(words)
    }

    /// The eight words of the set.
    pub fn words(&self) -> [u16; 8]
        ensures exact { result ≡ words_of_members self.now }
        ensures same_set { members_of result ≡ self.now }
        ensures increasing { IsOrdinalSet self.now }
    {
        self.0
    }

    /// The set with `n`, which is at most 127, as a member.
    pub fn with(&self, n: u8) -> Members
        requires ordinal { n ≤ 127 }
        ensures exact { result ≡ with_member self.now n }
    {
        let mut words = self.0;
        words[usize::from(n / 16)] |= 1 << (n % 16);
        Members(words)
    }

    /// Whether `n` is a member. No number outside 0 to 127 is one.
    pub fn has(&self, n: i16) -> bool
        ensures exact { result ≡ set_has_int self.now n }
    {
        if n < 0 || n > 127 {
            return false;
        }
        let n = n.cast_unsigned();
        (self.0[usize::from(n / 16)] >> (n % 16)) & 1 == 1
    }

    /// The ordinals that are members of one set or the other.
    pub fn union(&self, other: &Members) -> Members
        ensures exact { result ≡ set_union self.now other.now }
    {
        let (words, others) = (self.0, other.0);
        Members(array::from_fn(|i| words[i] | others[i]))
    }

    /// The members of this set that are not members of the other.
    pub fn minus(&self, other: &Members) -> Members
        ensures exact { result ≡ set_minus self.now other.now }
    {
        let (words, others) = (self.0, other.0);
        Members(array::from_fn(|i| words[i] & !others[i]))
    }

    /// The ordinals that are members of both sets.
    pub fn meet(&self, other: &Members) -> Members
        ensures exact { result ≡ set_meet self.now other.now }
    {
        let (words, others) = (self.0, other.0);
        Members(array::from_fn(|i| words[i] & others[i]))
    }
}

/// The law that the eight words of a set and the list of its members tell the same: each is found from the other, and
/// what is done to the words is done to the members. It does nothing.
pub fn words_are_members()
    ensures one_to_one { ViewsAreOne }
    ensures union { ViewsAgree words_union set_union }
    ensures minus { ViewsAgree words_minus set_minus }
    ensures meet { ViewsAgree words_meet set_meet }
    ensures with { ViewsAgreeOnWith }
    ensures has { ViewsAgreeOnHas }
{}

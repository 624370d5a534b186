//! The choices that a run draws.

ghost use Rattle.std.specs.Prelude.{◌≡◌, ◌+◌, ◌-◌, ◌^◌, ◌<◌, ◌≤◌, [], ◌∷◌, ◌++◌, length, min, IfOk};
ghost use Rattle.std.specs.Vec.{vec_capacity};
ghost use Rattle.edi_calls.specs.Choice.{listed, seeded, choice, first_choices};
ghost use Rattle.edi_trace.specs.Drawn.{most_kept};
ghost use Rattle.edi_trace.specs.Kept.{source_of, IsAt};

use std::alloc::{AllocError, Global};
use std::marker::Model;

/// The number of choices that are kept.
const MOST_KEPT: usize = 65_536;

/// Where choices come from.
#[derive(Drop)]
enum Source {
    /// A list.
    List(Vec<u8>),
    /// A generator: the number that it began with, and its present one.
    Seed(u16, u16),
}

impl Source {
    /// The next choice, after so many.
    #[tactic(auto, using(crate::proofs::Draws::generated_more))]
    fn next(&mut self, drawn: u64) -> u8
        ensures same { source_of self.new ≡ source_of self.old }
        ensures moved { drawn < 2 ^ 64 - 1 → IsAt self.old drawn → IsAt self.new (drawn + 1) }
        ensures exact { drawn < 2 ^ 64 - 1 → IsAt self.old drawn → result ≡ choice (source_of self.old) (drawn + 1) }
    {
        match self {
            Source::List(values) => values.get(drawn as usize).copied().unwrap_or(0),
            Source::Seed(_, state) => {
                *state = ((25_173 * u32::from(*state) + 13_849) % 65_536) as u16;
                (*state / 256) as u8
            }
        }
    }
}

/// Keeps a choice, unless 65,536 are kept already.
fn keep(used: &mut Vec<u8>, choice: u8)
    requires { most_kept ≤ vec_capacity used.old }
    ensures more { length used.old.items < most_kept → used.new.items ≡ used.old.items ++ choice ∷ [] }
    ensures full { most_kept ≤ length used.old.items → used.new.items ≡ used.old.items }
    ensures room { vec_capacity used.new ≡ vec_capacity used.old }
{
    if used.len() < MOST_KEPT {
        used.push_reserved(choice);
    }
}

/// Choices, each a number 0 to 255, that are drawn one after another. The first 65,536 that were drawn are kept; the
/// room for them is made at the start, so that drawing takes no memory.
#[derive(Drop)]
pub struct Choices {
    source: Source,
    drawn: u64,
    used: Vec<u8>,
}

impl Model for Choices {
    ghost use Rattle.edi_trace.specs.Drawn.{Drawn};

    ghost Value = { Drawn };

    ghost use Rattle.edi_trace.specs.Kept.{drawn_of, ChoicesAreKept};

    ghost view = { drawn_of };

    ghost invariant = { ChoicesAreKept };
}

impl Choices {
    /// The choices of a list, and after its end zeros.
    pub fn list(alloc: Global, values: &[u8]) -> Result<Choices, AllocError>
        ensures { IfOk result (λ choices. choices ≡ record { source = listed values.now; drawn = 0 }) }
    {
        Ok(Choices {
            source: Source::List(Vec::from_slice(alloc, values)?),
            drawn: 0,
            used: Vec::with_capacity(alloc, MOST_KEPT)?,
        })
    }

    /// The choices without end that a number generates: from x the next number is 25173 x + 13849 modulo 65536, and
    /// the choice is that number divided by 256.
    pub fn seeded(alloc: Global, n: u16) -> Result<Choices, AllocError>
        ensures { IfOk result (λ choices. choices ≡ record { source = seeded n; drawn = 0 }) }
    {
        Ok(Choices {
            source: Source::Seed(n, n),
            drawn: 0,
            used: Vec::with_capacity(alloc, MOST_KEPT)?,
        })
    }

    /// Draws the next choice.
    pub fn draw(&mut self) -> u8
        ensures drawn { self.new.drawn ≡ min (self.old.drawn + 1) (2 ^ 64 - 1) }
        ensures same { self.new.source ≡ self.old.source }
        ensures exact { self.old.drawn < 2 ^ 64 - 1 → result ≡ choice self.old.source (self.old.drawn + 1) }
    {
        let choice = self.source.next(self.drawn);
        keep(&mut self.used, choice);
        self.drawn = self.drawn.saturating_add(1);
        choice
    }

    /// The first choices that were drawn, at most 65,536, zeros after the end of a list included.
    pub fn used(&self) -> &[u8]
        ensures { result.now ≡ first_choices self.now.source (min self.now.drawn most_kept) }
    {
        &self.used
    }

    /// How many choices were drawn. The number stands still at `u64::MAX`.
    pub fn drawn(&self) -> u64
        ensures { result ≡ self.now.drawn }
    {
        self.drawn
    }
}

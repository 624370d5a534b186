//! Who is told numbers of states while a search goes on.

ghost use Rattle.std.specs.Prelude.{◌≡◌, ◌++◌, ◌∷◌, [], List, ℕ, Option};
ghost use Rattle.edi_told.specs.Told.{WhereTold};

/// Who is told numbers of states while a search goes on.
pub trait Watcher {
    /// The numbers that it has been told, if that is known.
    ghost seen: { Self → Option (List ℕ) };

    /// Takes one number more. What the numbers are is said by who tells them: `explore`.
    fn tell(&mut self, states: usize)
        ensures { WhereTold (seen self.old) (seen self.new) (λ before now. now ≡ before ++ states ∷ []) };
}

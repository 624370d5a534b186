//! What the blocks of a drive may be between two flushes.

ghost use Rattle.std.specs.Prelude.{◌≡◌, ◌⊎◌, ℕ, Bool, false, List, slice_get, slice_set};
ghost use Rattle.edi_disk.specs.Since.{Between, only};

/// A block that was not put since a flush is as it was at that flush. Where one block alone was put, the drive
/// has the blocks of that flush, or these with the one.
pub fn between_flushes()
    ensures unput { (base : List (List ℕ)) (was_put : ℕ → List ℕ → Bool) (blocks : List (List ℕ)) (n : ℕ) → Between base was_put blocks
        → ((block : List ℕ) → was_put n block ≡ false) → slice_get blocks n ≡ slice_get base n }
    ensures one_put { (base : List (List ℕ)) (blocks : List (List ℕ)) (n : ℕ) (bytes : List ℕ) → Between base (only n bytes) blocks → (blocks ≡ base)
        ⊎ (blocks ≡ slice_set base n bytes) }
{}

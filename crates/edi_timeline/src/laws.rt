//! Laws of timelines.

ghost use Rattle.std.specs.Prelude.{◌≡◌, ◌≤◌, ◌<◌, ℕ, List, [], ◌∷◌, ◌++◌, ◌&&◌, not, true, length};
ghost use Rattle.std.specs.List.{list_all};
ghost use Rattle.edi_calls.specs.SoundState.{is_byte};
ghost use Rattle.edi_timeline.specs.Stints.{Stint, ending_by, ending_of};
ghost use Rattle.edi_timeline.specs.Text.{characters_text, text_of};
ghost use Rattle.edi_timeline.specs.Picture.{picture_of};
ghost use Rattle.edi_timeline.specs.Timelines.{told_of};
ghost use Rattle.edi_timeline.specs.Adding.{SeatFits, added, counted, end_of, ends_run, is_going, said_in, stint_after};
ghost use Rattle.edi_timeline.specs.declared.entry.Seat.{Seat};
ghost use Rattle.edi_timeline.specs.declared.entry.Came.{Came};
ghost use Rattle.edi_timeline.specs.declared.entry.Said.{Said};

/// What a timeline keeps of the stints of a run tells the whole text and the whole picture.
pub fn timelines_are_whole()
    ensures text { (xs : List Stint) → text_of (told_of xs).count (told_of xs).ending (told_of xs).stints ≡ text_of (length xs) (ending_of xs) xs }
    ensures picture { (xs : List Stint) → picture_of (told_of xs).count (told_of xs).ending (told_of xs).stints ≡ picture_of (length xs) (ending_of xs) xs }
{}

/// A timeline that tells these stints tells, with a stint more, those and the one that comes after them. If it has 100,000 already, it tells with one
/// more that is counted those and any one after them that ends the run so, or does not end it.
///
/// What `Timeline::add` asks of what is told follows, where it is true of the stints themselves.
pub fn timelines_grow()
    ensures adds { (xs : List Stint) (seat : Seat) (came : Came) (used : ℕ) (said : Said) → length xs < 100000 → said.many ≤ 7 →
        added (told_of xs) seat came used said ≡ told_of (xs ++ stint_after xs seat (end_of came) used (said_in said) ∷ []) }
    ensures counts { (xs : List Stint) (x : Stint) → 100000 ≤ length xs → counted (told_of xs) (ending_by x.end) ≡ told_of (xs ++ x ∷ []) }
    ensures going { (xs : List Stint) → is_going xs ≡ true → is_going (told_of xs).stints ≡ true }
    ensures goes { (xs : List Stint) (x : Stint) → is_going (xs ++ x ∷ []) ≡ (is_going xs && not (ends_run x.end)) }
    ensures seats { (xs : List Stint) (seat : Seat) (came : Came) → length xs < 100000 → SeatFits xs seat came → SeatFits (told_of xs).stints seat came }
{}

/// The characters that were shown are read from a line in one way.
pub fn characters_are_read_in_one_way()
    ensures one { (xs ys : List ℕ) → list_all is_byte xs ≡ true → list_all is_byte ys ≡ true → characters_text xs ≡ characters_text ys → xs ≡ ys }
{}

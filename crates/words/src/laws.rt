//! Laws of the words. Each is a theorem: a function that does nothing, whose clause says what holds.
ghost use Rattle.std.specs.Prelude.{◌≡◌, ℕ, List};
ghost use Rattle.words.specs.Words.{Asks};
ghost use Rattle.words.specs.Tasks.{Task};

/// Words ask for one thing: a command with its settings, or the usage text.
pub fn words_ask_one_thing()
    ensures { (words : List (List ℕ)) (t u : Task) → Asks words t → Asks words u → t ≡ u }
{}

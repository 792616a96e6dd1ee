//! Laws of the turns. Each is a theorem: a function that does nothing, whose clause says what holds.
ghost use Rattle.std.specs.Prelude.{◌≡◌, List, ℕ};
ghost use Rattle.dialogue.specs.declared.command.Command.{Command as AnyCommand};
ghost use Rattle.generator.specs.Turns.{IsTurn};

/// A turn has one command, and leaves one state.
pub fn turn_is_one()
    ensures { (name : List ℕ) (s : ℕ) (c d : AnyCommand) (m n : ℕ)
        → IsTurn name s c m → IsTurn name s d n → (c ≡ d) × (m ≡ n) }
{}

//! The laws of reading: theorems, which are functions whose clauses say what holds.
ghost use Rattle.std.specs.Prelude.{◌≡◌, ◌≢◌, ℕ, List, ◌++◌, Option, None, Result, Ok};
ghost use Rattle.dialogue.specs.declared.command.Command.{Command as AnyCommand};
ghost use Rattle.commands.specs.Lines.{IsWanted, ReadsCommand};
ghost use Rattle.commands.specs.declared.bad.BadText.{BadText as AnyBad};
ghost use Rattle.vocabulary.specs.Verbs.{verb_text};
ghost use Rattle.vocabulary.specs.declared.verb.Verb.{Verb as AnyVerb};

use qroot2::text_is_of_one_number;

/// A text is read as one command, or it is none, or it is wrong in one place.
pub fn reading_is_one()
    ensures { (text : List ℕ) (answer other : Result (Option AnyCommand) AnyBad)
        → ReadsCommand text answer → ReadsCommand text other → answer ≡ other }
{
    text_is_of_one_number();
}

/// So many lines and no others belong to the first line of a command.
pub fn wanted_is_one()
    ensures { (first : List ℕ) (count other : ℕ)
        → IsWanted first count → IsWanted first other → count ≡ other }
{
    text_is_of_one_number();
}

/// A text that begins with the verb of a command is read as a command, or as what is wrong with it. It
/// is no blank line and no comment.
pub fn a_verb_is_never_silent()
    ensures { (verb : AnyVerb) (behind : List ℕ) (answer : Result (Option AnyCommand) AnyBad)
        → ReadsCommand (verb_text verb ++ behind) answer → answer ≢ Ok None }
{}

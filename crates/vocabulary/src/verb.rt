//! The first word of a command.
ghost use Rattle.std.specs.Prelude.{◌≡◌, ◌≢◌, MatchOption};
ghost use Rattle.vocabulary.specs.Verbs.{verb_text, is_change};

/// What is to be done, as the first word of a command says it.
#[derive(Clone, Copy, Debug, PartialEq, Eq)]
pub enum Verb {
    New,
    List,
    Show,
    Faults,
    Vertex,
    Pattern,
    Cp,
    Fold,
    Draw,
    Erase,
    Recolour,
    Flip,
    Extend,
    Bisect,
    Mirror,
    RabbitEar,
    Import,
    Undo,
    Redo,
}

impl Verb {
    /// The verb that the bytes spell, or None exactly where they spell none.
    pub fn read(bytes: &[u8]) -> Option<Verb>
        ensures { MatchOption result ((verb : Verb) → verb_text verb ≢ bytes.now)
            (λ verb. verb_text verb ≡ bytes.now) }
    {
        match bytes {
            b"new" => Some(Verb::New),
            b"list" => Some(Verb::List),
            b"show" => Some(Verb::Show),
            b"faults" => Some(Verb::Faults),
            b"vertex" => Some(Verb::Vertex),
            b"pattern" => Some(Verb::Pattern),
            b"cp" => Some(Verb::Cp),
            b"fold" => Some(Verb::Fold),
            b"draw" => Some(Verb::Draw),
            b"erase" => Some(Verb::Erase),
            b"recolour" => Some(Verb::Recolour),
            b"flip" => Some(Verb::Flip),
            b"extend" => Some(Verb::Extend),
            b"bisect" => Some(Verb::Bisect),
            b"mirror" => Some(Verb::Mirror),
            b"rabbit-ear" => Some(Verb::RabbitEar),
            b"import" => Some(Verb::Import),
            b"undo" => Some(Verb::Undo),
            b"redo" => Some(Verb::Redo),
            _ => None,
        }
    }

    /// Whether the command changes a project that is there.
    pub fn is_change(self) -> bool
        ensures { result ≡ is_change self }
    {
        match self {
            Verb::New | Verb::List | Verb::Show | Verb::Faults | Verb::Vertex => false,
            Verb::Pattern | Verb::Cp | Verb::Fold => false,
            Verb::Draw | Verb::Erase | Verb::Recolour | Verb::Flip | Verb::Extend => true,
            Verb::Bisect | Verb::Mirror | Verb::RabbitEar | Verb::Import => true,
            Verb::Undo | Verb::Redo => true,
        }
    }
}

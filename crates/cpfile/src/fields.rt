//! The five fields of a line.
ghost use Rattle.std.specs.Prelude.{◌≡◌, ◌≢◌, ◌∷◌, [], Option, IfSome, IsNone, MatchOption, length};
ghost use Rattle.sheet.specs.declared.colour.Colour.{Colour as AnyColour};
ghost use Rattle.cpfile.specs.CpDrawing.{Fields, IsKind};
ghost use Rattle.cpfile.specs.CpAxes.{AreRead};
ghost use Rattle.cpfile.specs.CpWords.{Texts, texts_of, in_order, AreFields, AreSmall};

use decimals::read_decimal;
use lines::Words;
use sheet::Colour;
use std::marker::Model;

/// The type of a line, which is None for a contour, and the coordinates of its ends in units of 10^-12,
/// where those above 10^30 in size are one.
#[derive(Clone, Copy)]
pub(crate) struct Read {
    pub kind: Option<Colour>,
    pub x1: i128,
    pub y1: i128,
    pub x2: i128,
    pub y2: i128,
}

/// The texts of five words.
#[derive(Drop)]
struct Five<'a> {
    kind: &'a [u8],
    x1: &'a [u8],
    y1: &'a [u8],
    x2: &'a [u8],
    y2: &'a [u8],
}

impl<'a> Model for Five<'a> {
    ghost use Rattle.cpfile.specs.CpWords.{Texts};

    ghost Value = { Texts };

    ghost view = { λ s. record {
      kind = s.kind.now;
      x1 = s.x1.now;
      y1 = s.y1.now;
      x2 = s.x2.now;
      y2 = s.y2.now;
    } };
}

/// The fields that the words of a line are, if they are a type and four decimals.
pub(crate) fn fields(words: &mut Words) -> Option<Read>
    ensures some { IfSome result (λ read. (t : Texts) × (f : Fields)
        × (texts_of words.old.words ≡ in_order t) × AreFields t f × AreRead f read) }
    ensures small { IfSome result AreSmall }
    ensures none { IsNone result → (t : Texts) → (f : Fields)
        → texts_of words.old.words ≡ in_order t → ¬ AreFields t f }
{
    let five = five_words(words)?;
    values(&five)
}

/// The words, if they are five.
fn five_words<'a>(words: &mut Words<'a>) -> Option<Five<'a>>
    ensures some { IfSome result (λ t. texts_of words.old.words ≡ in_order t) }
    ensures none { IsNone result → length words.old.words ≢ 5 }
{
    let kind = words.next()?.text;
    let x1 = words.next()?.text;
    let y1 = words.next()?.text;
    let x2 = words.next()?.text;
    let y2 = words.next()?.text;
    if !words.is_empty() {
        return None;
    }
    Some(Five {
        kind,
        x1,
        y1,
        x2,
        y2,
    })
}

/// The fields of these texts.
fn values(five: &Five) -> Option<Read>
    ensures some { IfSome result (λ read. (f : Fields) × AreFields five.now f × AreRead f read) }
    ensures none { IsNone result → (f : Fields) → ¬ AreFields five.now f }
{
    let kind = kind(five.kind)?;
    let x1 = read_decimal(five.x1)?;
    let y1 = read_decimal(five.y1)?;
    let x2 = read_decimal(five.x2)?;
    let y2 = read_decimal(five.y2)?;
    Some(Read {
        kind,
        x1,
        y1,
        x2,
        y2,
    })
}

/// The type of a line.
fn kind(word: &[u8]) -> Option<Option<Colour>>
    ensures { MatchOption result ((k : Option AnyColour) → ¬ IsKind word.now k) (IsKind word.now) }
{
    if word.len() == 1 {
        kind_of(word[0])
    } else {
        None
    }
}

/// The type that one byte is.
fn kind_of(byte: u8) -> Option<Option<Colour>>
    ensures { MatchOption result ((k : Option AnyColour) → ¬ IsKind (byte ∷ []) k) (IsKind (byte ∷ [])) }
{
    match byte {
        b'0' => Some(Some(Colour::A)),
        b'1' => Some(None),
        b'2' => Some(Some(Colour::M)),
        b'3' => Some(Some(Colour::V)),
        b'4' => Some(Some(Colour::A)),
        _ => None,
    }
}

//! One line of native text.
ghost use Rattle.std.specs.Prelude.{◌≡◌, ◌≢◌, ◌⊎◌, ◌∷◌, IfOk, IfErr, IfSome, IsNone, Err, List, ℕ};
ghost use Rattle.sheet.specs.declared.colour.Colour.{Colour as AColour};
ghost use Rattle.pattern.specs.NativeText.{letter};
ghost use Rattle.pattern.specs.NativeReading.{AreHeld};
ghost use Rattle.pattern.specs.NativeLines.{ReadsEnd, both_of, body_text, IsNoBody, IsWideBody};

use super::PatternWhy;
use super::split::split;
use plane::Point;
use qroot2::{NumText, read_num};
use sheet::Colour;

/// What stands on a line: a colour and two ends.
#[derive(Clone, Copy)]
pub(super) struct Line {
    pub(super) colour: Colour,
    pub(super) p: Point,
    pub(super) q: Point,
}

/// The colour and the ends on a line without its line feed.
pub(super) fn read_line(line: &[u8]) -> Result<Line, PatternWhy>
    ensures ok { IfOk result (λ l. (line.now ≡ body_text l.colour l.p l.q) × AreHeld l.p l.q) }
    ensures form { result ≡ Err PatternWhy.Line → IsNoBody line.now }
    ensures range { result ≢ Err PatternWhy.Line → IfErr result (λ _. IsWideBody line.now) }
    ensures only { IfErr result (λ why. (why ≡ PatternWhy.Line) ⊎ (why ≡ PatternWhy.Range)) }
{
    let Some((first, ends)) = letter_and_ends(line) else {
        return Err(PatternWhy::Line);
    };
    let Some(colour) = colour_of(first) else {
        return Err(PatternWhy::Line);
    };
    let Some((from, to)) = split(ends, b' ') else {
        return Err(PatternWhy::Line);
    };
    match both(read_end(from), read_end(to)) {
        Ok(ends) => Ok(Line {
            colour,
            p: ends.0,
            q: ends.1,
        }),
        Err(NumText::Syntax) => Err(PatternWhy::Line),
        Err(NumText::Range) => Err(PatternWhy::Range),
    }
}

/// The first byte of a line whose second is a space, and what stands behind that space.
pub(super) fn letter_and_ends(line: &[u8]) -> Option<(u8, &[u8])>
    ensures some { IfSome result (λ parts. line.now ≡ parts.0 ∷ 32 ∷ parts.1.now) }
    ensures none { IsNone result → (first : ℕ) (ends : List ℕ) → line.now ≢ first ∷ 32 ∷ ends }
{
    match line {
        [first, space, ends @ ..] => {
            if *space == b' ' {
                Some((*first, ends))
            } else {
                None
            }
        }
        _ => None,
    }
}

/// Two answers together: no text goes before out of range.
fn both<T: Copy>(first: Result<T, NumText>, second: Result<T, NumText>) -> Result<(T, T), NumText>
    ensures { result ≡ both_of first second }
{
    match (first, second) {
        (Ok(first), Ok(second)) => Ok((first, second)),
        (Err(NumText::Syntax), _) | (_, Err(NumText::Syntax)) => Err(NumText::Syntax),
        _ => Err(NumText::Range),
    }
}

/// The end that a text spells. No text goes before out of range, whichever number it is.
pub(super) fn read_end(text: &[u8]) -> Result<Point, NumText>
    ensures { ReadsEnd text.now result }
{
    let Some((x, y)) = split(text, b',') else {
        return Err(NumText::Syntax);
    };
    match both(read_num(x), read_num(y)) {
        Ok((x, y)) => Ok(Point { x, y }),
        Err(why) => Err(why),
    }
}

/// The colour of a letter.
pub(super) fn colour_of(byte: u8) -> Option<Colour>
    ensures some { IfSome result (λ c. letter c ≡ byte) }
    ensures none { IsNone result → (c : AColour) → letter c ≢ byte }
{
    match byte {
        b'M' => Some(Colour::M),
        b'V' => Some(Colour::V),
        b'A' => Some(Colour::A),
        _ => None,
    }
}

//! The line of a refused native text.
ghost use Rattle.std.specs.Prelude.{◌≡◌, ◌++◌, OnOk, IfOk};
ghost use Rattle.qroot2.specs.Text.{numeral};
ghost use Rattle.commands.specs.ReplyText.{refused_text};
ghost use Rattle.oriedit.specs.ReplyText.{why_name, bad_cause};

use itoa::Buffer;
use pattern::{PatternBad, PatternWhy};
use std::alloc::{AllocError, Global};

/// The refusal of a native text.
pub fn bad_line(alloc: Global, bad: &PatternBad) -> Result<Vec<u8>, AllocError>
    ensures { IfOk result (λ text. text.items ≡ refused_text (bad_cause bad.now)) }
{
    let mut text = b"refused ".to_vec(alloc)?;
    text.extend_from_slice(name(bad.why))?;
    text.extend_from_slice(b" line ")?;
    put_numeral(&mut text, bad.line)?;
    text.push(b'\n')?;
    Ok(text)
}

/// The decimal digits.
#[tactic(auto, using(qroot2::proofs::callers::Decimals::numeral_decimal))]
fn put_numeral(text: &mut Vec<u8>, number: u64) -> Result<(), AllocError>
    ensures { OnOk result (text.new.items ≡ text.old.items ++ numeral number) }
{
    let mut buffer = Buffer::new();
    text.extend_from_slice(buffer.format(number).as_bytes())
}

/// The name of a cause, as it is written.
fn name(why: PatternWhy) -> &'static [u8]
    ensures { result.now ≡ why_name why }
{
    match why {
        PatternWhy::Line => b"Line",
        PatternWhy::Range => b"Range",
        PatternWhy::Outside => b"Outside",
        PatternWhy::Order => b"Order",
        PatternWhy::NotDirection => b"NotDirection",
        PatternWhy::OnBorder => b"OnBorder",
        PatternWhy::Overlap => b"Overlap",
        PatternWhy::TooMany => b"TooMany",
    }
}

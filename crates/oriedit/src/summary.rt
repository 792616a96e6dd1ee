//! The summary of a run of a generator.
ghost use Rattle.std.specs.Prelude.{◌≡◌, ◌++◌, IfOk, OnOk};
ghost use Rattle.oriedit.specs.Summary.{creases_told as creases_of, sizes_told as sizes_of};
ghost use Rattle.oriedit.specs.Summary.{faults_told as faults_of, told, counted, final_line};
ghost use Rattle.oriedit.specs.Summary.{summary as summary_text};

use crate::tally::Tally;
use dialogue::Reply;
use itoa::Buffer;
use std::alloc::{AllocError, Global};

/// How many vertices and edges a subdivision has.
#[derive(Clone, Copy, Debug, PartialEq, Eq)]
pub(crate) struct Sizes {
    pub(crate) vertices: u64,
    pub(crate) edges: u64,
}

/// What the last replies tell, each where it tells it.
#[derive(Clone, Copy, Debug, PartialEq, Eq)]
pub(crate) struct Last {
    pub(crate) creases: Option<u64>,
    pub(crate) sizes: Option<Sizes>,
    pub(crate) faults: Option<u64>,
}

/// The number of creases of a native text, which has a line for each behind its first one.
pub(crate) fn creases_told(reply: &Reply) -> Option<u64>
    ensures { result ≡ creases_of reply.now }
{
    match reply {
        Reply::Text(text) => {
            let lines = text
                .as_slice()
                .iter()
                .filter(|byte| **byte == b'\n')
                .count();
            Some(lines.saturating_sub(1) as u64)
        }
        _ => None,
    }
}

/// The sizes of a subdivision.
pub(crate) fn sizes_told(reply: &Reply) -> Option<Sizes>
    ensures { result ≡ sizes_of reply.now }
{
    match reply {
        Reply::Shown {
            rev: _,
            subdivision,
        } => Some(Sizes {
            vertices: subdivision.vertices().len() as u64,
            edges: subdivision.edges().len() as u64,
        }),
        _ => None,
    }
}

/// The number of faults that are listed.
pub(crate) fn faults_told(reply: &Reply) -> Option<u64>
    ensures { result ≡ faults_of reply.now }
{
    match reply {
        Reply::Faults { rev: _, list } => Some(list.as_slice().len() as u64),
        _ => None,
    }
}

/// The summary: its six lines.
pub(crate) fn summary(
    alloc: Global,
    seed: u64,
    count: u64,
    tally: &Tally,
    last: &Last,
) -> Result<Vec<u8>, AllocError>
    ensures { IfOk result (λ text. text.items ≡ summary_text seed count tally.now
        (final_line last.now.creases last.now.sizes last.now.faults)) }
{
    let mut text = Vec::new(alloc);
    put(&mut text, b"generate ", seed)?;
    put_line(&mut text, b" ", count)?;
    put_line(&mut text, b"done ", tally.done)?;
    put_line(&mut text, b"refused ", tally.refused)?;
    put_line(&mut text, b"keeper-failed ", tally.failed)?;
    put_wide_line(&mut text, b"faults-seen ", tally.seen)?;
    put_last(&mut text, last)?;
    Ok(text)
}

/// The last line.
fn put_last(text: &mut Vec<u8>, last: &Last) -> Result<(), AllocError>
    ensures { OnOk result (text.new.items ≡ text.old.items
        ++ final_line last.now.creases last.now.sizes last.now.faults) }
{
    let (Some(creases), Some(sizes), Some(faults)) = (last.creases, last.sizes, last.faults) else {
        return text.extend_from_slice(b"final none\n");
    };
    put(text, b"final creases ", creases)?;
    put(text, b" vertices ", sizes.vertices)?;
    put(text, b" edges ", sizes.edges)?;
    put_line(text, b" faults ", faults)
}

/// A word and a number, and the end of their line.
fn put_line(text: &mut Vec<u8>, word: &[u8], number: u64) -> Result<(), AllocError>
    ensures { OnOk result (text.new.items ≡ text.old.items ++ counted word.now number) }
{
    put(text, word, number)?;
    text.push(b'\n')?;
    Ok(())
}

/// A word and a number.
fn put(text: &mut Vec<u8>, word: &[u8], number: u64) -> Result<(), AllocError>
    ensures { OnOk result (text.new.items ≡ text.old.items ++ told word.now number) }
{
    text.extend_from_slice(word)?;
    let mut buffer = Buffer::new();
    text.extend_from_slice(buffer.format(number).as_bytes())
}

/// The same for a number of more than 64 bits.
fn put_wide_line(text: &mut Vec<u8>, word: &[u8], number: u128) -> Result<(), AllocError>
    ensures { OnOk result (text.new.items ≡ text.old.items ++ counted word.now number) }
{
    text.extend_from_slice(word)?;
    let mut buffer = Buffer::new();
    text.extend_from_slice(buffer.format(number).as_bytes())?;
    text.push(b'\n')?;
    Ok(())
}

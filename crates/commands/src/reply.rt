//! What is written for replies.
ghost use Rattle.std.specs.Prelude.{◌≡◌, ◌++◌, codes, length};
ghost use Rattle.ports.specs.Streams.{HasCause, Puts};
ghost use Rattle.commands.specs.Blocks.{Adds};
ghost use Rattle.commands.specs.ReplyText.{reply_text, bad_text, refused_text, cause_text, shown_text};
ghost use Rattle.commands.specs.ReplyText.{shown_line, imported_line, vertex_lines, edge_lines, counted_line};
ghost use Rattle.commands.specs.ReplyText.{numbered_line, fault_lines, name_lines, line_count};

use crate::BadText;
use crate::block::{Block, add, add_all};
use crate::cause::{cause_rest, cause_word};
use crate::digits::{digits, line_feeds};
use crate::report::add_vertex;
use crate::written::add_each;
use dialogue::{Cause, Reply};
use itoa::Buffer;
use judge::Fault;
use ports::{Failed, Sink};
use subdivide::Subdivision;
use vocabulary::Name;

/// Writes a reply. It takes no memory.
///
/// # Errors
///
/// `Failed` where the sink fails. Then a part of the reply from its front may have been written.
#[tactic(auto, using(crate::proofs::Blocks::puts_last))]
pub fn write_reply<W: Sink>(sink: &mut W, reply: &Reply) -> Result<(), Failed>
    ensures bytes { Puts (W.held sink.old) (W.held sink.new) (reply_text reply.now) result }
    ensures cause { HasCause (W.faults sink.old) (W.faults sink.new) result }
    ensures aside { W.aside sink.new ≡ W.aside sink.old }
{
    let mut block = Block::new();
    add_reply(sink, &mut block, reply)?;
    sink.put(block.as_slice())
}

/// Writes why a text is no command. It takes no memory.
///
/// # Errors
///
/// `Failed` where the sink fails. Then a part of the text from its front may have been written.
#[tactic(auto, using(crate::proofs::Blocks::puts_last))]
pub fn write_bad<W: Sink>(sink: &mut W, bad: &BadText) -> Result<(), Failed>
    ensures bytes { Puts (W.held sink.old) (W.held sink.new) (bad_text bad.now) result }
    ensures cause { HasCause (W.faults sink.old) (W.faults sink.new) result }
    ensures aside { W.aside sink.new ≡ W.aside sink.old }
{
    let mut block = Block::new();
    add_bad(sink, &mut block, bad)?;
    sink.put(block.as_slice())
}

fn add_bad<W: Sink>(sink: &mut W, block: &mut Block, bad: &BadText) -> Result<(), Failed>
    ensures bytes { Adds (W.held sink.old) block.old.items (W.held sink.new) block.new.items
        (bad_text bad.now) result }
    ensures cause { HasCause (W.faults sink.old) (W.faults sink.new) result }
    ensures aside { W.aside sink.new ≡ W.aside sink.old }
{
    match bad {
        BadText::Syntax { column } => add_numbered(sink, block, b"syntax", *column),
        BadText::Range { column } => add_numbered(sink, block, b"range", *column),
    }
}

fn add_reply<W: Sink>(sink: &mut W, block: &mut Block, reply: &Reply) -> Result<(), Failed>
    ensures bytes { Adds (W.held sink.old) block.old.items (W.held sink.new) block.new.items
        (reply_text reply.now) result }
    ensures cause { HasCause (W.faults sink.old) (W.faults sink.new) result }
    ensures aside { W.aside sink.new ≡ W.aside sink.old }
{
    match reply {
        Reply::Done { rev } => add_numbered(sink, block, b"done", *rev),
        Reply::Imported {
            rev,
            drawn,
            dropped,
        } => add_imported(sink, block, *rev, *drawn, *dropped),
        Reply::Shown { rev, subdivision } => add_shown(sink, block, *rev, subdivision),
        Reply::Faults { rev, list } => add_faults(sink, block, *rev, list.as_slice()),
        Reply::Vertex { at, report } => add_vertex(sink, block, at, report),
        Reply::Text(text) => add_text(sink, block, text.as_slice()),
        Reply::Names(names) => add_names(sink, block, names.as_slice()),
        Reply::Refused(cause) => add_refusal(sink, block, cause),
        Reply::KeeperFailed => add_all(sink, block, &[b"keeper-failed", b"\n"]),
    }
}

fn add_imported<W: Sink>(
    sink: &mut W,
    block: &mut Block,
    rev: u64,
    drawn: u64,
    dropped: u64,
) -> Result<(), Failed>
    ensures bytes { Adds (W.held sink.old) block.old.items (W.held sink.new) block.new.items
        (imported_line rev drawn dropped) result }
    ensures cause { HasCause (W.faults sink.old) (W.faults sink.new) result }
    ensures aside { W.aside sink.new ≡ W.aside sink.old }
{
    let (mut first, mut second, mut third) = (Buffer::new(), Buffer::new(), Buffer::new());
    add_all(
        sink,
        block,
        &[
            b"imported ",
            digits(&mut first, rev),
            b" ",
            digits(&mut second, drawn),
            b" ",
            digits(&mut third, dropped),
            b"\n",
        ],
    )
}

fn add_shown<W: Sink>(
    sink: &mut W,
    block: &mut Block,
    rev: u64,
    cut: &Subdivision,
) -> Result<(), Failed>
    ensures bytes { Adds (W.held sink.old) block.old.items (W.held sink.new) block.new.items
        (shown_text rev cut.now.vertices cut.now.edges) result }
    ensures cause { HasCause (W.faults sink.old) (W.faults sink.new) result }
    ensures aside { W.aside sink.new ≡ W.aside sink.old }
{
    add_shown_line(sink, block, rev, cut)?;
    add_vertices(sink, block, cut)?;
    add_edges(sink, block, cut)
}

/// The rev, and how many vertices and edges there are.
fn add_shown_line<W: Sink>(
    sink: &mut W,
    block: &mut Block,
    rev: u64,
    cut: &Subdivision,
) -> Result<(), Failed>
    ensures bytes { Adds (W.held sink.old) block.old.items (W.held sink.new) block.new.items
        (shown_line rev (length cut.now.vertices) (length cut.now.edges)) result }
    ensures cause { HasCause (W.faults sink.old) (W.faults sink.new) result }
    ensures aside { W.aside sink.new ≡ W.aside sink.old }
{
    let (mut first, mut second, mut third) = (Buffer::new(), Buffer::new(), Buffer::new());
    add_all(
        sink,
        block,
        &[
            b"shown ",
            digits(&mut first, rev),
            b" ",
            digits(&mut second, cut.vertices().len() as u64),
            b" ",
            digits(&mut third, cut.edges().len() as u64),
            b"\n",
        ],
    )
}

fn add_vertices<W: Sink>(sink: &mut W, block: &mut Block, cut: &Subdivision) -> Result<(), Failed>
    ensures bytes { Adds (W.held sink.old) block.old.items (W.held sink.new) block.new.items
        (vertex_lines cut.now.vertices) result }
    ensures cause { HasCause (W.faults sink.old) (W.faults sink.new) result }
    ensures aside { W.aside sink.new ≡ W.aside sink.old }
{
    add_each(sink, block, cut.vertices())
}

fn add_edges<W: Sink>(sink: &mut W, block: &mut Block, cut: &Subdivision) -> Result<(), Failed>
    ensures bytes { Adds (W.held sink.old) block.old.items (W.held sink.new) block.new.items
        (edge_lines cut.now.edges) result }
    ensures cause { HasCause (W.faults sink.old) (W.faults sink.new) result }
    ensures aside { W.aside sink.new ≡ W.aside sink.old }
{
    add_each(sink, block, cut.edges())
}

fn add_faults<W: Sink>(
    sink: &mut W,
    block: &mut Block,
    rev: u64,
    list: &[Fault],
) -> Result<(), Failed>
    ensures bytes { Adds (W.held sink.old) block.old.items (W.held sink.new) block.new.items
        (counted_line (codes "faults") rev (length list.now) ++ fault_lines list.now) result }
    ensures cause { HasCause (W.faults sink.old) (W.faults sink.new) result }
    ensures aside { W.aside sink.new ≡ W.aside sink.old }
{
    add_counted(sink, block, b"faults", rev, list.len() as u64)?;
    add_each(sink, block, list)
}

fn add_text<W: Sink>(sink: &mut W, block: &mut Block, text: &[u8]) -> Result<(), Failed>
    ensures bytes { Adds (W.held sink.old) block.old.items (W.held sink.new) block.new.items
        (numbered_line (codes "text") (line_count text.now) ++ text.now) result }
    ensures cause { HasCause (W.faults sink.old) (W.faults sink.new) result }
    ensures aside { W.aside sink.new ≡ W.aside sink.old }
{
    add_text_line(sink, block, text)?;
    add(sink, block, text)
}

/// How many lines there are.
fn add_text_line<W: Sink>(sink: &mut W, block: &mut Block, text: &[u8]) -> Result<(), Failed>
    ensures bytes { Adds (W.held sink.old) block.old.items (W.held sink.new) block.new.items
        (numbered_line (codes "text") (line_count text.now)) result }
    ensures cause { HasCause (W.faults sink.old) (W.faults sink.new) result }
    ensures aside { W.aside sink.new ≡ W.aside sink.old }
{
    add_numbered(sink, block, b"text", line_feeds(text) as u64)
}

fn add_names<W: Sink>(sink: &mut W, block: &mut Block, names: &[Name]) -> Result<(), Failed>
    ensures bytes { Adds (W.held sink.old) block.old.items (W.held sink.new) block.new.items
        (numbered_line (codes "names") (length names.now) ++ name_lines names.now) result }
    ensures cause { HasCause (W.faults sink.old) (W.faults sink.new) result }
    ensures aside { W.aside sink.new ≡ W.aside sink.old }
{
    add_numbered(sink, block, b"names", names.len() as u64)?;
    add_each(sink, block, names)
}

fn add_refusal<W: Sink>(sink: &mut W, block: &mut Block, cause: &Cause) -> Result<(), Failed>
    ensures bytes { Adds (W.held sink.old) block.old.items (W.held sink.new) block.new.items
        (refused_text (cause_text cause.now)) result }
    ensures cause { HasCause (W.faults sink.old) (W.faults sink.new) result }
    ensures aside { W.aside sink.new ≡ W.aside sink.old }
{
    let rest = cause_rest(cause);
    add_all(
        sink,
        block,
        &[b"refused ", cause_word(cause), rest.as_slice(), b"\n"],
    )
}

/// A line of a word and a number.
fn add_numbered<W: Sink>(
    sink: &mut W,
    block: &mut Block,
    word: &[u8],
    number: u64,
) -> Result<(), Failed>
    ensures bytes { Adds (W.held sink.old) block.old.items (W.held sink.new) block.new.items
        (numbered_line word.now number) result }
    ensures cause { HasCause (W.faults sink.old) (W.faults sink.new) result }
    ensures aside { W.aside sink.new ≡ W.aside sink.old }
{
    let mut buffer = Buffer::new();
    add_all(
        sink,
        block,
        &[word, b" ", digits(&mut buffer, number), b"\n"],
    )
}

/// A line of a word and two numbers.
fn add_counted<W: Sink>(
    sink: &mut W,
    block: &mut Block,
    word: &[u8],
    rev: u64,
    count: u64,
) -> Result<(), Failed>
    ensures bytes { Adds (W.held sink.old) block.old.items (W.held sink.new) block.new.items
        (counted_line word.now rev count) result }
    ensures cause { HasCause (W.faults sink.old) (W.faults sink.new) result }
    ensures aside { W.aside sink.new ≡ W.aside sink.old }
{
    let (mut first, mut second) = (Buffer::new(), Buffer::new());
    add_all(
        sink,
        block,
        &[
            word,
            b" ",
            digits(&mut first, rev),
            b" ",
            digits(&mut second, count),
            b"\n",
        ],
    )
}

//! What is written for each of several.
ghost use Rattle.std.specs.Prelude.{◌≡◌, ◌≤◌, ◌^◌, ℕ, List, flat_map, length};
ghost use Rattle.ports.specs.Streams.{HasCause};
ghost use Rattle.commands.specs.Blocks.{Adds};
ghost use Rattle.commands.specs.ReplyText.{vertex_line, edge_line, name_line, sector_text, ray_text};

use crate::block::{Block, add_all};
use crate::digits::{digits, digits_len, kind_letter, mark_letter, point_len};
use itoa::Buffer;
use layers::Ray;
use plane::{Point, put_point};
use ports::{Failed, Sink};
use subdivide::Edge;
use vocabulary::Name;

/// What has a text.
pub(crate) trait Written {
    /// The text.
    ghost text: { Self → List ℕ };

    /// Adds the text.
    fn add_to<W: Sink>(&self, sink: &mut W, block: &mut Block) -> Result<(), Failed>
        ensures bytes { Adds (W.held sink.old) block.old.items (W.held sink.new) block.new.items
            (text self.now) result }
        ensures cause { HasCause (W.faults sink.old) (W.faults sink.new) result }
        ensures aside { W.aside sink.new ≡ W.aside sink.old };

    /// How long the text is.
    fn text_len(&self) -> u64
        ensures len { result ≡ length (text self.now) }
        ensures short { result ≤ 1000 };
}

/// Adds the text of each, one after another.
pub(crate) fn add_each<W: Sink, T: Written>(
    sink: &mut W,
    block: &mut Block,
    items: &[T],
) -> Result<(), Failed>
    ensures bytes { Adds (W.held sink.old) block.old.items (W.held sink.new) block.new.items
        (flat_map T.text items.now) result }
    ensures cause { HasCause (W.faults sink.old) (W.faults sink.new) result }
    ensures aside { W.aside sink.new ≡ W.aside sink.old }
{
    for item in items {
        item.add_to(sink, block)?;
    }
    Ok(())
}

/// How long the texts of all are.
pub(crate) fn total_len<T: Written>(items: &[T]) -> u128
    ensures len { result ≡ length (flat_map T.text items.now) }
    ensures small { result ≤ 2 ^ 80 }
{
    let mut total = 0;
    for item in items {
        total += u128::from(item.text_len());
    }
    total
}

/// A vertex has a line.
impl Written for Point {
    ghost text = { vertex_line };

    fn add_to<W: Sink>(&self, sink: &mut W, block: &mut Block) -> Result<(), Failed> {
        add_all(sink, block, &[b"v ", put_point(self).as_slice(), b"\n"])
    }

    fn text_len(&self) -> u64 {
        point_len(self) + 3
    }
}

impl Written for Edge {
    ghost text = { edge_line };

    fn add_to<W: Sink>(&self, sink: &mut W, block: &mut Block) -> Result<(), Failed> {
        let mut from = Buffer::new();
        let mut to = Buffer::new();
        add_all(
            sink,
            block,
            &[
                b"e ",
                digits(&mut from, u64::from(self.from)),
                b" ",
                digits(&mut to, u64::from(self.to)),
                b" ",
                &[kind_letter(self.kind), b'\n'],
            ],
        )
    }

    fn text_len(&self) -> u64 {
        digits_len(u64::from(self.from)) + digits_len(u64::from(self.to)) + 6
    }
}

impl Written for Name {
    ghost text = { name_line };

    fn add_to<W: Sink>(&self, sink: &mut W, block: &mut Block) -> Result<(), Failed> {
        add_all(sink, block, &[self.text().as_bytes(), b"\n"])
    }

    fn text_len(&self) -> u64 {
        self.text().len() as u64 + 1
    }
}

/// A ray has a space, its direction and its mark.
impl Written for Ray {
    ghost text = { ray_text };

    fn add_to<W: Sink>(&self, sink: &mut W, block: &mut Block) -> Result<(), Failed> {
        let mut dir = Buffer::new();
        add_all(
            sink,
            block,
            &[
                b" ",
                digits(&mut dir, u64::from(self.dir.number())),
                &[mark_letter(self.mark)],
            ],
        )
    }

    fn text_len(&self) -> u64 {
        digits_len(u64::from(self.dir.number())) + 2
    }
}

/// The number of a sector stands behind a space.
impl Written for u8 {
    ghost text = { sector_text };

    fn add_to<W: Sink>(&self, sink: &mut W, block: &mut Block) -> Result<(), Failed> {
        let mut number = Buffer::new();
        add_all(sink, block, &[b" ", digits(&mut number, u64::from(*self))])
    }

    fn text_len(&self) -> u64 {
        digits_len(u64::from(*self)) + 1
    }
}

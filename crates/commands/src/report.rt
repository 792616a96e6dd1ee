//! What is said of vertices, as it is written.
ghost use Rattle.std.specs.Prelude.{◌≡◌, ◌++◌, ◌∷◌, []};
ghost use Rattle.ports.specs.Streams.{HasCause};
ghost use Rattle.commands.specs.Blocks.{Adds};
ghost use Rattle.commands.specs.ReplyText.{fault_line, fault_head, why_word as word_of, why_end, verdict_end};
ghost use Rattle.commands.specs.ReplyText.{report_end, vertex_head};

use crate::block::{Block, add, add_all};
use crate::digits::{digits, point_len};
use crate::length::why_len;
use crate::written::{Written, add_each};
use crimp::Run;
use itoa::Buffer;
use judge::{Fault, Report, Verdict, Why};
use layers::Ray;
use plane::{Point, put_point};
use ports::{Failed, Sink};

/// A vertex that does not fold flat has a line.
impl Written for Fault {
    ghost text = { fault_line };

    fn add_to<W: Sink>(&self, sink: &mut W, block: &mut Block) -> Result<(), Failed> {
        add_fault_head(sink, block, self)?;
        add_why_end(sink, block, &self.why)
    }

    fn text_len(&self) -> u64 {
        point_len(&self.at) + why_len(&self.why) + 4
    }
}

fn add_fault_head<W: Sink>(sink: &mut W, block: &mut Block, fault: &Fault) -> Result<(), Failed>
    ensures bytes { Adds (W.held sink.old) block.old.items (W.held sink.new) block.new.items
        (fault_head fault.now) result }
    ensures cause { HasCause (W.faults sink.old) (W.faults sink.new) result }
    ensures aside { W.aside sink.new ≡ W.aside sink.old }
{
    add_all(
        sink,
        block,
        &[
            b"! ",
            why_word(&fault.why),
            b" ",
            put_point(&fault.at).as_slice(),
            b" ",
        ],
    )
}

fn why_word(why: &Why) -> &'static [u8]
    ensures { result.now ≡ word_of why.now }
{
    match why {
        Why::Kawasaki {
            even: _,
            odd: _,
            count: _,
        } => b"kawasaki",
        Why::Maekawa {
            mountains: _,
            valleys: _,
        } => b"maekawa",
        Why::Blocked(_) => b"blocked",
    }
}

/// The words behind the first, up to the end of the line.
fn add_why_end<W: Sink>(sink: &mut W, block: &mut Block, why: &Why) -> Result<(), Failed>
    ensures bytes { Adds (W.held sink.old) block.old.items (W.held sink.new) block.new.items
        (why_end why.now) result }
    ensures cause { HasCause (W.faults sink.old) (W.faults sink.new) result }
    ensures aside { W.aside sink.new ≡ W.aside sink.old }
{
    match why {
        Why::Kawasaki { even, odd, count } => add_sums(sink, block, *even, *odd, *count),
        Why::Maekawa { mountains, valleys } => add_marks(sink, block, *mountains, *valleys),
        Why::Blocked(run) => add_run(sink, block, run),
    }
}

fn add_sums<W: Sink>(
    sink: &mut W,
    block: &mut Block,
    even: u8,
    odd: u8,
    count: u8,
) -> Result<(), Failed>
    ensures bytes { Adds (W.held sink.old) block.old.items (W.held sink.new) block.new.items
        (why_end (Why.Kawasaki even odd count)) result }
    ensures cause { HasCause (W.faults sink.old) (W.faults sink.new) result }
    ensures aside { W.aside sink.new ≡ W.aside sink.old }
{
    let (mut first, mut second, mut third) = (Buffer::new(), Buffer::new(), Buffer::new());
    add_all(
        sink,
        block,
        &[
            b"even ",
            digits(&mut first, u64::from(even)),
            b" odd ",
            digits(&mut second, u64::from(odd)),
            b" rays ",
            digits(&mut third, u64::from(count)),
            b"\n",
        ],
    )
}

fn add_marks<W: Sink>(
    sink: &mut W,
    block: &mut Block,
    mountains: u8,
    valleys: u8,
) -> Result<(), Failed>
    ensures bytes { Adds (W.held sink.old) block.old.items (W.held sink.new) block.new.items
        (why_end (Why.Maekawa mountains valleys)) result }
    ensures cause { HasCause (W.faults sink.old) (W.faults sink.new) result }
    ensures aside { W.aside sink.new ≡ W.aside sink.old }
{
    let (mut first, mut second) = (Buffer::new(), Buffer::new());
    add_all(
        sink,
        block,
        &[
            b"mountains ",
            digits(&mut first, u64::from(mountains)),
            b" valleys ",
            digits(&mut second, u64::from(valleys)),
            b"\n",
        ],
    )
}

fn add_run<W: Sink>(sink: &mut W, block: &mut Block, run: &Run) -> Result<(), Failed>
    ensures bytes { Adds (W.held sink.old) block.old.items (W.held sink.new) block.new.items
        (why_end (Why.Blocked run.now)) result }
    ensures cause { HasCause (W.faults sink.old) (W.faults sink.new) result }
    ensures aside { W.aside sink.new ≡ W.aside sink.old }
{
    let (mut first, mut second) = (Buffer::new(), Buffer::new());
    let (mut third, mut fourth) = (Buffer::new(), Buffer::new());
    add_all(
        sink,
        block,
        &[
            b"from ",
            digits(&mut first, u64::from(run.from.number())),
            b" to ",
            digits(&mut second, u64::from(run.to.number())),
            b" angle ",
            digits(&mut third, u64::from(run.angle)),
            b" count ",
            digits(&mut fourth, u64::from(run.count)),
            b"\n",
        ],
    )
}

/// What is said of a vertex: a line.
pub(crate) fn add_vertex<W: Sink>(
    sink: &mut W,
    block: &mut Block,
    at: &Point,
    report: &Report,
) -> Result<(), Failed>
    ensures bytes { Adds (W.held sink.old) block.old.items (W.held sink.new) block.new.items
        (vertex_head at.now ++ report_end report.now) result }
    ensures cause { HasCause (W.faults sink.old) (W.faults sink.new) result }
    ensures aside { W.aside sink.new ≡ W.aside sink.old }
{
    add_vertex_head(sink, block, at)?;
    add_report_end(sink, block, report)
}

fn add_vertex_head<W: Sink>(sink: &mut W, block: &mut Block, at: &Point) -> Result<(), Failed>
    ensures bytes { Adds (W.held sink.old) block.old.items (W.held sink.new) block.new.items
        (vertex_head at.now) result }
    ensures cause { HasCause (W.faults sink.old) (W.faults sink.new) result }
    ensures aside { W.aside sink.new ≡ W.aside sink.old }
{
    add_all(sink, block, &[b"vertex ", put_point(at).as_slice(), b" "])
}

fn add_report_end<W: Sink>(sink: &mut W, block: &mut Block, report: &Report) -> Result<(), Failed>
    ensures bytes { Adds (W.held sink.old) block.old.items (W.held sink.new) block.new.items
        (report_end report.now) result }
    ensures cause { HasCause (W.faults sink.old) (W.faults sink.new) result }
    ensures aside { W.aside sink.new ≡ W.aside sink.old }
{
    match report {
        Report::Border => add_all(sink, block, &[b"border", b"\n"]),
        Report::Judged { star, verdict } => add_judged(sink, block, star.rays(), verdict),
    }
}

/// The rays and the verdict.
fn add_judged<W: Sink>(
    sink: &mut W,
    block: &mut Block,
    rays: &[Ray],
    verdict: &Verdict,
) -> Result<(), Failed>
    ensures bytes { Adds (W.held sink.old) block.old.items (W.held sink.new) block.new.items
        (report_end (Report.Judged rays.now verdict.now)) result }
    ensures cause { HasCause (W.faults sink.old) (W.faults sink.new) result }
    ensures aside { W.aside sink.new ≡ W.aside sink.old }
{
    add(sink, block, b"rays")?;
    add_each(sink, block, rays)?;
    add_verdict_end(sink, block, verdict)
}

fn add_verdict_end<W: Sink>(
    sink: &mut W,
    block: &mut Block,
    verdict: &Verdict,
) -> Result<(), Failed>
    ensures bytes { Adds (W.held sink.old) block.old.items (W.held sink.new) block.new.items
        (verdict_end verdict.now) result }
    ensures cause { HasCause (W.faults sink.old) (W.faults sink.new) result }
    ensures aside { W.aside sink.new ≡ W.aside sink.old }
{
    match verdict {
        Verdict::Plain => add_all(sink, block, &[b" plain", b"\n"]),
        Verdict::Passed(order) => add_order(sink, block, order.numbers()),
        Verdict::Fails(why) => add_failure(sink, block, why),
    }
}

fn add_order<W: Sink>(sink: &mut W, block: &mut Block, numbers: &[u8]) -> Result<(), Failed>
    ensures bytes { Adds (W.held sink.old) block.old.items (W.held sink.new) block.new.items
        (verdict_end (Verdict.Passed numbers.now)) result }
    ensures cause { HasCause (W.faults sink.old) (W.faults sink.new) result }
    ensures aside { W.aside sink.new ≡ W.aside sink.old }
{
    add(sink, block, b" passed")?;
    add_each(sink, block, numbers)?;
    add(sink, block, b"\n")
}

fn add_failure<W: Sink>(sink: &mut W, block: &mut Block, why: &Why) -> Result<(), Failed>
    ensures bytes { Adds (W.held sink.old) block.old.items (W.held sink.new) block.new.items
        (verdict_end (Verdict.Fails why.now)) result }
    ensures cause { HasCause (W.faults sink.old) (W.faults sink.new) result }
    ensures aside { W.aside sink.new ≡ W.aside sink.old }
{
    add_failure_word(sink, block, why)?;
    add_why_end(sink, block, why)
}

fn add_failure_word<W: Sink>(sink: &mut W, block: &mut Block, why: &Why) -> Result<(), Failed>
    ensures bytes { Adds (W.held sink.old) block.old.items (W.held sink.new) block.new.items
        (32 ∷ (word_of why.now ++ 32 ∷ [])) result }
    ensures cause { HasCause (W.faults sink.old) (W.faults sink.new) result }
    ensures aside { W.aside sink.new ≡ W.aside sink.old }
{
    add_all(sink, block, &[b" ", why_word(why), b" "])
}

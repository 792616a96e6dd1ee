//! How many bytes are written for replies.
ghost use Rattle.std.specs.Prelude.{◌≡◌, ◌≤◌, ◌+◌, ◌^◌, length};
ghost use Rattle.qroot2.specs.Text.{numeral};
ghost use Rattle.commands.specs.ReplyText.{reply_text, bad_text, refused_text, cause_text, shown_text};
ghost use Rattle.commands.specs.ReplyText.{shown_line, imported_line, counted_line, numbered_line, why_word};
ghost use Rattle.commands.specs.ReplyText.{why_end, verdict_end, report_end};

use crate::BadText;
use crate::cause::{cause_rest, cause_word};
use crate::digits::{digits_len, line_feeds, point_len};
use crate::written::total_len;
use dialogue::{Cause, Reply};
use judge::{Report, Verdict, Why};
use subdivide::Subdivision;

/// How many bytes [`write_reply`](crate::write_reply) writes for a reply. It takes no memory.
pub fn reply_len(reply: &Reply) -> u128
    ensures { result ≡ length (reply_text reply.now) }
{
    match reply {
        Reply::Done { rev } => numbered_len(b"done", *rev),
        Reply::Imported {
            rev,
            drawn,
            dropped,
        } => imported_len(*rev, *drawn, *dropped),
        Reply::Shown { rev, subdivision } => shown_len(*rev, subdivision),
        Reply::Faults { rev, list } => {
            let list = list.as_slice();
            counted_len(b"faults", *rev, list.len() as u64) + total_len(list)
        }
        Reply::Vertex { at, report } => u128::from(point_len(at)) + 8 + report_len(report),
        Reply::Text(text) => {
            let text = text.as_slice();
            numbered_len(b"text", line_feeds(text) as u64) + text.len() as u128
        }
        Reply::Names(names) => {
            let names = names.as_slice();
            numbered_len(b"names", names.len() as u64) + total_len(names)
        }
        Reply::Refused(cause) => refusal_len(cause),
        Reply::KeeperFailed => 14,
    }
}

/// How many bytes [`write_bad`](crate::write_bad) writes for a text that is no command. It takes no
/// memory.
pub fn bad_len(bad: &BadText) -> u128
    ensures { result ≡ length (bad_text bad.now) }
{
    match bad {
        BadText::Syntax { column } => numbered_len(b"syntax", *column),
        BadText::Range { column } => numbered_len(b"range", *column),
    }
}

/// A line of a word and a number.
fn numbered_len(word: &[u8], number: u64) -> u128
    ensures len { result ≡ length (numbered_line word.now number) }
    ensures small { result ≤ 2 ^ 65 }
{
    word.len() as u128 + u128::from(digits_len(number)) + 2
}

/// A line of a word and two numbers.
fn counted_len(word: &[u8], rev: u64, count: u64) -> u128
    ensures len { result ≡ length (counted_line word.now rev count) }
    ensures small { result ≤ 2 ^ 65 }
{
    word.len() as u128 + u128::from(digits_len(rev)) + u128::from(digits_len(count)) + 3
}

fn imported_len(rev: u64, drawn: u64, dropped: u64) -> u128
    ensures { result ≡ length (imported_line rev drawn dropped) }
{
    u128::from(digits_len(rev) + digits_len(drawn) + digits_len(dropped)) + 12
}

fn shown_len(rev: u64, cut: &Subdivision) -> u128
    ensures { result ≡ length (shown_text rev cut.now.vertices cut.now.edges) }
{
    let vertices = cut.vertices();
    let edges = cut.edges();
    let line = shown_line_len(rev, vertices.len() as u64, edges.len() as u64);
    u128::from(line) + (total_len(vertices) + total_len(edges))
}

fn shown_line_len(rev: u64, vertices: u64, edges: u64) -> u64
    ensures len { result ≡ length (shown_line rev vertices edges) }
    ensures small { result ≤ 200 }
{
    digits_len(rev) + digits_len(vertices) + digits_len(edges) + 9
}

fn refusal_len(cause: &Cause) -> u128
    ensures { result ≡ length (refused_text (cause_text cause.now)) }
{
    let word = cause_word(cause).len();
    let rest = cause_rest(cause).as_slice().len();
    word as u128 + rest as u128 + 9
}

/// The words of a failure, without what stands between them.
pub(crate) fn why_len(why: &Why) -> u64
    ensures len { result ≡ length (why_word why.now) + length (why_end why.now) }
    ensures short { result ≤ 300 }
{
    match why {
        Why::Kawasaki { even, odd, count } => {
            numbers_len(u64::from(*even), u64::from(*odd)) + digits_len(u64::from(*count)) + 25
        }
        Why::Maekawa { mountains, valleys } => numbers_len(
            u64::from(*mountains),
            u64::from(*valleys),
        ) + 27,
        Why::Blocked(run) => {
            let dirs = numbers_len(u64::from(run.from.number()), u64::from(run.to.number()));
            dirs + numbers_len(u64::from(run.angle), u64::from(run.count)) + 31
        }
    }
}

/// The digits of two numbers.
fn numbers_len(first: u64, second: u64) -> u64
    ensures len { result ≡ length (numeral first) + length (numeral second) }
    ensures short { result ≤ 80 }
{
    digits_len(first) + digits_len(second)
}

/// What is said of a vertex behind its point.
fn report_len(report: &Report) -> u128
    ensures len { result ≡ length (report_end report.now) }
    ensures small { result ≤ 2 ^ 83 }
{
    match report {
        Report::Border => 7,
        Report::Judged { star, verdict } => total_len(star.rays()) + verdict_len(verdict) + 4,
    }
}

fn verdict_len(verdict: &Verdict) -> u128
    ensures len { result ≡ length (verdict_end verdict.now) }
    ensures small { result ≤ 2 ^ 82 }
{
    match verdict {
        Verdict::Plain => 7,
        Verdict::Passed(order) => total_len(order.numbers()) + 8,
        Verdict::Fails(why) => u128::from(why_len(why)) + 2,
    }
}

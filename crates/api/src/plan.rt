//! What a whole head asks for, before the body is there.
ghost use Rattle.std.specs.Prelude.{◌≡◌, ◌≤◌, ℕ, List, [], length};
ghost use Rattle.api.specs.Lengths.{codings, lengths, AreLengths};
ghost use Rattle.api.specs.Stages.{IsHead};
ghost use Rattle.api.specs.Fields.{AreWithin, pairs};
ghost use Rattle.api.specs.Plans.{IsHeadOf, AreDigits, IsDigits, PassesFields, PassesPath, PassesLength};
ghost use Rattle.api.specs.Plans.{Plans};

use crate::ask::AskEnd;
use crate::bad::{BadWhy, HttpBad, refused};
use crate::lengths::{Length, has_coding, length_in, small};
use httparse::spans::{HeaderSpan, RequestSpans};
use ports::Stop;
use routes::{Method, Route, Routes, cut_target};
use std::alloc::Global;
use std::str;

/// A head has at most so many fields.
const FIELD_LIMIT: usize = 64;

/// A whole head within the limits: its bytes and where its fields are in them, its method, and the
/// path and the query of its target.
#[derive(Clone, Copy, Debug)]
pub(crate) struct Head<'a> {
    pub bytes: &'a [u8],
    pub fields: &'a [HeaderSpan],
    pub method: &'a [u8],
    pub path: &'a str,
    pub query: &'a str,
}

/// What a head asks for, once a body of this length is there.
#[derive(Clone, Copy, Debug)]
pub(crate) struct Plan<'a> {
    pub route: Route<'a>,
    pub method: Method,
    pub query: &'a str,
    pub length: usize,
}

/// The digits of Content-Length.
#[derive(Clone, Copy, Debug)]
pub(crate) enum Digits<'a> {
    NoDigits,
    SomeDigits(&'a [u8]),
}

/// The parts of a whole head, if it has not too many fields.
pub(crate) fn head_of<'a>(
    bytes: &'a [u8],
    spans: &'a [HeaderSpan],
    parts: RequestSpans,
) -> Result<Head<'a>, BadWhy>
    requires head { IsHead bytes.now spans.now parts }
    requires short { length bytes.now ≤ 16384 }
    ensures { IsHeadOf bytes.now parts.len result }
{
    if parts.headers > FIELD_LIMIT {
        return Err(BadWhy::HeadSize);
    }
    let Ok(target) = str::from_utf8(parts.path.of(bytes)) else {
        return Err(BadWhy::Head);
    };
    let (path, query) = cut_target(target);
    Ok(Head {
        bytes,
        fields: &spans[..parts.headers],
        method: parts.method.of(bytes),
        path,
        query,
    })
}

/// The tests that need no body, in their order.
pub(crate) fn planned<'a>(alloc: Global, head: &Head<'a>) -> Result<Plan<'a>, Stop<AskEnd>>
    requires { AreWithin head.now.bytes.now head.now.fields.now }
    ensures { Plans head.now result }
{
    let digits = match field_tests(head) {
        Ok(digits) => digits,
        Err(why) => return Err(refused(why)),
    };
    let (route, method) = path_tests(alloc, head)?;
    match length_tests(head.method, digits) {
        Ok(length) => Ok(Plan {
            route,
            method,
            query: head.query,
            length,
        }),
        Err(why) => Err(refused(why)),
    }
}

/// The tests of the fields: Coding and Length.
fn field_tests<'a>(head: &Head<'a>) -> Result<Digits<'a>, BadWhy>
    requires { AreWithin head.now.bytes.now head.now.fields.now }
    ensures { PassesFields head.now result }
{
    if has_coding(head.bytes, head.fields) {
        return Err(BadWhy::Coding);
    }
    match length_in(head.bytes, head.fields) {
        Length::Absent => Ok(Digits::NoDigits),
        Length::Given(digits) => Ok(Digits::SomeDigits(digits)),
        Length::Wrong => Err(BadWhy::Length),
    }
}

/// The tests of the path: Route, Method and Name.
fn path_tests<'a>(alloc: Global, head: &Head<'a>) -> Result<(Route<'a>, Method), Stop<AskEnd>>
    requires coding { codings (pairs head.now.bytes.now head.now.fields.now) ≡ [] }
    requires same { AreLengths (lengths (pairs head.now.bytes.now head.now.fields.now)) }
    ensures { PassesPath head.now result }
{
    let routes = Routes::new(alloc)?;
    let Some(route) = routes.find(head.path) else {
        return Err(refused(BadWhy::Route));
    };
    let Some(method) = route.method(head.method) else {
        return Err(Stop::Why(AskEnd::Bad(HttpBad {
            status: 405,
            why: BadWhy::Method,
            allow: Some(route.allow()),
        })));
    };
    if route.is_named() {
        Ok((route, method))
    } else {
        Err(refused(BadWhy::Name))
    }
}

/// The tests of the length: NoLength and BodySize.
fn length_tests(method: &[u8], digits: Digits) -> Result<usize, BadWhy>
    requires { IsDigits digits }
    ensures { (texts : List (List ℕ)) → AreDigits texts digits.entry → PassesLength method.now texts result }
{
    match digits {
        Digits::NoDigits => {
            if method == b"POST".as_slice() {
                Err(BadWhy::NoLength)
            } else {
                Ok(0)
            }
        }
        Digits::SomeDigits(digits) => match small(digits) {
            Some(length) => Ok(length),
            None => Err(BadWhy::BodySize),
        },
    }
}

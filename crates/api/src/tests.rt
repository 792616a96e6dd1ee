//! Requests and heads of answers, worked by hand. Each request comes in pieces of 1 and of 7 bytes.
ghost use Rattle.std.specs.Prelude.{◌≤◌};

use crate::{AskEnd, BadWhy, HttpBad, bad_text, read_request, write_head};
use ports::{MemSink, MemSource, Stop};
use std::alloc::Global;
use std::test::Fail;

/// Whether the bytes ask for this command text.
fn asks(alloc: Global, input: &[u8], text: &[u8]) -> Result<bool, Fail> {
    Ok(asks_by(alloc, input, 1, text)? && asks_by(alloc, input, 7, text)?)
}

fn asks_by(alloc: Global, input: &[u8], piece: usize, text: &[u8]) -> Result<bool, Fail>
    requires { 1 ≤ piece }
{
    let mut source = MemSource::new(input.to_vec(alloc)?, piece, Vec::new(alloc));
    match read_request(alloc, &mut source) {
        Ok(ask) => Ok(ask.text.as_slice() == text),
        Err(_) => Ok(false),
    }
}

/// Whether the bytes end so.
fn ends(alloc: Global, input: &[u8], end: AskEnd) -> Result<bool, Fail> {
    Ok(ends_by(alloc, input, 1, end)? && ends_by(alloc, input, 7, end)?)
}

fn ends_by(alloc: Global, input: &[u8], piece: usize, end: AskEnd) -> Result<bool, Fail>
    requires { 1 ≤ piece }
{
    let mut source = MemSource::new(input.to_vec(alloc)?, piece, Vec::new(alloc));
    match read_request(alloc, &mut source) {
        Err(Stop::Why(why)) => Ok(why == end),
        _ => Ok(false),
    }
}

/// Whether the bytes are refused so, and no methods are told.
fn refuses(alloc: Global, input: &[u8], status: u16, why: BadWhy) -> Result<bool, Fail> {
    let allow = None;
    ends(alloc, input, AskEnd::Bad(HttpBad { status, why, allow }))
}

#[test]
fn a_project_is_made(rt: HostRuntime) -> Result<(), Fail> {
    let alloc = rt.alloc();
    assert!(rt; asks(alloc, b"PUT /projects/sq HTTP/1.1\r\n\r\n", b"new sq")?);
    Ok(())
}

#[test]
fn an_edit_is_asked_for(rt: HostRuntime) -> Result<(), Fail> {
    let input = b"POST /projects/sq/edits HTTP/1.1\r\nContent-Length: 36\r\n\r\n\
            {\"rev\":0,\"command\":\"draw M 0,0 1,1\"}";
    assert!(rt; asks(rt.alloc(), input, b"draw sq@0 M 0,0 1,1")?);
    Ok(())
}

#[test]
fn a_wrong_method_is_told_the_right_ones(rt: HostRuntime) -> Result<(), Fail> {
    let bad = HttpBad {
        status: 405,
        why: BadWhy::Method,
        allow: Some("PUT, GET"),
    };
    assert!(rt;
        ends(
            rt.alloc(),
            b"DELETE /projects/sq HTTP/1.1\r\n\r\n",
            AskEnd::Bad(bad)
        )?
    );
    Ok(())
}

#[test]
fn no_byte_is_no_request(rt: HostRuntime) -> Result<(), Fail> {
    let alloc = rt.alloc();
    assert!(rt; ends(alloc, b"", AskEnd::Closed)?);
    assert!(rt; refuses(alloc, b"\r\n", 400, BadWhy::Head)?);
    Ok(())
}

#[test]
fn a_head_without_its_empty_line(rt: HostRuntime) -> Result<(), Fail> {
    assert!(rt; refuses(rt.alloc(), b"GET /projects HTTP/1.1\r\n", 400, BadWhy::Head)?);
    Ok(())
}

/// `GET /projects` with so many fields.
fn with_fields(alloc: Global, count: usize) -> Result<Vec<u8>, Fail> {
    let mut input = b"GET /projects HTTP/1.1\r\n".to_vec(alloc)?;
    for _field in 0..count {
        input.extend_from_slice(b"A: b\r\n")?;
    }
    input.extend_from_slice(b"\r\n")?;
    Ok(input)
}

#[test]
fn fields_are_counted(rt: HostRuntime) -> Result<(), Fail> {
    let alloc = rt.alloc();
    let (most, more) = (with_fields(alloc, 64)?, with_fields(alloc, 65)?);
    assert!(rt; asks(alloc, most.as_slice(), b"list")?);
    assert!(rt; refuses(alloc, more.as_slice(), 431, BadWhy::HeadSize)?);
    Ok(())
}

#[test]
fn a_post_has_a_length(rt: HostRuntime) -> Result<(), Fail> {
    let alloc = rt.alloc();
    let none = b"POST /projects/sq/edits HTTP/1.1\r\n\r\n";
    let long = b"POST /projects/sq/edits HTTP/1.1\r\nContent-Length: 4194305\r\n\r\n";
    assert!(rt; refuses(alloc, none, 411, BadWhy::NoLength)?);
    assert!(rt; refuses(alloc, long, 413, BadWhy::BodySize)?);
    Ok(())
}

#[test]
fn lengths_agree(rt: HostRuntime) -> Result<(), Fail> {
    let alloc = rt.alloc();
    let two = b"POST /projects/sq/edits HTTP/1.1\r\nContent-Length: 1\r\nContent-Length: 2\r\n\r\n";
    let short = b"POST /projects/sq/edits HTTP/1.1\r\nContent-Length: 4194304\r\n\r\n";
    assert!(rt; refuses(alloc, two, 400, BadWhy::Length)?);
    assert!(rt; refuses(alloc, short, 400, BadWhy::Short)?);
    Ok(())
}

#[test]
fn codings_are_not_taken(rt: HostRuntime) -> Result<(), Fail> {
    let input = b"POST /projects/sq/edits HTTP/1.1\r\nTransfer-Encoding: chunked\r\n\r\n";
    assert!(rt; refuses(rt.alloc(), input, 501, BadWhy::Coding)?);
    Ok(())
}

#[test]
fn the_method_goes_before_the_name(rt: HostRuntime) -> Result<(), Fail> {
    let bad = HttpBad {
        status: 405,
        why: BadWhy::Method,
        allow: Some("PUT, GET"),
    };
    assert!(rt;
        ends(
            rt.alloc(),
            b"DELETE /projects/Sq HTTP/1.1\r\n\r\n",
            AskEnd::Bad(bad)
        )?
    );
    Ok(())
}

#[test]
fn a_fault_is_no_end(rt: HostRuntime) -> Result<(), Fail> {
    let alloc = rt.alloc();
    let input = b"GET /projects HTTP/1.1\r\n\r\n".to_vec(alloc)?;
    let mut source = MemSource::new(input, 7, [2u64].to_vec(alloc)?);
    assert!(rt;
        matches!(
            read_request(alloc, &mut source),
            Err(Stop::Why(AskEnd::Failed))
        )
    );
    Ok(())
}

#[test]
fn heads_of_answers(rt: HostRuntime) -> Result<(), Fail> {
    let alloc = rt.alloc();
    let mut sink = MemSink::new(Vec::with_capacity(alloc, 400)?, 400, Vec::new(alloc));
    assert!(rt; write_head(&mut sink, 409, false, 16, None).is_ok());
    assert!(rt;
        sink.bytes()
            == b"HTTP/1.1 409 Conflict\r\nContent-Type: text/plain\r\nContent-Length: 16\r\n\
                Connection: close\r\n\r\n"
                .as_slice()
    );
    Ok(())
}

#[test]
fn a_head_that_tells_methods(rt: HostRuntime) -> Result<(), Fail> {
    let alloc = rt.alloc();
    let mut sink = MemSink::new(Vec::with_capacity(alloc, 400)?, 400, Vec::new(alloc));
    assert!(rt; write_head(&mut sink, 405, false, 11, Some("PUT, GET")).is_ok());
    assert!(rt;
        sink.bytes()
            == b"HTTP/1.1 405 Method Not Allowed\r\nContent-Type: text/plain\r\nContent-Length: 11\r\n\
                Allow: PUT, GET\r\nConnection: close\r\n\r\n"
                .as_slice()
    );
    assert!(rt; bad_text(BadWhy::Method) == "bad method\n");
    Ok(())
}

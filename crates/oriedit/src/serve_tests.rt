//! Connections over a door and a keeper in memory.
ghost use Rattle.std.specs.Prelude.{◌≤◌};

use crate::{Status, run};
use ports::{MemDoor, MemEnd, MemSink, MemSource};
use projects::MemKeeper;
use std::alloc::Global;
use std::test::Fail;

/// A connection that gives these bytes in pieces of this size.
fn end_of(alloc: Global, bytes: &[u8], piece: usize) -> Result<MemEnd, Fail>
    requires { 1 ≤ piece }
{
    let source = MemSource::new(bytes.to_vec(alloc)?, piece, Vec::new(alloc));
    let sink = MemSink::new(Vec::with_capacity(alloc, 4000)?, 4000, Vec::new(alloc));
    Ok(MemEnd { source, sink })
}

/// Connections that give these requests, each in pieces of this size.
fn ends_of(alloc: Global, requests: &[&[u8]], piece: usize) -> Result<Vec<MemEnd>, Fail>
    requires { 1 ≤ piece }
{
    let mut ends = Vec::with_capacity(alloc, requests.len())?;
    for request in requests {
        ends.push(end_of(alloc, request, piece)?)?;
    }
    Ok(ends)
}

/// Whether these ends hold these answers, each its own.
fn hold(ends: &[MemEnd], answers: &[&[u8]]) -> bool {
    let mut same = ends.len() == answers.len();
    for (end, answer) in ends.iter().zip(answers.iter()) {
        same = same && end.sink.bytes() == *answer;
    }
    same
}

/// A run of these words over these connections, at a door of which the calls in `fail` fail, and over
/// a keeper of which the calls in `others` fail.
fn run_over(
    alloc: Global,
    words: &[&str],
    others: Vec<u64>,
    ends: Vec<MemEnd>,
    fail: Vec<u64>,
) -> Result<(Status, MemDoor), Fail> {
    let mut given = Vec::new(alloc);
    for word in words {
        given.push(String::from_str(alloc, word)?)?;
    }
    let mut source = MemSource::new(Vec::new(alloc), 1, Vec::new(alloc));
    let mut sink = MemSink::new(Vec::new(alloc), 0, Vec::new(alloc));
    let mut keeper = MemKeeper::new(alloc, Vec::new(alloc), others);
    let mut door = MemDoor::new(ends, fail);
    let status = run(
        alloc,
        &given,
        &mut source,
        &mut sink,
        &mut keeper,
        &mut door,
    );
    Ok((status, door))
}

/// The same over a keeper of which no call fails.
fn served(
    alloc: Global,
    words: &[&str],
    ends: Vec<MemEnd>,
    fail: Vec<u64>,
) -> Result<(Status, MemDoor), Fail> {
    run_over(alloc, words, Vec::new(alloc), ends, fail)
}

/// Whether these requests get these answers, with their bytes in pieces of this size.
fn answers_by(
    alloc: Global,
    requests: &[&[u8]],
    answers: &[&[u8]],
    piece: usize,
) -> Result<bool, Fail>
    requires { 1 ≤ piece }
{
    let ends = ends_of(alloc, requests, piece)?;
    let (status, door) = served(alloc, &["serve", "8080"], ends, Vec::new(alloc))?;
    Ok(status == Status::Ok && hold(door.finished(), answers))
}

/// The same, whole and in pieces of one byte and of seven.
fn answers(alloc: Global, requests: &[&[u8]], texts: &[&[u8]]) -> Result<bool, Fail> {
    Ok(
        answers_by(alloc, requests, texts, 4096)?
            && answers_by(alloc, requests, texts, 7)?
            && answers_by(alloc, requests, texts, 1)?,
    )
}

const CREATED: &[u8] =
    b"HTTP/1.1 201 Created\r\nContent-Type: text/plain\r\nContent-Length: 7\r\nConnection: close\r\n\r\ndone 0\n";

const LISTED: &[u8] =
    b"HTTP/1.1 200 OK\r\nContent-Type: text/plain\r\nContent-Length: 11\r\nConnection: close\r\n\r\nnames 1\nsq\n";

#[test]
fn an_edit_that_comes_twice_is_stale(rt: HostRuntime) -> Result<(), Fail> {
    let edit =
        b"POST /projects/sq/edits HTTP/1.1\r\nContent-Length: 36\r\n\r\n{\"rev\":0,\"command\":\"draw M 0,0 1,1\"}";
    let done =
        b"HTTP/1.1 200 OK\r\nContent-Type: text/plain\r\nContent-Length: 7\r\nConnection: close\r\n\r\ndone 1\n";
    let stale =
        b"HTTP/1.1 409 Conflict\r\nContent-Type: text/plain\r\nContent-Length: 16\r\nConnection: close\r\n\r\nrefused Stale 1\n";
    let requests: [&[u8]; 3] = [b"PUT /projects/sq HTTP/1.1\r\n\r\n", edit, edit];
    assert!(rt; answers(rt.alloc(), &requests, &[CREATED, done, stale])?);
    Ok(())
}

#[test]
fn another_method_is_told_those_of_the_path(rt: HostRuntime) -> Result<(), Fail> {
    let text =
        b"HTTP/1.1 405 Method Not Allowed\r\nContent-Type: text/plain\r\nContent-Length: 11\r\nAllow: PUT, GET\r\nConnection: close\r\n\r\nbad method\n";
    assert!(rt;
        answers(
            rt.alloc(),
            &[b"DELETE /projects/sq HTTP/1.1\r\n\r\n"],
            &[text]
        )?
    );
    Ok(())
}

#[test]
fn a_sheet_is_named_in_the_path(rt: HostRuntime) -> Result<(), Fail> {
    let request = b"PUT /projects/sq/sheet/2/1 HTTP/1.1\r\n\r\n";
    assert!(rt; answers(rt.alloc(), &[request], &[CREATED])?);
    Ok(())
}

#[test]
fn a_connection_that_gives_nothing_gets_nothing(rt: HostRuntime) -> Result<(), Fail> {
    assert!(rt; answers(rt.alloc(), &[b""], &[b""])?);
    assert!(rt; answers(rt.alloc(), &[], &[])?);
    Ok(())
}

#[test]
fn a_door_that_fails_is_a_door_fault(rt: HostRuntime) -> Result<(), Fail> {
    let alloc = rt.alloc();
    let fail = [1u64].to_vec(alloc)?;
    let (status, _door) = served(alloc, &["serve", "8080"], Vec::new(alloc), fail)?;
    assert_eq!(rt; status, Status::DoorFault);
    Ok(())
}

#[test]
fn a_door_that_fails_later_has_its_first_ends_answered(rt: HostRuntime) -> Result<(), Fail> {
    let alloc = rt.alloc();
    let requests: [&[u8]; 3] = [
        b"PUT /projects/sq HTTP/1.1\r\n\r\n",
        b"GET /projects HTTP/1.1\r\n\r\n",
        b"GET /projects HTTP/1.1\r\n\r\n",
    ];
    let ends = ends_of(alloc, &requests, 4096)?;
    // The first call is that of the port, so the fourth is the third that asks for a connection.
    let fail = [4u64].to_vec(alloc)?;
    let (status, door) = served(alloc, &["serve", "8080"], ends, fail)?;
    assert_eq!(rt; status, Status::DoorFault);
    assert!(rt; hold(door.finished(), &[CREATED, LISTED]));
    Ok(())
}

#[test]
fn a_keeper_that_does_not_attach_comes_before_the_port(rt: HostRuntime) -> Result<(), Fail> {
    let alloc = rt.alloc();
    let ends = ends_of(alloc, &[b"PUT /projects/sq HTTP/1.1\r\n\r\n"], 4096)?;
    let first = [1u64].to_vec(alloc)?;
    let words = ["serve", "80", "--keep", "p.db"];
    // The door would fail too, if it were asked.
    let (status, door) = run_over(alloc, &words, first, ends, [1u64].to_vec(alloc)?)?;
    assert_eq!(rt; status, Status::KeeperFault);
    assert_eq!(rt; door.finished().len(), 0);
    Ok(())
}

#[test]
fn a_request_with_two_lengths_is_refused(rt: HostRuntime) -> Result<(), Fail> {
    let two_lengths =
        b"PUT /projects/sq HTTP/1.1\r\nContent-Length: 5\r\ncontent-length: 05\r\n\r\nhello";
    let one_length_twice =
        b"PUT /projects/sq HTTP/1.1\r\nContent-Length: 5\r\ncontent-length: 5\r\n\r\nhello";
    let refused =
        b"HTTP/1.1 400 Bad Request\r\nContent-Type: text/plain\r\nContent-Length: 11\r\nConnection: close\r\n\r\nbad length\n";
    let requests: [&[u8]; 3] = [
        two_lengths,
        one_length_twice,
        b"GET /projects HTTP/1.1\r\n\r\n",
    ];
    assert!(rt; answers(rt.alloc(), &requests, &[refused, CREATED, LISTED])?);
    Ok(())
}

#[test]
fn so_many_connections_are_served(rt: HostRuntime) -> Result<(), Fail> {
    let alloc = rt.alloc();
    let mut ends = Vec::with_capacity(alloc, 2)?;
    ends.push(end_of(alloc, b"", 1)?)?;
    ends.push(end_of(alloc, b"", 1)?)?;
    let words = ["serve", "--connections=1", "8080"];
    let (status, door) = served(alloc, &words, ends, Vec::new(alloc))?;
    assert_eq!(rt; status, Status::Ok);
    assert_eq!(rt; door.finished().len(), 1);
    Ok(())
}

//! Streams and doors, those in memory and the real ones, each call once.
ghost use Rattle.std.specs.Prelude.{◌≡◌, ◌<◌, None, Some, Ok, true, ◌∷◌, ◌++◌, []};
ghost use Rattle.ports.specs.Doors.{Ends};
ghost use Rattle.ports.specs.Streams.{HasCause};

use crate::{
    Door, Failed, Listed, MemDoor, MemEnd, MemSink, MemSource, Sink, Source, StdSink, StdSource,
    Steps, TcpDoor, Wire,
};
use std::alloc::Global;
use std::io::{Read, Write};
use std::marker::Brand;
use std::net::{TcpListener, TcpStream};
use std::sync::ledger::{Blank, Ledger};
use std::test::Fail;

#[test]
fn a_source_gives_chunks_until_its_end(rt: HostRuntime) -> Result<(), Fail> {
    let bytes = [1u8, 2, 3].to_vec(rt.alloc())?;
    let fail = [2u64].to_vec(rt.alloc())?;
    let mut source = MemSource::new(bytes, 2, fail);
    let mut buf = [0u8; 4];
    assert_eq!(rt; source.take(&mut buf), Ok(2));
    assert_eq!(rt; source.take(&mut buf), Err(Failed));
    assert_eq!(rt; source.take(&mut buf), Ok(1));
    assert_eq!(rt; buf[0], 3);
    assert_eq!(rt; source.take(&mut buf), Ok(0));
    Ok(())
}

#[test]
fn a_sink_takes_what_fits(rt: HostRuntime) -> Result<(), Fail> {
    let fail = [2u64].to_vec(rt.alloc())?;
    let mut sink = MemSink::new(Vec::with_capacity(rt.alloc(), 3)?, 3, fail);
    assert_eq!(rt; sink.put(&[7, 8]), Ok(()));
    assert_eq!(rt; sink.put(&[9]), Err(Failed));
    assert_eq!(rt; sink.put(&[9, 9]), Err(Failed));
    assert_eq!(rt; sink.put(&[9]), Ok(()));
    assert_eq!(rt; sink.bytes(), [7, 8, 9].as_slice());
    Ok(())
}

/// The tests run with an empty standard input.
#[test]
fn the_standard_streams_answer(rt: HostRuntime) -> Result<(), Fail> {
    let mut source = StdSource::new(&rt);
    let mut sink = StdSink::new(&rt);
    let mut buf = [0u8; 1];
    assert_eq!(rt; source.take(&mut buf), Ok(0));
    assert_eq!(rt; sink.put(b""), Ok(()));
    assert_eq!(rt; sink.put(b"written\n"), Ok(()));
    Ok(())
}

#[test]
fn a_list_gives_its_vector_back(rt: HostRuntime) -> Result<(), Fail> {
    let list = Listed::new([1u8, 2].to_vec(rt.alloc())?);
    assert_eq!(rt; list.as_slice(), [1, 2].as_slice());
    assert_eq!(rt; list.into_vec().len(), 2);
    Ok(())
}

fn two_steps<L: Ledger>(blank: Blank)
    requires name { blank.name ≡ L.name }
    requires parts { blank.parts ≡ L.parts }
    requires some { 0 < blank.parts }
{
    let mut steps = Steps::<L>::begin(blank);
    steps.tick();
    steps.tick();
}

#[test]
fn steps_are_counted() {
    two_steps::<Brand>(Blank::new(1));
}

/// An end whose other side sends one byte, and which takes one.
fn one_byte(alloc: Global, byte: u8) -> Result<MemEnd, Fail> {
    let source = MemSource::new([byte].to_vec(alloc)?, 1, Vec::new(alloc));
    let sink = MemSink::new(Vec::with_capacity(alloc, 1)?, 1, Vec::new(alloc));
    Ok(MemEnd { source, sink })
}

#[test]
fn an_end_keeps_what_it_took_apart_from_what_it_sends(rt: HostRuntime) -> Result<(), Fail> {
    let mut end = one_byte(rt.alloc(), 1)?;
    let mut buf = [0u8; 2];
    assert_eq!(rt; only_puts(&mut end, &[7]), Ok(()));
    assert_eq!(rt; only_takes(&mut end, &mut buf), Ok(1));
    assert_eq!(rt; only_puts(&mut end, &[7]), Err(Failed));
    assert_eq!(rt; buf[0], 1);
    assert_eq!(rt; end.sink.bytes(), [7].as_slice());
    Ok(())
}

/// What is lent as a source leaves what was put to it alone.
fn only_takes<E: Wire>(end: &mut E, buf: &mut [u8]) -> Result<usize, Failed>
    ensures held { E.held end.new ≡ E.held end.old }
    ensures faults { E.Sink.faults end.new ≡ E.Sink.faults end.old }
{
    end.take(buf)
}

/// What is lent as a sink leaves what is left to take alone.
fn only_puts<E: Wire>(end: &mut E, piece: &[u8]) -> Result<(), Failed>
    ensures left { E.left end.new ≡ E.left end.old }
    ensures faults { E.Source.faults end.new ≡ E.Source.faults end.old }
{
    end.put(piece)
}

/// Answers one connection with one byte. Where the door tells its ends, the first one that was still to
/// come is finished, with what was left in it.
fn answers_one<D: Door>(door: &mut D) -> Result<bool, Failed>
    ensures told { (before after : Ends D.End) → D.ends door.old ≡ Some before → D.ends door.new ≡ Some after
        → result ≡ Ok true → (first last : D.End) × (before.coming ≡ first ∷ after.coming)
        × (after.finished ≡ before.finished ++ last ∷ []) × (D.End.left last ≡ D.End.left first) }
    ensures port { D.door_port door.new ≡ D.door_port door.old }
    ensures cause { HasCause (D.door_faults door.old) (D.door_faults door.new) result }
{
    let Some(mut end) = door.next()? else {
        return Ok(false);
    };
    let _ = only_puts(&mut end, &[7]);
    door.finish(end);
    Ok(true)
}

/// Answers at most so many connections with one byte.
fn answers<D: Door>(door: &mut D, port: u16, most: u64) -> Result<(), Failed>
    requires { D.door_port door.old ≡ None }
    ensures port { D.door_port door.new ≡ Some port }
    ensures cause { HasCause (D.door_faults door.old) (D.door_faults door.new) result }
{
    door.listen(port)?;
    for _turn in 0..most {
        if !answers_one(door)? {
            break;
        }
    }
    Ok(())
}

#[test]
fn a_door_hands_out_its_ends_in_order(rt: HostRuntime) -> Result<(), Fail> {
    let mut ends = Vec::with_capacity(rt.alloc(), 2)?;
    ends.push(one_byte(rt.alloc(), 1)?)?;
    ends.push(one_byte(rt.alloc(), 2)?)?;
    let mut door = MemDoor::new(ends, [3u64].to_vec(rt.alloc())?);
    assert_eq!(rt; answers(&mut door, 80, 3), Err(Failed));
    assert!(rt; matches!(door.finished(), [one] if one.sink.bytes() == [7].as_slice()));
    let Ok(Some(end)) = door.next() else {
        panic!(rt; "no end");
    };
    door.finish(end);
    assert!(rt; matches!(door.next(), Ok(None)));
    assert_eq!(rt; door.finished().len(), 2);
    Ok(())
}

#[test]
fn a_peer_on_this_machine_gets_its_bytes_back(rt: HostRuntime) -> Result<(), Fail> {
    let port = TcpListener::bind(&rt, "127.0.0.1:0")?.local_addr()?.port();
    let mut door = TcpDoor::new(&rt);
    assert_eq!(rt; door.listen(port), Ok(()));
    let mut peer = TcpStream::connect(&rt, ("127.0.0.1", port))?;
    peer.write_all(b"hello")?;
    let Ok(Some(mut end)) = door.next() else {
        panic!(rt; "no end");
    };
    let mut room = [0u8; 64];
    assert_eq!(rt; end.take(&mut room), Ok(5));
    assert_eq!(rt; end.put(&room[..5]), Ok(()));
    door.finish(end);
    let mut got = [0u8; 64];
    assert_eq!(rt; peer.read(&mut got)?, 5);
    assert_eq!(rt; &got[..5], b"hello".as_slice());
    Ok(())
}

//! Runs of `generate`, worked by hand.
use crate::{Status, run};
use ports::{MemDoor, MemSink, MemSource};
use projects::MemKeeper;
use std::alloc::Global;
use std::test::Fail;

/// A run with these words, with a sink whose calls in `full` fail. There is nothing to take.
fn run_of(alloc: Global, words: &[&str], full: Vec<u64>) -> Result<(Status, MemSink), Fail> {
    let mut given = Vec::new(alloc);
    for word in words {
        given.push(String::from_str(alloc, word)?)?;
    }
    let mut source = MemSource::new(Vec::new(alloc), 4096, Vec::new(alloc));
    let mut sink = MemSink::new(Vec::with_capacity(alloc, 1000)?, 1000, full);
    let mut keeper = MemKeeper::new(alloc, Vec::new(alloc), Vec::new(alloc));
    let mut door = MemDoor::new(Vec::new(alloc), Vec::new(alloc));
    let status = run(
        alloc,
        &given,
        &mut source,
        &mut sink,
        &mut keeper,
        &mut door,
    );
    Ok((status, sink))
}

/// Whether a run with these words ends well and with this text.
fn gives(alloc: Global, words: &[&str], text: &[u8]) -> Result<bool, Fail> {
    let (status, sink) = run_of(alloc, words, Vec::new(alloc))?;
    Ok(status == Status::Ok && sink.bytes() == text)
}

#[test]
fn no_turn_leaves_the_blank_square(rt: HostRuntime) -> Result<(), Fail> {
    let text = b"generate 0 0\ndone 0\nrefused 0\nkeeper-failed 0\nfaults-seen 0\n\
            final creases 0 vertices 4 edges 4 faults 0\n";
    assert!(rt; gives(rt.alloc(), &["generate", "0", "0"], text)?);
    Ok(())
}

#[test]
fn the_one_turn_of_seed_one_undoes_nothing(rt: HostRuntime) -> Result<(), Fail> {
    let text = b"generate 1 1\ndone 0\nrefused 1\nkeeper-failed 0\nfaults-seen 0\n\
            final creases 0 vertices 4 edges 4 faults 0\n";
    assert!(rt; gives(rt.alloc(), &["generate", "1", "1"], text)?);
    Ok(())
}

#[test]
fn a_summary_that_cannot_be_written(rt: HostRuntime) -> Result<(), Fail> {
    let mut full = Vec::new(rt.alloc());
    full.push(1)?;
    let (status, sink) = run_of(rt.alloc(), &["generate", "1", "20"], full)?;
    assert!(rt; status == Status::WriteFault);
    assert!(rt; sink.bytes().is_empty());
    Ok(())
}

/// Whether these words are not in the grammar.
fn is_refused(alloc: Global, words: &[&str]) -> Result<bool, Fail> {
    let (status, _) = run_of(alloc, words, Vec::new(alloc))?;
    Ok(status == Status::Usage)
}

#[test]
fn two_numbers_within_their_limits_are_wanted(rt: HostRuntime) -> Result<(), Fail> {
    let alloc = rt.alloc();
    assert!(rt; is_refused(alloc, &["generate"])?);
    assert!(rt; is_refused(alloc, &["generate", "7"])?);
    assert!(rt; is_refused(alloc, &["generate", "7", "1", "1"])?);
    assert!(rt; is_refused(alloc, &["generate", "07", "1"])?);
    assert!(rt; is_refused(alloc, &["generate", "-7", "1"])?);
    assert!(rt; is_refused(alloc, &["generate", "7", "100001"])?);
    assert!(rt; is_refused(alloc, &["generate", "18446744073709551616", "1"])?);
    assert!(rt; !is_refused(alloc, &["generate", "18446744073709551615", "0"])?);
    Ok(())
}

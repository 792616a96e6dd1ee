//! Scripts over projects in tables of SQL.
use crate::{Status, script};
use ports::{MemSink, MemSource};
use projects::Keeper;
use sqlite::Connection;
use sqltold::SqlTold;
use std::alloc::Global;
use std::test::Fail;

/// Whether a script over empty tables in memory is answered by this text.
fn answers(alloc: Global, input: &[u8], text: &[u8]) -> Result<bool, Fail> {
    let mut keeper = SqlTold::new(Connection::open_in_memory(alloc)?);
    keeper.attach(alloc, "memory")?;
    let mut source = MemSource::new(input.to_vec(alloc)?, 4096, Vec::new(alloc));
    let mut sink = MemSink::new(Vec::with_capacity(alloc, 1000)?, 1000, Vec::new(alloc));
    let status = script(alloc, &mut source, &mut sink, &mut keeper);
    Ok(status == Status::Ok && sink.bytes() == text)
}

#[test]
fn an_undo_and_a_redo_in_tables(rt: HostRuntime) -> Result<(), Fail> {
    let input =
        b"new sq\ndraw sq M 0,1/2 1,1/2\ndraw sq V 1/4,1/2 3/4,1/2\nundo sq\npattern sq\nredo sq\n\
            pattern sq\n";
    let text =
        b"done 0\ndone 1\ndone 2\ndone 3\ntext 2\nq2 1\nM 0,1/2 1,1/2\ndone 4\ntext 4\nq2 1\n\
            M 0,1/2 1/4,1/2\nV 1/4,1/2 3/4,1/2\nM 3/4,1/2 1,1/2\n";
    assert!(rt; answers(rt.alloc(), input, text)?);
    Ok(())
}

#[test]
fn a_change_takes_the_future_out_of_tables(rt: HostRuntime) -> Result<(), Fail> {
    let input = b"new sq\nundo sq\ndraw sq M 0,0 1,1\nundo sq\ndraw sq V 0,1 1,0\nredo sq\n";
    let text = b"done 0\nrefused NothingToUndo\ndone 1\ndone 2\ndone 3\nrefused NothingToRedo\n";
    assert!(rt; answers(rt.alloc(), input, text)?);
    Ok(())
}

#[test]
fn refusals_over_tables(rt: HostRuntime) -> Result<(), Fail> {
    let input = b"new sq\ndraw sq M 0,0 1,1\nextend sq V 0,1/2 0\npattern sq\nextend sq V 0,1/2 0\n\
            extend sq V 0,1/2 8\nnew sq\nlist\n";
    let text =
        b"done 0\ndone 1\ndone 2\ntext 3\nq2 1\nM 0,0 1,1\nV 0,1/2 1/2,1/2\nrefused Covered\n\
            refused AtBorder\nrefused Exists\nnames 1\nsq\n";
    assert!(rt; answers(rt.alloc(), input, text)?);
    Ok(())
}

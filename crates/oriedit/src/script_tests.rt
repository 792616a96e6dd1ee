//! Scripts over streams and a keeper in memory.
ghost use Rattle.std.specs.Prelude.{◌≤◌};

use crate::{Status, run};
use ports::{MemDoor, MemSink, MemSource, Source};
use projects::MemKeeper;
use std::alloc::Global;
use std::test::Fail;

/// A run of `script` over a source that gives pieces of this size, with a sink whose calls in `full`
/// fail, and a keeper whose numbered commits and other calls fail.
fn script_of(
    alloc: Global,
    source: &mut MemSource,
    full: Vec<u64>,
    commits: Vec<u64>,
    others: Vec<u64>,
) -> Result<(Status, MemSink), Fail> {
    let mut words = Vec::new(alloc);
    words.push(String::from_str(alloc, "script")?)?;
    let mut sink = MemSink::new(Vec::with_capacity(alloc, 4000)?, 4000, full);
    let mut keeper = MemKeeper::new(alloc, commits, others);
    let mut door = MemDoor::new(Vec::new(alloc), Vec::new(alloc));
    let status = run(alloc, &words, source, &mut sink, &mut keeper, &mut door);
    Ok((status, sink))
}

/// Whether a script is answered by this text, whole and in pieces of seven bytes.
fn answers(alloc: Global, input: &[u8], text: &[u8]) -> Result<bool, Fail> {
    let whole = answers_by(alloc, input, 4096, text)?;
    let pieces = answers_by(alloc, input, 7, text)?;
    Ok(whole && pieces)
}

fn answers_by(alloc: Global, input: &[u8], piece: usize, text: &[u8]) -> Result<bool, Fail>
    requires { 1 ≤ piece }
{
    let mut source = MemSource::new(input.to_vec(alloc)?, piece, Vec::new(alloc));
    let (status, sink) = script_of(
        alloc,
        &mut source,
        Vec::new(alloc),
        Vec::new(alloc),
        Vec::new(alloc),
    )?;
    Ok(status == Status::Ok && sink.bytes() == text)
}

#[test]
fn a_new_project_is_the_blank_sheet(rt: HostRuntime) -> Result<(), Fail> {
    let alloc = rt.alloc();
    let input = b"new sq\nshow sq\n";
    let text =
        b"done 0\nshown 0 4 4\nv 0,0\nv 0,1\nv 1,0\nv 1,1\ne 0 1 B\ne 0 2 B\ne 1 3 B\ne 2 3 B\n";
    assert!(rt; answers(alloc, input, text)?);
    Ok(())
}

#[test]
fn crossing_mountains_are_a_fault_until_one_is_a_valley(rt: HostRuntime) -> Result<(), Fail> {
    let alloc = rt.alloc();
    let input = b"new sq\ndraw sq M 0,0 1,1\ndraw sq M 0,1 1,0\nfaults sq\n";
    let text = b"done 0\ndone 1\ndone 2\nfaults 2 1\n! maekawa 1/2,1/2 mountains 4 valleys 0\n";
    assert!(rt; answers(alloc, input, text)?);
    let input =
        b"new sq\ndraw sq M 0,0 1,1\ndraw sq M 0,1 1,0\nfaults sq\nrecolour sq V 1/2,1/2 1,0\n\
            vertex sq 1/2,1/2\nfaults sq\n";
    let text =
        b"done 0\ndone 1\ndone 2\nfaults 2 1\n! maekawa 1/2,1/2 mountains 4 valleys 0\ndone 3\n\
            vertex 1/2,1/2 rays 2M 6M 10M 14V passed 1 2 3 0\nfaults 3 0\n";
    assert!(rt; answers(alloc, input, text)?);
    Ok(())
}

#[test]
fn a_rabbit_ear_folds_and_two_changes_block_it(rt: HostRuntime) -> Result<(), Fail> {
    let alloc = rt.alloc();
    let input = b"new sq\nrabbit-ear sq M 0,0 1,0 0,1\nvertex sq 2-1r/2,2-1r/2\n";
    let text = b"done 0\ndone 1\nvertex 2-1r/2,2-1r/2 rays 5M 10M 12V 15M passed 3 2 1 0\n";
    assert!(rt; answers(alloc, input, text)?);
    let input =
        b"new sq\nrabbit-ear sq M 0,0 1,0 0,1\nvertex sq 2-1r/2,2-1r/2\nrecolour sq V 0,1 2-1r/2,2-1r/2\n\
            recolour sq M 2-1r/2,0 2-1r/2,2-1r/2\nfaults sq\n";
    let text =
        b"done 0\ndone 1\nvertex 2-1r/2,2-1r/2 rays 5M 10M 12V 15M passed 3 2 1 0\ndone 2\ndone 3\n\
            faults 3 1\n! blocked 2-1r/2,2-1r/2 from 10 to 12 angle 2 count 1\n";
    assert!(rt; answers(alloc, input, text)?);
    Ok(())
}

#[test]
fn edits_undone_and_redone_give_the_pattern_back(rt: HostRuntime) -> Result<(), Fail> {
    let alloc = rt.alloc();
    let input =
        b"new sq\ndraw sq M 0,1/2 1,1/2\ndraw sq V 1/4,1/2 3/4,1/2\npattern sq\nundo sq\npattern sq\n";
    let text =
        b"done 0\ndone 1\ndone 2\ntext 4\nq2 1\nM 0,1/2 1/4,1/2\nV 1/4,1/2 3/4,1/2\nM 3/4,1/2 1,1/2\n\
            done 3\ntext 2\nq2 1\nM 0,1/2 1,1/2\n";
    assert!(rt; answers(alloc, input, text)?);
    let input =
        b"new sq\ndraw sq M 0,1/2 1,1/2\ndraw sq V 1/4,1/2 3/4,1/2\npattern sq\nundo sq\npattern sq\n\
            redo sq\ndraw sq V 1/4,1/2 3/4,1/2\n";
    let text =
        b"done 0\ndone 1\ndone 2\ntext 4\nq2 1\nM 0,1/2 1/4,1/2\nV 1/4,1/2 3/4,1/2\nM 3/4,1/2 1,1/2\n\
            done 3\ntext 2\nq2 1\nM 0,1/2 1,1/2\ndone 4\nrefused NoChange\n";
    assert!(rt; answers(alloc, input, text)?);
    let input =
        b"new sq\ndraw sq M 0,0 1,1/3\ndraw sq M 0,0 0,0\ndraw sq M 0,0 2,0\ndraw sq M 0,0 1,0\n";
    let text =
        b"done 0\nrefused NotDirection\nrefused SamePoint\nrefused Outside\nrefused OnBorder\n";
    assert!(rt; answers(alloc, input, text)?);
    Ok(())
}

#[test]
fn refusals_change_nothing(rt: HostRuntime) -> Result<(), Fail> {
    let alloc = rt.alloc();
    let input = b"new sq\ndraw sq A 0,1/1048576 1,1/1048576\ndraw sq A 0,1/1048577 1,1/1048577\n\
            draw sq A 0,2/4 1,1/2\n";
    let text = b"done 0\ndone 1\nrange 11\nsyntax 11\n";
    assert!(rt; answers(alloc, input, text)?);
    let input = b"new sq\ndraw sq M 0,1/1048576 1048575/1048576,1\ndraw sq M 0,1 1,0\n";
    let text = b"done 0\ndone 1\nrefused CrossRange 0,1/1048576 1048575/1048576,1 0,1 1,0\n";
    assert!(rt; answers(alloc, input, text)?);
    let input = b"new sq\nundo sq\ndraw sq M 0,0 1,1\nundo sq\ndraw sq V 0,1 1,0\nredo sq\n";
    let text = b"done 0\nrefused NothingToUndo\ndone 1\ndone 2\ndone 3\nrefused NothingToRedo\n";
    assert!(rt; answers(alloc, input, text)?);
    let input =
        b"new sq\ndraw sq A 0,1/2 1/2,1/2\nvertex sq 0,0\nvertex sq 1/2,1/2\nvertex sq 1/3,1/3\nnew sq\n\
            list\nshow no\n";
    let text = b"done 0\ndone 1\nvertex 0,0 border\nvertex 1/2,1/2 rays plain\nrefused NoVertex\n\
            refused Exists\nnames 1\nsq\nrefused NoProject\n";
    assert!(rt; answers(alloc, input, text)?);
    Ok(())
}

#[test]
fn creases_that_do_not_run_through(rt: HostRuntime) -> Result<(), Fail> {
    let alloc = rt.alloc();
    let input =
        b"new sq\ndraw sq M 0,1/2 1/2,1/2\nfaults sq\ndraw sq M 1/2,1/2 1,1/2\ndraw sq A 1/2,0 1/2,1\n\
            vertex sq 1/2,1/2\n";
    let text =
        b"done 0\ndone 1\nfaults 1 1\n! kawasaki 1/2,1/2 even 16 odd 0 rays 1\ndone 2\ndone 3\n\
            vertex 1/2,1/2 rays 0M 8M passed 1 0\n";
    assert!(rt; answers(alloc, input, text)?);
    let input = b"new sq\nshow sq";
    let text =
        b"done 0\nshown 0 4 4\nv 0,0\nv 0,1\nv 1,0\nv 1,1\ne 0 1 B\ne 0 2 B\ne 1 3 B\ne 2 3 B\n";
    assert!(rt; answers(alloc, input, text)?);
    let input = b"new sq\ndraw sq M 0,0 1,1\nextend sq V 0,1/2 0\npattern sq\nextend sq V 0,1/2 0\n\
            extend sq V 0,1/2 8\n";
    let text =
        b"done 0\ndone 1\ndone 2\ntext 3\nq2 1\nM 0,0 1,1\nV 0,1/2 1/2,1/2\nrefused Covered\n\
            refused AtBorder\n";
    assert!(rt; answers(alloc, input, text)?);
    Ok(())
}

#[test]
fn bisectors_and_mirrors(rt: HostRuntime) -> Result<(), Fail> {
    let alloc = rt.alloc();
    let input =
        b"new sq\nbisect sq V 0,0 0 4\nbisect sq M 0,0 0 2\npattern sq\nbisect sq M 0,0 0 1\n\
            bisect sq M 0,0 0 3\n";
    let text = b"done 0\ndone 1\ndone 2\ntext 3\nq2 1\nM 0,0 1,-1+1r\nV 0,0 1,1\nrefused OddAngle\n\
            refused NoRay 3\n";
    assert!(rt; answers(alloc, input, text)?);
    let input =
        b"new sq\ndraw sq M 0,0 1/2,1/2\nmirror sq 1/2,0 4\npattern sq\nmirror sq 1/2,0 4\n";
    let text =
        b"done 0\ndone 1\ndone 2\ntext 3\nq2 1\nM 0,0 1/2,1/2\nM 1/2,1/2 1,0\nrefused NoChange\n";
    assert!(rt; answers(alloc, input, text)?);
    let input = b"new sq\ndraw sq A 1/1048576,0 1/1048576,1\nmirror sq 1/3,0 4\n";
    let text = b"done 0\ndone 1\nrefused Range image\n";
    assert!(rt; answers(alloc, input, text)?);
    Ok(())
}

#[test]
fn ears_and_flips_that_are_refused(rt: HostRuntime) -> Result<(), Fail> {
    let alloc = rt.alloc();
    let input =
        b"new sq\nrabbit-ear sq M 0,0 1,0 1,-1+1r\nrabbit-ear sq M 0,0 1/1048576,0 0,1/1048576\nflip sq\n";
    let text = b"done 0\nrefused NoMolecule\nrefused Range incentre\nrefused NoChange\n";
    assert!(rt; answers(alloc, input, text)?);
    let input =
        b"new sq\ndraw sq M 0,1/2 1,1/2\nerase sq 1/4,1/2 1/2,1/2\npattern sq\nerase sq 1/4,1/2 1/2,1/2\n";
    let text =
        b"done 0\ndone 1\ndone 2\ntext 3\nq2 1\nM 0,1/2 1/4,1/2\nM 1/2,1/2 1,1/2\nrefused NoCrease\n";
    assert!(rt; answers(alloc, input, text)?);
    Ok(())
}

#[test]
fn a_given_rev_has_to_be_the_kept_one(rt: HostRuntime) -> Result<(), Fail> {
    let alloc = rt.alloc();
    let input = b"new sq\ndraw sq@0 M 0,0 1,1\ndraw sq@0 V 0,1 1,0\ndraw sq@01 V 0,1 1,0\n";
    let text = b"done 0\ndone 1\nrefused Stale 1\nsyntax 6\n";
    assert!(rt; answers(alloc, input, text)?);
    Ok(())
}

#[test]
fn lines_that_are_no_commands_name_their_columns(rt: HostRuntime) -> Result<(), Fail> {
    let alloc = rt.alloc();
    let input =
        b"\n  # a comment\nnwe sq\nnew\nnew sq 2\nnew sq 9 1\nnew sq\r\ndraw sq M 0,0 1,1 1\n\
            vertex sq 1/1048577,0\nvertex SQ 1/1048577,0\nimport sq\n\0\nlist";
    let text =
        b"syntax 1\nsyntax 4\nsyntax 9\nsyntax 8\ndone 0\nsyntax 19\nrange 11\nsyntax 8\nsyntax 10\n\
            syntax 1\nnames 1\nsq\n";
    assert!(rt; answers(alloc, input, text)?);
    Ok(())
}

#[test]
fn the_end_without_a_line_feed_ends_a_command(rt: HostRuntime) -> Result<(), Fail> {
    let alloc = rt.alloc();
    assert!(rt; answers(alloc, b"", b"")?);
    assert!(rt; answers(alloc, b"new sq\nlist\r", b"done 0\nnames 1\nsq\n")?);
    Ok(())
}

#[test]
fn a_line_of_4097_bytes_is_too_long(rt: HostRuntime) -> Result<(), Fail> {
    let alloc = rt.alloc();
    let mut input = b"list".to_vec(alloc)?;
    input.extend_from_slice(&vec![in alloc; b' '; 4092]?)?;
    input.extend_from_slice(b"\nlist")?;
    input.extend_from_slice(&vec![in alloc; b' '; 4093]?)?;
    input.push(b'\n')?;
    assert!(rt; answers_by(alloc, &input, 4096, b"names 0\nsyntax 4097\n")?);
    Ok(())
}

#[test]
fn a_read_fault_leaves_the_unfinished_line(rt: HostRuntime) -> Result<(), Fail> {
    let alloc = rt.alloc();
    let input = b"new sq\nnew b".to_vec(alloc)?;
    let mut source = MemSource::new(input, 4096, [2u64].to_vec(alloc)?);
    let (status, sink) = script_of(
        alloc,
        &mut source,
        Vec::new(alloc),
        Vec::new(alloc),
        Vec::new(alloc),
    )?;
    assert_eq!(rt; status, Status::ReadFault);
    assert_eq!(rt; sink.bytes()[..], b"done 0\n"[..]);
    Ok(())
}

#[test]
fn no_take_follows_one_that_failed(rt: HostRuntime) -> Result<(), Fail> {
    let alloc = rt.alloc();
    let input = b"new sq\nnew b".to_vec(alloc)?;
    // The second call fails, and the third one would too.
    let mut source = MemSource::new(input, 8, [2u64, 3].to_vec(alloc)?);
    let (status, _sink) = script_of(
        alloc,
        &mut source,
        Vec::new(alloc),
        Vec::new(alloc),
        Vec::new(alloc),
    )?;
    assert_eq!(rt; status, Status::ReadFault);
    let mut room = [0u8; 8];
    assert!(rt; source.take(&mut room).is_err());
    assert!(rt; source.take(&mut room) == Ok(4));
    Ok(())
}

#[test]
fn a_write_fault_ends_the_script(rt: HostRuntime) -> Result<(), Fail> {
    let alloc = rt.alloc();
    let input = b"new sq\nlist\n".to_vec(alloc)?;
    let mut source = MemSource::new(input, 4096, Vec::new(alloc));
    let (status, sink) = script_of(
        alloc,
        &mut source,
        [2u64].to_vec(alloc)?,
        Vec::new(alloc),
        Vec::new(alloc),
    )?;
    assert_eq!(rt; status, Status::WriteFault);
    assert!(rt; sink.bytes().starts_with(b"done 0\n"));
    Ok(())
}

#[test]
fn a_keeper_that_fails_is_told_and_the_script_goes_on(rt: HostRuntime) -> Result<(), Fail> {
    let alloc = rt.alloc();
    let input = b"new sq\ndraw sq M 0,0 1,1\ndraw sq M 0,0 1,1\npattern sq\n".to_vec(alloc)?;
    let mut source = MemSource::new(input, 4096, Vec::new(alloc));
    let commits = [1u64].to_vec(alloc)?;
    let (status, sink) = script_of(
        alloc,
        &mut source,
        Vec::new(alloc),
        commits,
        Vec::new(alloc),
    )?;
    assert_eq!(rt; status, Status::Ok);
    let text = b"done 0\nkeeper-failed\ndone 1\ntext 2\nq2 1\nM 0,0 1,1\n";
    assert_eq!(rt; sink.bytes()[..], text[..]);
    Ok(())
}

#[test]
fn a_keeper_that_cannot_be_attached_ends_the_script(rt: HostRuntime) -> Result<(), Fail> {
    let alloc = rt.alloc();
    let mut words = Vec::new(alloc);
    words.push(String::from_str(alloc, "script")?)?;
    words.push(String::from_str(alloc, "--keep=p.db")?)?;
    let mut source = MemSource::new(b"new sq\n".to_vec(alloc)?, 4096, Vec::new(alloc));
    let mut sink = MemSink::new(Vec::with_capacity(alloc, 100)?, 100, Vec::new(alloc));
    let mut keeper = MemKeeper::new(alloc, Vec::new(alloc), [1u64].to_vec(alloc)?);
    let mut door = MemDoor::new(Vec::new(alloc), Vec::new(alloc));
    let status = run(
        alloc,
        &words,
        &mut source,
        &mut sink,
        &mut keeper,
        &mut door,
    );
    assert_eq!(rt; status, Status::KeeperFault);
    assert_eq!(rt; sink.bytes().len(), 0);
    Ok(())
}

#[test]
fn a_question_whose_project_cannot_be_fetched_is_told(rt: HostRuntime) -> Result<(), Fail> {
    let alloc = rt.alloc();
    let input = b"new sq\npattern sq\npattern sq\n".to_vec(alloc)?;
    let mut source = MemSource::new(input, 4096, Vec::new(alloc));
    let others = [2u64].to_vec(alloc)?;
    let (status, sink) = script_of(alloc, &mut source, Vec::new(alloc), Vec::new(alloc), others)?;
    assert_eq!(rt; status, Status::Ok);
    assert_eq!(rt;
        sink.bytes()[..],
        b"done 0\nkeeper-failed\ntext 1\nq2 1\n"[..]
    );
    Ok(())
}

#[test]
fn an_import_draws_its_lines_in_one_step(rt: HostRuntime) -> Result<(), Fail> {
    let alloc = rt.alloc();
    let input =
        b"new sq\nimport sq 64 128 1000 1\n2 -200.0 -200.0 200.0 -34.31457505076198\npattern sq\n";
    let text = b"done 0\nimported 1 1 0\ntext 2\nq2 1\nM 0,0 1,-1+1r\n";
    assert!(rt; answers(alloc, input, text)?);
    let input =
        b"new sq\nimport sq 64 128 1000 2\n2 -200 -200 200 200\n1 -200 -200 200 -200\nundo sq\npattern sq\n";
    let text = b"done 0\nimported 1 1 1\ndone 2\ntext 1\nq2 1\n";
    assert!(rt; answers(alloc, input, text)?);
    Ok(())
}

#[test]
fn an_import_on_a_wide_sheet(rt: HostRuntime) -> Result<(), Fail> {
    let alloc = rt.alloc();
    let input =
        b"new sq 2 1\ndraw sq M 1,0 1,1\ndraw sq M 0,0 2,2\npattern sq\nimport sq 64 128 1000 1\n\
            3 -200 -200 200 200\n";
    let text = b"done 0\ndone 1\nrefused Outside\ntext 2\nq2 2 2 1\nM 1,0 1,1\nimported 2 1 0\n";
    assert!(rt; answers(alloc, input, text)?);
    Ok(())
}

#[test]
fn an_import_takes_just_its_lines(rt: HostRuntime) -> Result<(), Fail> {
    let alloc = rt.alloc();
    // its lines are no commands, the line behind them is one
    let input = b"new sq\nimport sq 64 128 1000 2\nlist\n\nlist\nimport sq 64 128 1000 0\nlist\n";
    let text = b"done 0\nrefused Line line 1\nnames 1\nsq\nrefused NoChange\nnames 1\nsq\n";
    assert!(rt; answers(alloc, input, text)?);
    // a line that is wrong wants none
    let input = b"new sq\nimport sq 64 63 1000 1\nlist";
    let text = b"done 0\nsyntax 14\nnames 1\nsq\n";
    assert!(rt; answers(alloc, input, text)?);
    Ok(())
}

#[test]
fn an_import_that_lacks_lines_at_the_end(rt: HostRuntime) -> Result<(), Fail> {
    let alloc = rt.alloc();
    let input = b"new sq\nimport sq 64 128 1000 2\n2 -200 -200 200 200\n";
    assert!(rt; answers(alloc, input, b"done 0\nsyntax 23\n")?);
    // the last line needs no line feed
    let input = b"new sq\nimport sq 64 128 1000 1\n2 -200 -200 200 200";
    assert!(rt; answers(alloc, input, b"done 0\nimported 1 1 0\n")?);
    Ok(())
}

#[test]
fn a_read_fault_leaves_an_import_that_lacks_lines(rt: HostRuntime) -> Result<(), Fail> {
    let alloc = rt.alloc();
    let input = b"new sq\nimport sq 64 128 1000 2\n2 -200 -200 200 200\n".to_vec(alloc)?;
    let mut source = MemSource::new(input, 4096, [2u64].to_vec(alloc)?);
    let (status, sink) = script_of(
        alloc,
        &mut source,
        Vec::new(alloc),
        Vec::new(alloc),
        Vec::new(alloc),
    )?;
    assert_eq!(rt; status, Status::ReadFault);
    assert_eq!(rt; sink.bytes()[..], b"done 0\n"[..]);
    Ok(())
}

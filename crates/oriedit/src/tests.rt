//! Runs of the whole program over streams in memory.
use crate::{Status, run};
use ports::{MemDoor, MemSink, MemSource};
use projects::MemKeeper;
use qroot2::{Num, put_num};
use std::alloc::Global;
use std::test::Fail;

/// A run of `cut` over these bytes, with a source whose calls in `broken` fail and a sink whose
/// calls in `full` do.
fn cut_of(
    alloc: Global,
    bytes: Vec<u8>,
    broken: Vec<u64>,
    full: Vec<u64>,
) -> Result<(Status, MemSink), Fail> {
    let mut words = Vec::new(alloc);
    words.push(String::from_str(alloc, "cut")?)?;
    let mut source = MemSource::new(bytes, 4096, broken);
    let mut sink = MemSink::new(Vec::with_capacity(alloc, 1000)?, 1000, full);
    let mut keeper = MemKeeper::new(alloc, Vec::new(alloc), Vec::new(alloc));
    let mut door = MemDoor::new(Vec::new(alloc), Vec::new(alloc));
    let status = run(
        alloc,
        &words,
        &mut source,
        &mut sink,
        &mut keeper,
        &mut door,
    );
    Ok((status, sink))
}

/// Whether `cut` ends with this status and this text, over streams that never fail.
fn gives(alloc: Global, input: &[u8], status: Status, text: &[u8]) -> Result<bool, Fail> {
    let (came, sink) = cut_of(
        alloc,
        input.to_vec(alloc)?,
        Vec::new(alloc),
        Vec::new(alloc),
    )?;
    Ok(came == status && sink.bytes() == text)
}

#[test]
fn the_empty_pattern_is_cut_into_the_border(rt: HostRuntime) -> Result<(), Fail> {
    let text = b"shown 0 4 4\nv 0,0\nv 0,1\nv 1,0\nv 1,1\ne 0 1 B\ne 0 2 B\ne 1 3 B\ne 2 3 B\n";
    assert!(rt; gives(rt.alloc(), b"q2 1\n", Status::Ok, text)?);
    Ok(())
}

#[test]
fn a_diagonal_is_one_edge(rt: HostRuntime) -> Result<(), Fail> {
    let text =
        b"shown 0 4 5\nv 0,0\nv 0,1\nv 1,0\nv 1,1\ne 0 1 B\ne 0 2 B\ne 0 3 M\ne 1 3 B\ne 2 3 B\n";
    assert!(rt; gives(rt.alloc(), b"q2 1\nM 0,0 1,1\n", Status::Ok, text)?);
    Ok(())
}

#[test]
fn creases_of_slanted_directions_meet_exactly(rt: HostRuntime) -> Result<(), Fail> {
    // Two creases at 67.5 degrees, from the ends of the left side, cross half way up.
    let input = b"q2 1\nM 0,0 -1+1r,1\nV 0,1 -1+1r,0\n";
    let vertices =
        b"shown 0 7 10\nv 0,0\nv 0,1\nv -1+1r/2,1/2\nv -1+1r,0\nv -1+1r,1\nv 1,0\nv 1,1\n";
    let edges =
        b"e 0 1 B\ne 0 2 M\ne 0 3 B\ne 1 2 V\ne 1 4 B\ne 2 3 V\ne 2 4 M\ne 3 5 B\ne 4 6 B\ne 5 6 B\n";
    let mut text = vertices.to_vec(rt.alloc())?;
    text.extend_from_slice(edges)?;
    assert!(rt; gives(rt.alloc(), input, Status::Ok, &text)?);
    Ok(())
}

#[test]
fn a_crease_where_a_square_would_end_is_inside_a_larger_sheet(rt: HostRuntime) -> Result<(), Fail> {
    let input = b"q2 2 2 1\nM 1,0 1,1\n";
    let text =
        b"shown 0 6 7\nv 0,0\nv 0,1\nv 1,0\nv 1,1\nv 2,0\nv 2,1\ne 0 1 B\ne 0 2 B\ne 1 3 B\ne 2 3 M\n\
            e 2 4 B\ne 3 5 B\ne 4 5 B\n";
    assert!(rt; gives(rt.alloc(), input, Status::Ok, text)?);
    Ok(())
}

/// Whether `cut` refuses these bytes with this text.
fn refuses(alloc: Global, input: &[u8], text: &[u8]) -> Result<bool, Fail> {
    gives(alloc, input, Status::Refused, text)
}

#[test]
fn a_line_of_another_form_is_refused(rt: HostRuntime) -> Result<(), Fail> {
    let alloc = rt.alloc();
    assert!(rt; refuses(alloc, b"", b"refused Line line 1\n")?);
    assert!(rt; refuses(alloc, b"q2 1\nM 0,2/4 1,1/2\n", b"refused Line line 2\n")?);
    assert!(rt; refuses(alloc, b"q2 1\nM 0,0 1,1", b"refused Line line 2\n")?);
    Ok(())
}

#[test]
fn each_refusal_names_its_line(rt: HostRuntime) -> Result<(), Fail> {
    let alloc = rt.alloc();
    assert!(rt;
        refuses(
            alloc,
            b"q2 1\nM 0,1/1048577 1,1\n",
            b"refused Range line 2\n"
        )?
    );
    assert!(rt; refuses(alloc, b"q2 1\nM 0,0 2,2\n", b"refused Outside line 2\n")?);
    assert!(rt; refuses(alloc, b"q2 1\nM 1,1 0,0\n", b"refused Order line 2\n")?);
    assert!(rt;
        refuses(
            alloc,
            b"q2 1\nM 0,0 1,1/3\n",
            b"refused NotDirection line 2\n"
        )?
    );
    assert!(rt; refuses(alloc, b"q2 1\nM 0,0 1,0\n", b"refused OnBorder line 2\n")?);
    let overlapping = b"q2 1\nM 0,1/2 3/4,1/2\nV 1/2,1/2 1,1/2\n";
    assert!(rt; refuses(alloc, overlapping, b"refused Overlap line 3\n")?);
    Ok(())
}

#[test]
fn a_sheet_is_named_in_one_way(rt: HostRuntime) -> Result<(), Fail> {
    let alloc = rt.alloc();
    assert!(rt; refuses(alloc, b"q2 2 1 1\n", b"refused Line line 1\n")?);
    assert!(rt; refuses(alloc, b"q2 2 9 1\n", b"refused Line line 1\n")?);
    let left = b"q2 2 2 1\nM 0,0 0,1\n";
    assert!(rt; refuses(alloc, left, b"refused OnBorder line 2\n")?);
    Ok(())
}

#[test]
fn a_crossing_that_cannot_be_held_names_its_creases(rt: HostRuntime) -> Result<(), Fail> {
    let input = b"q2 1\nM 0,1/1048576 1048575/1048576,1\nM 0,1 1,0\n";
    let text = b"refused CrossRange 0,1/1048576 1048575/1048576,1 0,1 1,0\n";
    assert!(rt; gives(rt.alloc(), input, Status::Refused, text)?);
    Ok(())
}

#[test]
fn more_vertices_than_the_limit_are_refused(rt: HostRuntime) -> Result<(), Fail> {
    // 319 lines across and 319 up cross in 101,761 points.
    let alloc = rt.alloc();
    let mut across = b"q2 1\n".to_vec(alloc)?;
    let mut up = Vec::new(alloc);
    for place in 1..320u64 {
        let Some(number) = Num::new(i128::from(place), 0, 320) else {
            continue;
        };
        let text = put_num(&number);
        across.extend_from_slice(b"M 0,")?;
        across.extend_from_slice(text.as_slice())?;
        across.extend_from_slice(b" 1,")?;
        across.extend_from_slice(text.as_slice())?;
        across.push(b'\n')?;
        up.extend_from_slice(b"V ")?;
        up.extend_from_slice(text.as_slice())?;
        up.extend_from_slice(b",0 ")?;
        up.extend_from_slice(text.as_slice())?;
        up.extend_from_slice(b",1\n")?;
    }
    across.extend_from_slice(&up)?;
    assert!(rt;
        gives(
            alloc,
            &across,
            Status::Refused,
            b"refused TooManyVertices\n"
        )?
    );
    Ok(())
}

#[test]
fn a_source_that_fails_is_a_read_fault(rt: HostRuntime) -> Result<(), Fail> {
    let alloc = rt.alloc();
    let bytes = b"q2 1\nM 0,0 1,1\n".to_vec(alloc)?;
    let (status, sink) = cut_of(alloc, bytes, [1u64].to_vec(alloc)?, Vec::new(alloc))?;
    assert_eq!(rt; status, Status::ReadFault);
    assert_eq!(rt; sink.bytes().len(), 0);
    Ok(())
}

#[test]
fn a_sink_that_fails_is_a_write_fault(rt: HostRuntime) -> Result<(), Fail> {
    let alloc = rt.alloc();
    let bytes = b"q2 1\nM 0,0 1,1\n".to_vec(alloc)?;
    let (status, _sink) = cut_of(alloc, bytes, Vec::new(alloc), [1u64].to_vec(alloc)?)?;
    assert_eq!(rt; status, Status::WriteFault);
    Ok(())
}

#[test]
fn an_input_of_the_limit_is_too_long(rt: HostRuntime) -> Result<(), Fail> {
    let alloc = rt.alloc();
    let bytes = vec![in alloc; b'\n'; 16_777_216]?;
    let (status, sink) = cut_of(alloc, bytes, Vec::new(alloc), Vec::new(alloc))?;
    assert_eq!(rt; status, Status::TooLong);
    assert_eq!(rt; sink.bytes().len(), 0);
    Ok(())
}

#[test]
fn other_words_write_the_usage_text(rt: HostRuntime) -> Result<(), Fail> {
    let alloc = rt.alloc();
    let mut source = MemSource::new(Vec::new(alloc), 1, Vec::new(alloc));
    let mut sink = MemSink::new(Vec::with_capacity(alloc, 1000)?, 1000, Vec::new(alloc));
    let mut keeper = MemKeeper::new(alloc, Vec::new(alloc), Vec::new(alloc));
    let mut door = MemDoor::new(Vec::new(alloc), Vec::new(alloc));
    assert_eq!(rt;
        run(alloc, &[], &mut source, &mut sink, &mut keeper, &mut door),
        Status::Usage
    );
    assert_eq!(rt; sink.bytes()[..19], b"usage: oriedit cut\n"[..]);
    Ok(())
}

#[test]
fn a_sink_that_fails_at_the_usage_text_is_a_write_fault(rt: HostRuntime) -> Result<(), Fail> {
    let alloc = rt.alloc();
    let mut source = MemSource::new(Vec::new(alloc), 1, Vec::new(alloc));
    let full = [1u64].to_vec(alloc)?;
    let mut sink = MemSink::new(Vec::with_capacity(alloc, 1000)?, 1000, full);
    let mut keeper = MemKeeper::new(alloc, Vec::new(alloc), Vec::new(alloc));
    let mut door = MemDoor::new(Vec::new(alloc), Vec::new(alloc));
    let status = run(alloc, &[], &mut source, &mut sink, &mut keeper, &mut door);
    assert_eq!(rt; status, Status::WriteFault);
    Ok(())
}

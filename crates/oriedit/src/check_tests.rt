//! Runs of `check` over streams in memory.
use crate::{Status, run};
use ports::{MemDoor, MemSink, MemSource};
use projects::MemKeeper;
use std::alloc::Global;
use std::test::Fail;

/// A run of `check` with these further words over these bytes, with a source whose calls in `broken`
/// fail and a sink whose calls in `full` do.
fn check_of(
    alloc: Global,
    further: &[&str],
    input: &[u8],
    broken: Vec<u64>,
    full: Vec<u64>,
) -> Result<(Status, MemSink), Fail> {
    let mut words = Vec::new(alloc);
    words.push(String::from_str(alloc, "check")?)?;
    for word in further {
        words.push(String::from_str(alloc, word)?)?;
    }
    let mut source = MemSource::new(input.to_vec(alloc)?, 4096, broken);
    let mut sink = MemSink::new(Vec::with_capacity(alloc, 1000)?, 1000, full);
    let mut keeper = MemKeeper::new(alloc, Vec::new(alloc), Vec::new(alloc));
    let mut door = MemDoor::new(Vec::new(alloc), Vec::new(alloc));
    let status = run(
        alloc,
        &words,
        &mut source,
        &mut sink,
        &mut keeper,
        &mut door,
    );
    Ok((status, sink))
}

/// Whether `check` with these words ends with this status and this text.
fn gives(
    alloc: Global,
    further: &[&str],
    input: &[u8],
    status: Status,
    text: &[u8],
) -> Result<bool, Fail> {
    let (came, sink) = check_of(alloc, further, input, Vec::new(alloc), Vec::new(alloc))?;
    Ok(came == status && sink.bytes() == text)
}

/// Whether `check` without settings refuses this line so.
fn refuses(alloc: Global, line: &[u8], text: &[u8]) -> Result<bool, Fail> {
    gives(alloc, &[], line, Status::Refused, text)
}

/// Whether `check` without settings finds no fault in this text.
fn passes(alloc: Global, input: &[u8]) -> Result<bool, Fail> {
    gives(alloc, &[], input, Status::Ok, b"faults 0 0\n")
}

/// Whether these words get the usage text.
fn is_usage(alloc: Global, further: &[&str]) -> Result<bool, Fail> {
    let (came, sink) = check_of(alloc, further, b"", Vec::new(alloc), Vec::new(alloc))?;
    Ok(came == Status::Usage && sink.bytes().starts_with(b"usage: oriedit cut\n"))
}

#[test]
fn a_coarse_lattice_has_no_value_near(rt: HostRuntime) -> Result<(), Fail> {
    let words = ["--d", "1", "--k", "1"];
    let text = b"refused NoNear line 1 field 2\n";
    assert!(rt;
        gives(
            rt.alloc(),
            &words,
            b"2 0.123 -200 200 200\n",
            Status::Refused,
            text
        )?
    );
    Ok(())
}

#[test]
fn two_values_within_a_wide_tolerance(rt: HostRuntime) -> Result<(), Fail> {
    let words = ["--d=64", "--k", "1024", "--tol=10000"];
    let text = b"refused TwoNear line 1 field 2 0 577-408r/64\n";
    assert!(rt;
        gives(
            rt.alloc(),
            &words,
            b"2 -200 -200 200 200\n",
            Status::Refused,
            text
        )?
    );
    Ok(())
}

#[test]
fn a_waterbomb_base_folds_flat(rt: HostRuntime) -> Result<(), Fail> {
    let alloc = rt.alloc();
    let whole =
        b"1 -200.0 -200.0 -200.0 200.0\n1 -200.0 200.0 200.0 200.0\n1 200.0 200.0 200.0 -200.0\n\
            1 200.0 -200.0 -200.0 -200.0\n3 -200.0 -200.0 200.0 200.0\n3 -200.0 200.0 200.0 -200.0\n\
            2 -200.0 1.4210854715202004E-14 200.0 0.0\n";
    assert!(rt; passes(alloc, whole)?);
    let border =
        b"1 -200.0 -200.0 -200.0 0.0\n1 -200.0 0.0 -200.0 200.0\n1 -200.0 200.0 200.0 200.0\n\
            1 200.0 200.0 200.0 0.0\n1 200.0 0.0 200.0 -200.0\n1 200.0 -200.0 -200.0 -200.0\n";
    let creases = b"3 -200.0 -200.0 0.0 0.0\n3 0.0 0.0 200.0 200.0\n3 -200.0 200.0 0.0 0.0\n\
            3 0.0 0.0 200.0 -200.0\n2 -200.0 1.4210854715202004E-14 0.0 0.0\n2 0.0 0.0 200.0 0.0\n";
    let mut split = border.to_vec(alloc)?;
    split.extend_from_slice(creases)?;
    assert!(rt; passes(alloc, &split)?);
    Ok(())
}

#[test]
fn crossing_mountains_are_a_fault(rt: HostRuntime) -> Result<(), Fail> {
    let input = b"2 -200 -200 200 200\n2 -200 200 200 -200\n";
    let text = b"faults 0 1\n! maekawa 1/2,1/2 mountains 4 valleys 0\n";
    assert!(rt; gives(rt.alloc(), &[], input, Status::FaultsFound, text)?);
    Ok(())
}

#[test]
fn a_wide_sheet_goes_further(rt: HostRuntime) -> Result<(), Fail> {
    let alloc = rt.alloc();
    let line = b"2 200 -200 600 200\n";
    assert!(rt; gives(alloc, &["--w", "2"], line, Status::Ok, b"faults 0 0\n")?);
    assert!(rt; refuses(alloc, line, b"refused NoNear line 1 field 4\n")?);
    Ok(())
}

#[test]
fn what_draws_nothing_is_the_empty_sheet(rt: HostRuntime) -> Result<(), Fail> {
    let alloc = rt.alloc();
    assert!(rt; passes(alloc, b"")?);
    assert!(rt; passes(alloc, b"1 -200 -200 200 -200\r\n\n2 0 0 0 0\n")?);
    Ok(())
}

#[test]
fn decimals_of_many_forms(rt: HostRuntime) -> Result<(), Fail> {
    let alloc = rt.alloc();
    let far = b"refused NoNear line 1 field 2\n";
    assert!(rt; refuses(alloc, b"2 1e999 0 0 0", far)?);
    assert!(rt; refuses(alloc, b"2 1e1000 0 0 0", b"refused Line line 1\n")?);
    assert!(rt; passes(alloc, b"2 -200 -200 2e2 +200.")?);
    assert!(rt; passes(alloc, b"2 -200.001 -200 200 200")?);
    assert!(rt; refuses(alloc, b"2 -200.001000000001 -200 200 200", far)?);
    assert!(rt; passes(alloc, b"2 -200.0010000000009 -200 200 200")?);
    Ok(())
}

#[test]
fn lines_that_are_refused(rt: HostRuntime) -> Result<(), Fail> {
    let alloc = rt.alloc();
    assert!(rt; refuses(alloc, b"5 0 0 0 0", b"refused Line line 1\n")?);
    assert!(rt; refuses(alloc, b"1 0 0 200 0", b"refused InnerContour line 1\n")?);
    assert!(rt;
        refuses(
            alloc,
            b"\n2 -200 -200 200 0",
            b"refused NotDirection line 2\n"
        )?
    );
    let blanks = vec![in alloc; b' '; 257]?;
    assert!(rt; refuses(alloc, &blanks, b"refused TooLong line 1\n")?);
    Ok(())
}

/// Settings of a sheet of width and height 8 by whose lattice the text can name each fiftieth: from
/// -200 to 3000 they are 8 apart.
const FIFTIETHS: [&str; 8] = ["--d", "50", "--k", "50", "--w", "8", "--h", "8"];

#[test]
fn a_grid_of_too_many_vertices_is_refused(rt: HostRuntime) -> Result<(), Fail> {
    // With the four sides, 317 level lines and 317 upright ones meet in 100,489 points.
    let alloc = rt.alloc();
    let mut text = String::new(alloc);
    for n in 1..316u32 {
        let at = 8 * n;
        write!(text, "2 {at} -200 {at} 3000\n3 -200 {at} 3000 {at}\n")?;
    }
    let refused = b"refused TooManyVertices\n";
    assert!(rt; gives(alloc, &FIFTIETHS, text.as_bytes(), Status::Refused, refused)?);
    Ok(())
}

#[test]
fn too_many_creases_are_refused(rt: HostRuntime) -> Result<(), Fail> {
    let alloc = rt.alloc();
    let mut text = String::new(alloc);
    for n in 0..20_001u32 {
        let from = n % 300 * 8;
        let to = from + 8;
        let height = n / 300 * 8;
        write!(text, "2 {from} {height} {to} {height}\n")?;
    }
    let refused = b"refused TooManyCreases 20001\n";
    assert!(rt; gives(alloc, &FIFTIETHS, text.as_bytes(), Status::Refused, refused)?);
    Ok(())
}

#[test]
fn settings_that_are_wrong(rt: HostRuntime) -> Result<(), Fail> {
    let alloc = rt.alloc();
    assert!(rt; is_usage(alloc, &["--d", "0"])?);
    assert!(rt; is_usage(alloc, &["--d", "4", "--d", "4"])?);
    assert!(rt; is_usage(alloc, &["--d", "256"])?);
    assert!(rt; is_usage(alloc, &["--d=64", "--k=63"])?);
    assert!(rt; is_usage(alloc, &["--w", "9"])?);
    assert!(rt; is_usage(alloc, &["--tol", "100001"])?);
    Ok(())
}

#[test]
fn words_that_are_no_settings(rt: HostRuntime) -> Result<(), Fail> {
    let alloc = rt.alloc();
    assert!(rt; is_usage(alloc, &["--d", "064"])? && is_usage(alloc, &["--d", "+64"])?);
    assert!(rt; is_usage(alloc, &["--d"])? && is_usage(alloc, &["--d="])?);
    assert!(rt; is_usage(alloc, &["--d", ""])? && is_usage(alloc, &["--d", "-1"])?);
    assert!(rt; is_usage(alloc, &["-"])? && is_usage(alloc, &["--"])? && is_usage(alloc, &[""])?);
    assert!(rt; is_usage(alloc, &["-d", "64"])? && is_usage(alloc, &["64"])?);
    Ok(())
}

#[test]
fn a_source_that_fails_is_a_read_fault(rt: HostRuntime) -> Result<(), Fail> {
    let alloc = rt.alloc();
    let broken = [1u64].to_vec(alloc)?;
    let (status, sink) = check_of(alloc, &[], b"2 0 0 0 0", broken, Vec::new(alloc))?;
    assert_eq!(rt; status, Status::ReadFault);
    assert_eq!(rt; sink.bytes().len(), 0);
    Ok(())
}

#[test]
fn a_sink_that_fails_is_a_write_fault(rt: HostRuntime) -> Result<(), Fail> {
    let alloc = rt.alloc();
    let full = [1u64].to_vec(alloc)?;
    let (status, _sink) = check_of(alloc, &[], b"2 0 0 0 0", Vec::new(alloc), full)?;
    assert_eq!(rt; status, Status::WriteFault);
    Ok(())
}

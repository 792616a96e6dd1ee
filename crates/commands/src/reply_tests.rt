//! Texts of replies, spelled by hand.
use crate::{BadText, reply_len, write_bad, write_reply};
use cpfile::{CpBad, CpWhy};
use crimp::Run;
use dialogue::{Cause, Reply};
use edits::{EditBad, PointKind};
use judge::{Fault, Report, Verdict, Why};
use layers::{Order, Ray, Star};
use pattern::Pattern;
use plane::{Point, read_point};
use ports::{Listed, MemSink};
use qroot2::Dir;
use sheet::{Mark, Sheet};
use std::alloc::Global;
use std::test::Fail;
use subdivide::{CutBad, scratch};
use vocabulary::Name;

/// Whether this is written for a reply, and is as long as the reply says.
fn says(alloc: Global, reply: &Reply, text: &[u8]) -> Result<bool, Fail> {
    let mut sink = MemSink::new(Vec::with_capacity(alloc, 9000)?, 9000, Vec::new(alloc));
    if write_reply(&mut sink, reply).is_err() {
        return Err(Fail::from("put"));
    }
    Ok(sink.bytes() == text && reply_len(reply) == text.len() as u128)
}

fn refuses(alloc: Global, cause: Cause, text: &[u8]) -> Result<bool, Fail> {
    says(alloc, &Reply::Refused(cause), text)
}

fn point(text: &[u8]) -> Result<Point, Fail> {
    match read_point(text) {
        Ok(point) => Ok(point),
        Err(_) => Err(Fail::from("point")),
    }
}

fn ray(number: u8, mark: Mark) -> Result<Ray, Fail> {
    match Dir::new(number) {
        Some(dir) => Ok(Ray { dir, mark }),
        None => Err(Fail::from("direction")),
    }
}

#[test]
fn short_replies_are_written(rt: HostRuntime) -> Result<(), Fail> {
    let alloc = rt.alloc();
    assert!(rt;
        says(
            alloc,
            &Reply::Done {
                rev: 1_000_000_000_000
            },
            b"done 1000000000000\n"
        )?
    );
    assert!(rt; says(alloc, &Reply::KeeperFailed, b"keeper-failed\n")?);
    assert!(rt; refuses(alloc, Cause::NoProject, b"refused NoProject\n")?);
    assert!(rt; refuses(alloc, Cause::Stale { rev: 1 }, b"refused Stale 1\n")?);
    assert!(rt;
        refuses(
            alloc,
            Cause::Cut(CutBad::TooManyVertices),
            b"refused TooManyVertices\n"
        )?
    );
    let image = EditBad::Range {
        point: PointKind::Image,
    };
    assert!(rt; refuses(alloc, Cause::Edit(image), b"refused Range image\n")?);
    let many = EditBad::TooManyCreases { count: 20_001 };
    assert!(rt; refuses(alloc, Cause::Edit(many), b"refused TooManyCreases 20001\n")?);
    Ok(())
}

#[test]
fn bad_texts_are_told_with_their_columns(rt: HostRuntime) -> Result<(), Fail> {
    let alloc = rt.alloc();
    let mut sink = MemSink::new(Vec::with_capacity(alloc, 100)?, 100, Vec::new(alloc));
    assert!(rt; write_bad(&mut sink, &BadText::Syntax { column: 4097 }).is_ok());
    assert!(rt; write_bad(&mut sink, &BadText::Range { column: 11 }).is_ok());
    assert!(rt; sink.bytes() == b"syntax 4097\nrange 11\n".as_slice());
    Ok(())
}

#[test]
fn lists_are_written_line_by_line(rt: HostRuntime) -> Result<(), Fail> {
    let alloc = rt.alloc();
    let mut names = Vec::new(alloc);
    names.push(Name::new(b"a")?)?;
    names.push(Name::new(b"sq")?)?;
    assert!(rt;
        says(
            alloc,
            &Reply::Names(Listed::new(names)),
            b"names 2\na\nsq\n"
        )?
    );
    let text = b"q2 1\nM 0,1/2 1,1/2\n".to_vec(alloc)?;
    assert!(rt;
        says(
            alloc,
            &Reply::Text(Listed::new(text)),
            b"text 2\nq2 1\nM 0,1/2 1,1/2\n"
        )?
    );
    Ok(())
}

#[test]
fn faults_are_written_line_by_line(rt: HostRuntime) -> Result<(), Fail> {
    let alloc = rt.alloc();
    let mut list = Vec::new(alloc);
    list.push(Fault {
        at: point(b"1/2,1/2")?,
        why: Why::Maekawa {
            mountains: 4,
            valleys: 0,
        },
    })?;
    list.push(Fault {
        at: point(b"2-1r/2,2-1r/2")?,
        why: Why::Blocked(Run {
            from: ray(10, Mark::M)?.dir,
            to: ray(12, Mark::M)?.dir,
            angle: 2,
            count: 1,
        }),
    })?;
    let reply = Reply::Faults {
        rev: 3,
        list: Listed::new(list),
    };
    assert!(rt;
        says(
            alloc,
            &reply,
            b"faults 3 2\n! maekawa 1/2,1/2 mountains 4 valleys 0\n\
                ! blocked 2-1r/2,2-1r/2 from 10 to 12 angle 2 count 1\n"
        )?
    );
    Ok(())
}

#[test]
fn a_subdivision_is_shown(rt: HostRuntime) -> Result<(), Fail> {
    let alloc = rt.alloc();
    let Ok(subdivision) = scratch(alloc, &Pattern::empty(alloc, Sheet::square())) else {
        return Err(Fail::from("cut"));
    };
    let reply = Reply::Shown {
        rev: 0,
        subdivision,
    };
    assert!(rt;
        says(
            alloc,
            &reply,
            b"shown 0 4 4\nv 0,0\nv 0,1\nv 1,0\nv 1,1\ne 0 1 B\ne 0 2 B\ne 1 3 B\ne 2 3 B\n"
        )?
    );
    Ok(())
}

#[test]
fn a_vertex_that_passes_has_its_order(rt: HostRuntime) -> Result<(), Fail> {
    let alloc = rt.alloc();
    let at = point(b"1/2,1/2")?;
    let rays = [
        ray(2, Mark::M)?,
        ray(6, Mark::M)?,
        ray(10, Mark::M)?,
        ray(14, Mark::V)?,
    ];
    let Some(star) = Star::new(&rays) else {
        return Err(Fail::from("star"));
    };
    let Some(order) = Order::new(&[1, 2, 3, 0]) else {
        return Err(Fail::from("order"));
    };
    let report = Report::Judged {
        star,
        verdict: Verdict::Passed(order),
    };
    assert!(rt;
        says(
            alloc,
            &Reply::Vertex { at, report },
            b"vertex 1/2,1/2 rays 2M 6M 10M 14V passed 1 2 3 0\n"
        )?
    );
    Ok(())
}

#[test]
fn a_vertex_that_does_not_pass_has_its_cause(rt: HostRuntime) -> Result<(), Fail> {
    let alloc = rt.alloc();
    let at = point(b"1/2,1/2")?;
    let Some(star) = Star::new(&[ray(2, Mark::M)?]) else {
        return Err(Fail::from("star"));
    };
    let why = Why::Kawasaki {
        even: 16,
        odd: 0,
        count: 1,
    };
    let report = Report::Judged {
        star,
        verdict: Verdict::Fails(why),
    };
    assert!(rt;
        says(
            alloc,
            &Reply::Vertex { at, report },
            b"vertex 1/2,1/2 rays 2M kawasaki even 16 odd 0 rays 1\n"
        )?
    );
    let report = Report::Border;
    assert!(rt;
        says(
            alloc,
            &Reply::Vertex { at, report },
            b"vertex 1/2,1/2 border\n"
        )?
    );
    Ok(())
}

#[test]
fn an_import_tells_its_counts(rt: HostRuntime) -> Result<(), Fail> {
    let alloc = rt.alloc();
    let reply = Reply::Imported {
        rev: 3,
        drawn: 40_000,
        dropped: 12,
    };
    assert!(rt; says(alloc, &reply, b"imported 3 40000 12\n")?);
    Ok(())
}

fn refuses_line(alloc: Global, line: u64, why: CpWhy, text: &[u8]) -> Result<bool, Fail> {
    refuses(alloc, Cause::Cp(CpBad { line, why }), text)
}

#[test]
fn texts_that_are_not_imported_name_their_lines(rt: HostRuntime) -> Result<(), Fail> {
    let alloc = rt.alloc();
    assert!(rt; refuses_line(alloc, 7, CpWhy::TooLong, b"refused TooLong line 7\n")?);
    assert!(rt; refuses_line(alloc, 1, CpWhy::Line, b"refused Line line 1\n")?);
    let none = CpWhy::NoNear { field: 5 };
    assert!(rt; refuses_line(alloc, 12, none, b"refused NoNear line 12 field 5\n")?);
    let ends = point(b"0,1r/64")?;
    let two = CpWhy::TwoNear {
        field: 2,
        first: ends.x,
        second: ends.y,
    };
    assert!(rt; refuses_line(alloc, 2, two, b"refused TwoNear line 2 field 2 0 1r/64\n")?);
    let turn = CpWhy::NotDirection;
    assert!(rt; refuses_line(alloc, 3, turn, b"refused NotDirection line 3\n")?);
    let inner = CpWhy::InnerContour;
    assert!(rt; refuses_line(alloc, 4, inner, b"refused InnerContour line 4\n")?);
    Ok(())
}

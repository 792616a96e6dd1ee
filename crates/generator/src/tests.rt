//! The first turns of two seeds, worked by hand from the numbers.
use crate::Generator;
use dialogue::{Change, Command};
use edits::Edit;
use plane::{Point, read_point};
use sheet::Colour;
use std::process::Abort;
use std::test::Fail;
use vocabulary::Name;

fn turn(rt: &impl Abort, generator: &mut Generator, name: &Name) -> Change {
    match generator.command(name) {
        Command::Change {
            name: _,
            rev: None,
            change,
        } => change,
        _ => panic!(rt; "no change at any rev"),
    }
}

fn edit(rt: &impl Abort, change: Change) -> Edit {
    match change {
        Change::Edit(edit) => edit,
        _ => panic!(rt; "no edit"),
    }
}

fn drawing(rt: &impl Abort, edit: &Edit) -> (Colour, Point, Point) {
    match edit {
        Edit::Draw { colour, from, to } => (*colour, *from, *to),
        _ => panic!(rt; "no drawing"),
    }
}

fn point(rt: &impl Abort, text: &str) -> Point {
    read_point(text.as_bytes()).ok().expect(rt, "a point")
}

/// The next turn draws with this colour between the points of these texts.
fn draws(rt: &impl Abort, generator: &mut Generator, name: &Name, by: Colour, p: &str, q: &str) {
    let change = turn(rt, generator, name);
    let edit = edit(rt, change);
    let (colour, from, to) = drawing(rt, &edit);
    assert!(rt; colour == by);
    assert!(rt; from == point(rt, p));
    assert!(rt; to == point(rt, q));
}

#[test]
fn seed_one_begins_with_an_undo(rt: HostRuntime) -> Result<(), Fail> {
    let name = Name::new(b"g")?;
    let mut generator = Generator::new(1);
    assert!(rt; matches!(turn(&rt, &mut generator, &name), Change::Undo));
    Ok(())
}

#[test]
fn seed_seven_draws_these_commands(rt: HostRuntime) -> Result<(), Fail> {
    let name = Name::new(b"g")?;
    let mut generator = Generator::new(7);
    assert!(rt; matches!(turn(&rt, &mut generator, &name), Change::Undo));
    assert!(rt; matches!(turn(&rt, &mut generator, &name), Change::Redo));
    draws(&rt, &mut generator, &name, Colour::V, "1,13/16", "1,11/8");
    draws(
        &rt,
        &mut generator,
        &name,
        Colour::M,
        "13/16,7/8",
        "7/8,7/8",
    );
    draws(
        &rt,
        &mut generator,
        &name,
        Colour::M,
        "13/16,5/16",
        "13/8,18-13r/16",
    );
    Ok(())
}

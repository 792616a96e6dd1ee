//! The generator and its turns.
ghost use Rattle.std.specs.Prelude.{◌≡◌, ◌<◌, ◌≤◌, ◌%◌};
ghost use Rattle.generator.specs.Turns.{IsTurn, IsTurnChange, IsDrawn, IsStroke, after, next_state, number};
ghost use Rattle.generator.specs.Turns.{colour as colour_of};

use crate::place::{ahead, at};
use dialogue::{Change, Command};
use edits::Edit;
use plane::Point;
use qroot2::Dir;
use sheet::Colour;
use std::marker::Model;
use vocabulary::Name;

/// A generator of commands. Equal seeds give equal commands, whatever the project answers.
#[derive(Clone, Copy, Debug, PartialEq, Eq)]
pub struct Generator {
    state: u64,
}

impl Model for Generator {
    ghost use Rattle.std.specs.Prelude.{ℕ};

    ghost Value = { ℕ };

    ghost view = { λ s. s.state };

    ghost inverse = { λ v. record { state = v } };
}

impl Generator {
    /// The generator that begins with this seed.
    pub fn new(seed: u64) -> Generator
        ensures { result ≡ seed }
    {
        Generator { state: seed }
    }

    /// The command of the next turn, at any rev: an undo, a redo, or a drawing. A drawing begins at
    /// a point (i/16, j/16) of the unit square and leads up to 16/16 of the vector of one of the
    /// sixteen directions away, also out of the square.
    pub fn command(&mut self, name: &Name) -> Command
        ensures { IsTurn name.now self.old result self.new }
    {
        Command::Change {
            name: name.copy(),
            rev: None,
            change: self.change(),
        }
    }

    fn change(&mut self) -> Change
        ensures { IsTurnChange self.old result self.new }
    {
        let turn = self.below(8);
        if turn == 6 {
            Change::Undo
        } else if turn == 7 {
            Change::Redo
        } else {
            Change::Edit(self.drawing())
        }
    }

    fn drawing(&mut self) -> Edit
        ensures drawing { IsDrawn self.old result }
        ensures state { self.new ≡ after 5 self.old }
    {
        let c = self.below(2);
        let i = self.below(17);
        let j = self.below(17);
        let l = self.below(16);
        let k = self.below(16);
        stroke(c, i, j, l, k)
    }

    /// Draws a number, and gives what is left of it when n is taken away as often as it goes.
    fn below(&mut self, n: u8) -> u8
        requires { 0 < n }
        ensures state { self.new ≡ next_state self.old }
        ensures value { result ≡ number 1 self.old % n }
        ensures small { result < n }
    {
        self.state = self
            .state
            .wrapping_mul(6_364_136_223_846_793_005)
            .wrapping_add(1_442_695_040_888_963_407);
        (self.state / 8_589_934_592 % u64::from(n)) as u8
    }
}

/// A drawing of a colour from the point i to the right and j up, in sixteenths, over l + 1
/// sixteenths of the vector of direction k.
fn stroke(c: u8, i: u8, j: u8, l: u8, k: u8) -> Edit
    requires i { i ≤ 16 }
    requires j { j ≤ 16 }
    requires l { l < 16 }
    requires k { k < 16 }
    ensures { IsStroke c i j l k result }
{
    let (x, y) = Dir::new(k).unwrap().vector();
    Edit::Draw {
        colour: colour(c),
        from: Point { x: at(i), y: at(j) },
        to: Point {
            x: ahead(i, l + 1, x),
            y: ahead(j, l + 1, y),
        },
    }
}

fn colour(c: u8) -> Colour
    ensures { result ≡ colour_of c }
{
    if c == 0 { Colour::M } else { Colour::V }
}

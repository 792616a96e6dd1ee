//! Whether the creases of a vertex fold flat.
ghost use Rattle.std.specs.Prelude.{◌≤◌, ◌↔◌, ℕ, ℤ, IsSome, IfSome};
ghost use Rattle.sheet.specs.declared.mark.Mark.{Mark as AnyMark};
ghost use Rattle.layers.specs.LayerOrder.{ClosesUp, IsLayerOrder};
ghost use Rattle.crimp.specs.Cycle.{IsCycle, Layered, numbers_of, total, IsSomeCycle, IsPair, Ends};
ghost use Rattle.crimp.specs.Foldable.{Foldable};
ghost use Rattle.crimp.specs.BlockedRun.{IsBlockedRun};
ghost use Rattle.crimp.specs.Answers.{IsFolds, IfFolds, IfStuck};

use crate::crimping::fold_up;
use crate::entries::{Entry, numbered};
use crate::run::named_run;
use arrayvec::ArrayVec;
use layers::{Order, Sectors};
use qroot2::Dir;

/// The blocked run of a vertex that does not fold flat: a longest stretch of neighbouring sectors
/// of least angle with one mark at all creases between them, in the list with which the crimping
/// ends. `from` is the direction at the run's first crease, `to` that at its last (the same one
/// where the run goes all the way round), `angle` the least angle in units of 22.5 degrees, and
/// `count` the number of sectors.
#[derive(Clone, Copy, Debug, PartialEq, Eq)]
pub struct Run {
    pub from: Dir,
    pub to: Dir,
    pub angle: u8,
    pub count: u8,
}

/// What is known of a vertex once its sectors were crimped.
#[derive(Drop)]
pub enum Outcome {
    /// It folds flat, with these layers.
    Folds(Order),
    /// No order of its sectors is a layer order; this run stands in the way.
    Stuck(Run),
}

/// Crimps the entries as far as it goes, and gives the order where two with one mark are left.
fn layer_order(entries: &mut ArrayVec<Entry, 16>) -> Option<Order>
    requires cycle { IsSomeCycle entries.old.items }
    requires total { total entries.old.items ≤ 16 }
    ensures some { IfSome result
        (λ order. (x : ℕ → ℤ) (mark : ℕ → AnyMark) → IsCycle x mark entries.old.items
        → Layered x mark (numbers_of entries.old.items) order) }
    ensures which { IsSome result ↔ IsPair entries.new.items }
    ensures ends { Ends entries.old.items entries.new.items }
{
    let order = fold_up(entries)?;
    Order::new(order.as_slice())
}

/// Decides a vertex. Its condition is that the number of sectors is even and at least two, and that
/// the places close. The answer is a layer order exactly where the sectors have one, and else the
/// blocked run. It crimps a sector of least angle whose creases have opposite marks, again and
/// again, and undoes the crimps in the order: the crimping algorithm of Demaine and O'Rourke,
/// Geometric Folding Algorithms, chapter 12.
pub fn reduce(sectors: &Sectors) -> Outcome
    requires { ClosesUp sectors.now }
    ensures order { IfFolds result (λ order. IsLayerOrder sectors.now order) }
    ensures exact { IsFolds result ↔ Foldable sectors.now }
    ensures run { IfStuck result (λ run. IsBlockedRun sectors.now run) }
{
    let list = sectors.list();
    let mut entries = numbered(list);
    match layer_order(&mut entries) {
        Some(order) => Outcome::Folds(order),
        None => Outcome::Stuck(named_run(list, entries.as_slice())),
    }
}

//! Laws of the crimping, as the contracts of functions that do nothing. They speak of cyclic lists
//! of sectors, numbered from their first entry; with the entry of least first direction first,
//! these are the lists that `reduce` crimps. After Hull, Origametry, and Demaine and O'Rourke,
//! Geometric Folding Algorithms, chapter 12, on crimping a single vertex.
ghost use Rattle.std.specs.Prelude.{◌≡◌, ◌+◌, ◌≤◌, ◌↔◌, ◌⊎◌, List, ℕ, length};
ghost use Rattle.layers.specs.declared.sector_list.Sector.{Sector as AnySector};
ghost use Rattle.layers.specs.Star.{mountains, valleys};
ghost use Rattle.layers.specs.Sectors.{sector_at, AreSectors};
ghost use Rattle.crimp.specs.declared.outcome.Run.{Run as AnyRun};
ghost use Rattle.crimp.specs.BlockedRun.{IsBlockedRun};
ghost use Rattle.crimp.specs.Foldable.{Foldable};
ghost use Rattle.crimp.specs.Crimps.{CanCrimp, AllOpen, Stuck, Crimps, after_crimp};
ghost use Rattle.crimp.specs.StarLaw.{IsOrderOfStar, CrimpsToPair};

use layers::{Order, Star};

/// A crimp is sound: where a list of four sectors or more is foldable after the crimp of any least
/// one whose creases have opposite marks, it is foldable before it.
pub fn crimp_is_sound()
    ensures { (sectors : List AnySector) (i : ℕ) → CanCrimp sectors i → Foldable (after_crimp sectors i)
        → Foldable sectors }
{}

/// A layer order outlives a crimp: where a list is foldable before the crimp, it is foldable after it.
pub fn order_outlives_crimp()
    ensures { (sectors : List AnySector) (i : ℕ) → CanCrimp sectors i → AllOpen sectors → Foldable sectors
        → Foldable (after_crimp sectors i) }
{}

/// A list of four sectors or more that can't be crimped is not foldable.
pub fn stuck_has_no_order()
    ensures { (sectors : List AnySector) → 4 ≤ length sectors → AllOpen sectors → Stuck sectors
        → Foldable sectors → ⊥ }
{}

/// Crimps decide: in whatever order and however many, they lead from a foldable list to a foldable
/// one, and from one that is not to one that is not.
pub fn crimps_decide()
    ensures { (sectors ends : List AnySector) → AllOpen sectors → Crimps sectors ends
        → (Foldable sectors ↔ Foldable ends) }
{}

/// Two sectors that are foldable have one mark on their two creases.
pub fn pair_has_one_mark()
    ensures { (sectors : List AnySector) → length sectors ≡ 2 → Foldable sectors
        → (sector_at sectors 0).mark ≡ (sector_at sectors 1).mark }
{}

/// The sectors of a star have at most one blocked run: the definition leaves no choice.
pub fn blocked_run_is_unique()
    ensures { (sectors : List AnySector) (run other : AnyRun) → AreSectors sectors
        → IsBlockedRun sectors run → IsBlockedRun sectors other → run ≡ other }
{}

/// The crimping law of a star: where it has a layer order, its crimping ends with two sectors of
/// one mark, and its mountains and valleys differ by exactly two (Maekawa's theorem).
pub fn crimps(star: &Star, order: &Order)
    requires { IsOrderOfStar star.now order.now }
    ensures pair { CrimpsToPair star.now }
    ensures counts { (mountains star.now ≡ valleys star.now + 2)
        ⊎ (valleys star.now ≡ mountains star.now + 2) }
{}

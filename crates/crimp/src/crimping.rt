//! Crimping a list of sectors, and the order that comes back.
ghost use Rattle.std.specs.Prelude.{◌≡◌, ◌+◌, ◌<◌, ◌≤◌, ◌↔◌, ℕ, ℤ, [], ◌∷◌, length, IsTrue, IsSome, IfSome};
ghost use Rattle.std.specs.Prelude.{IfNone, true, false, cond, ◌==◌, ◌-◌};
ghost use Rattle.sheet.specs.declared.mark.Mark.{Mark as AnyMark};
ghost use Rattle.crimp.specs.Crimping.{Opposite};
ghost use Rattle.crimp.specs.Undoing.{IsUp, undone_up, undone_down};
ghost use Rattle.layers.specs.Sectors.{behind as behind_of};
ghost use Rattle.layers.specs.LayerOrder.{before as before_of, height};
ghost use Rattle.crimp.specs.Cycle.{Crimpable, IsCycle, Layered, entry_at, crimped_at, numbers_of, merged};
ghost use Rattle.crimp.specs.Cycle.{total, IsSomeCycle, IsPair, Ends};

use crate::entries::Entry;
use arrayvec::ArrayVec;
use layers::Mark;

/// The place before place `i` in a cyclic list of `count`.
pub(crate) fn before(count: usize, i: usize) -> usize
    requires { i < count }
    ensures value { result ≡ before_of count i }
    ensures within { result < count }
{
    if i == 0 { count - 1 } else { i - 1 }
}

/// The place behind place `i`.
fn behind(count: usize, i: usize) -> usize
    requires { i < count }
    ensures value { result ≡ behind_of count i }
    ensures within { result < count }
{
    if i + 1 == count { 0 } else { i + 1 }
}

fn opposite(first: Mark, second: Mark) -> bool
    ensures { IsTrue result ↔ Opposite first second }
{
    match (first, second) {
        (Mark::M, Mark::V) | (Mark::V, Mark::M) => true,
        _ => false,
    }
}

/// Whether the sector `number` is below the next one, whose crease has this mark.
fn is_up(number: u8, mark: Mark) -> bool
    ensures { IsTrue result ↔ IsUp number mark }
{
    match mark {
        Mark::V => number % 2 == 0,
        Mark::M => number % 2 == 1,
    }
}

/// Whether the entry at `i` is least.
pub(crate) fn is_least(entries: &[Entry], i: usize) -> bool
    requires { i < length entries.now }
    ensures { IsTrue result
        ↔ ((j : ℕ) → j < length entries.now
        → (entry_at entries.now i).angle ≤ (entry_at entries.now j).angle) }
{
    for other in entries {
        if other.angle < entries[i].angle {
            return false;
        }
    }
    true
}

/// Whether the entry at `i` can be crimped.
fn is_crimpable(entries: &[Entry], i: usize) -> bool
    requires four { 4 ≤ length entries.now }
    requires within { i < length entries.now }
    ensures { IsTrue result ↔ Crimpable entries.now i }
{
    is_least(entries, i) && opposite(entries[i].mark, entries[behind(entries.len(), i)].mark)
}

/// The first entry that can be crimped.
fn crimpable(entries: &[Entry]) -> Option<usize>
    requires { 4 ≤ length entries.now }
    ensures some { IfSome result (λ i. Crimpable entries.now i) }
    ensures first { IfSome result (λ i. (j : ℕ) → j < i → Crimpable entries.now j → ⊥) }
    ensures none { IfNone result ((j : ℕ) → j < length entries.now → Crimpable entries.now j → ⊥) }
{
    for i in 0..entries.len() {
        if is_crimpable(entries, i) {
            return Some(i);
        }
    }
    None
}

/// The one sector that the three become.
fn merge(p: &Entry, q: &Entry, r: &Entry) -> Entry
    requires least { q.now.angle ≤ p.now.angle }
    requires fits { p.now.angle + r.now.angle ≤ 255 }
    ensures { result ≡ merged p.now q.now r.now }
{
    Entry {
        number: p.number,
        mark: p.mark,
        angle: p.angle + r.angle - q.angle,
    }
}

/// Where the entry behind `i` stands once entry `i` is gone.
fn behind_gone(count: usize, i: usize) -> usize
    requires { i < count }
    ensures value { result ≡ cond (i + 1 == count) 0 i }
    ensures within { 2 ≤ count → result < count - 1 }
{
    if i + 1 == count { 0 } else { i }
}

/// Crimps the list at `i`: that entry and the one behind it go, and the one before it takes their place.
fn crimp(entries: &mut ArrayVec<Entry, 16>, i: usize)
    requires crimpable { Crimpable entries.old.items i }
    requires fits { (entry_at entries.old.items (before_of (length entries.old.items) i)).angle +
        (entry_at entries.old.items (behind_of (length entries.old.items) i)).angle ≤ 255 }
    ensures { entries.new.items ≡ crimped_at entries.old.items i }
{
    let count = entries.len();
    let first = before(count, i);
    let second = behind(count, i);
    let all = entries.as_slice();
    let one = merge(&all[first], &all[i], &all[second]);
    entries.as_mut_slice()[first] = one;
    entries.remove(i);
    entries.remove(behind_gone(count, i));
}

/// Puts the sectors q and r beside p.
fn put_back(order: &mut ArrayVec<u8, 16>, p: u8, q: u8, r: u8, up: bool)
    requires stands { height order.old.items p < length order.old.items }
    requires room { length order.old.items + 2 ≤ 16 }
    ensures up { up ≡ true → order.new.items ≡ undone_up order.old.items p q r }
    ensures down { up ≡ false → order.new.items ≡ undone_down order.old.items p q r }
{
    let at = height_of(order.as_slice(), p);
    if up {
        order.insert(at + 1, q);
        order.insert(at + 2, r);
    } else {
        order.insert(at, r);
        order.insert(at + 1, q);
    }
}

/// The height at which a sector stands.
fn height_of(order: &[u8], number: u8) -> usize
    ensures { result ≡ height order.now number }
{
    for (i, k) in order.iter().enumerate() {
        if *k == number {
            return i;
        }
    }
    order.len()
}

/// The order of two sectors, from below.
fn pair(low: u8, high: u8) -> ArrayVec<u8, 16>
    ensures { result.items ≡ low ∷ high ∷ [] }
{
    let mut order = ArrayVec::new();
    order.push(low);
    order.push(high);
    order
}

/// The order of two sectors whose creases have one mark.
fn base(entries: &[Entry]) -> Option<ArrayVec<u8, 16>>
    ensures some { IfSome result
        (λ order. (x : ℕ → ℤ) (mark : ℕ → AnyMark) → IsCycle x mark entries.now
        → Layered x mark (numbers_of entries.now) order.items) }
    ensures which { IsSome result ↔ IsPair entries.now }
{
    if entries.len() != 2 {
        return None;
    }
    let a = entries[0];
    let b = entries[1];
    if opposite(a.mark, b.mark) {
        return None;
    }
    Some(if is_up(a.number, a.mark) {
        pair(a.number, b.number)
    } else {
        pair(b.number, a.number)
    })
}

/// Crimps the list as far as it goes, and gives an order where two sectors with one mark are left.
pub(crate) fn fold_up(entries: &mut ArrayVec<Entry, 16>) -> Option<ArrayVec<u8, 16>>
    requires cycle { IsSomeCycle entries.old.items }
    requires total { total entries.old.items ≤ 16 }
    ensures some { IfSome result
        (λ order. (x : ℕ → ℤ) (mark : ℕ → AnyMark) → IsCycle x mark entries.old.items
        → Layered x mark (numbers_of entries.old.items) order.items) }
    ensures which { IsSome result ↔ IsPair entries.new.items }
    ensures ends { Ends entries.old.items entries.new.items }
{
    let count = entries.len();
    if count < 4 {
        return base(entries.as_slice());
    }
    let i = crimpable(entries.as_slice())?;
    let p = entries.as_slice()[before(count, i)].number;
    let q = entries.as_slice()[i];
    let r = entries.as_slice()[behind(count, i)].number;
    let up = is_up(p, q.mark);
    crimp(entries, i);
    let mut order = fold_up(entries)?;
    put_back(&mut order, p, q.number, r, up);
    Some(order)
}

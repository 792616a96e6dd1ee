//! The named run of a list that can't be crimped.
ghost use Rattle.std.specs.Prelude.{◌≡◌, ◌+◌, ◌<◌, ◌≤◌, ◌%◌, ◌↔◌, ◌⊎◌, ℕ, length, map, IsTrue};
ghost use Rattle.layers.specs.Sectors.{AreSectors, sector_at};
ghost use Rattle.crimp.specs.Cycle.{entry_at};
ghost use Rattle.crimp.specs.Entries.{sector_for, IsPartOf, IsLeastEntry, BeginsRun, IsStart};
ghost use Rattle.crimp.specs.BlockedRun.{IsNamedRun};

use crate::Run;
use crate::crimping::{before, is_least};
use crate::entries::Entry;
use layers::Sector;
use qroot2::Dir;

/// Whether the entry at `i` is least and the one before it is not.
fn begins_run(entries: &[Entry], i: usize) -> bool
    requires { i < length entries.now }
    ensures { IsTrue result ↔ BeginsRun entries.now i }
{
    is_least(entries, i) && !is_least(entries, before(entries.len(), i))
}

/// The first entry that begins a run, or the first of all where none does.
fn run_start(entries: &[Entry]) -> usize
    requires { 1 ≤ length entries.now }
    ensures within { result < length entries.now }
    ensures start { IsStart entries.now result }
{
    for i in 0..entries.len() {
        if begins_run(entries, i) {
            return i;
        }
    }
    0
}

/// How many neighbouring entries from `start` on are least.
fn run_length(entries: &[Entry], start: usize) -> usize
    requires within { start < length entries.now }
    requires few { length entries.now ≤ 16 }
    ensures all { result ≤ length entries.now }
    ensures least { (k : ℕ) → k < result → IsLeastEntry entries.now ((start + k) % length entries.now) }
    ensures ends { (result ≡ length entries.now)
        ⊎ (IsLeastEntry entries.now ((start + result) % length entries.now) → ⊥) }
{
    for count in 0..entries.len() {
        if !is_least(entries, (start + count) % entries.len()) {
            return count;
        }
    }
    entries.len()
}

/// The direction at which the entry at `i` begins.
fn first_of(sectors: &[Sector], entries: &[Entry], i: usize) -> Dir
    requires part { IsPartOf sectors.now entries.now }
    requires within { i < length entries.now }
    ensures { result ≡ (sector_at sectors.now (entry_at entries.now i).number).first }
{
    sectors[entries[i].number as usize].first
}

/// The run of neighbouring entries of least angle whose first entry has the least first direction.
pub(crate) fn named_run(sectors: &[Sector], entries: &[Entry]) -> Run
    requires star { AreSectors sectors.now }
    requires part { IsPartOf sectors.now entries.now }
    requires some { 1 ≤ length entries.now }
    requires few { length entries.now ≤ 16 }
    ensures { IsNamedRun (map (sector_for sectors.now) entries.now) result }
{
    let start = run_start(entries);
    let count = run_length(entries, start);
    Run {
        from: first_of(sectors, entries, start),
        to: first_of(sectors, entries, (start + count) % entries.len()),
        angle: entries[start].angle,
        count: count as u8,
    }
}

//! Ascending lists: what is in them once, where it stands, and what stands beside it.
#![tactic(auto)]

ghost use Rattle.std.specs.Prelude.{◌≡◌, ◌<◌, Contains, IfSome, IsNone, slice_index_or, length};
ghost use Rattle.std.specs.declared.cmp.Ordering.{Ordering};
ghost use Rattle.chains.specs.Chains.{Ascends};

/// Puts a list in ascending order with each element once. It takes no memory, and time n log n.
///
/// Values that compare as equal have to be equal, so that the copies that go are no loss.
pub fn ascending<T: Ord + Copy>(list: &mut Vec<T>)
    requires exact { (x y : T) → T.cmp x y ≡ Ordering.Equal → x ≡ y }
    ensures ascends { Ascends T.cmp list.new.items }
    ensures keeps { (x : T) → Contains list.old.items x → Contains list.new.items x }
    ensures adds_none { (x : T) → Contains list.new.items x → Contains list.old.items x }
{
    list.sort_unstable();
    list.dedup();
}

/// The place, counted from 0, of an element of an ascending list, found by halving.
pub fn place<T: Ord + Copy>(list: &[T], x: &T) -> usize
    requires exact { (x y : T) → T.cmp x y ≡ Ordering.Equal → x ≡ y }
    requires ascends { Ascends T.cmp list.now }
    requires contains { Contains list.now x.now }
    ensures within { result < length list.now }
    ensures value { slice_index_or list.now result x.now ≡ x.now }
{
    match list.binary_search(x) {
        Ok(i) => i,
        Err(i) => i,
    }
}

/// The place of an element of an ascending list, found by halving, or None where it is not there.
pub fn find<T: Ord + Copy>(list: &[T], x: &T) -> Option<usize>
    requires exact { (x y : T) → T.cmp x y ≡ Ordering.Equal → x ≡ y }
    requires ascends { Ascends T.cmp list.now }
    ensures some { IfSome result (λ i. (i < length list.now) × (slice_index_or list.now i x.now ≡ x.now)) }
    ensures none { IsNone result → ¬ Contains list.now x.now }
{
    match list.binary_search(x) {
        Ok(i) => Some(i),
        Err(_) => None,
    }
}

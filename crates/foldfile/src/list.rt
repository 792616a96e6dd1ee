//! Lists of JSON text.
ghost use Rattle.std.specs.Prelude.{◌≡◌, ℕ, List, [], ◌∷◌, ◌++◌, OnOk};
ghost use Rattle.std.specs.List.{join_by};
ghost use Rattle.foldfile.specs.FoldText.{list_text, rest_text};

use std::alloc::AllocError;

/// A way to write items of a list.
pub(crate) trait Spell<T> {
    /// The text of an item.
    ghost spelt: { T → List ℕ };

    /// Appends the text of an item.
    fn put(text: &mut Vec<u8>, item: &T) -> Result<(), AllocError>
        ensures { OnOk result (text.new.items ≡ text.old.items ++ spelt item.now) };
}

/// Appends the items in brackets, with a comma between each two.
pub(crate) fn put_list<T, S: Spell<T>>(text: &mut Vec<u8>, items: &[T]) -> Result<(), AllocError>
    ensures { OnOk result (text.new.items ≡ text.old.items ++ list_text S.spelt items.now) }
{
    text.push(b'[')?;
    put_items::<T, S>(text, items)?;
    text.push(b']')?;
    Ok(())
}

/// Appends the items with a comma between each two.
fn put_items<T, S: Spell<T>>(text: &mut Vec<u8>, items: &[T]) -> Result<(), AllocError>
    ensures { OnOk result (text.new.items ≡ text.old.items ++ join_by S.spelt (44 ∷ []) items.now) }
{
    match items {
        [] => Ok(()),
        [first, rest @ ..] => {
            S::put(text, first)?;
            put_rest::<T, S>(text, rest)
        }
    }
}

/// Appends each item behind a comma.
fn put_rest<T, S: Spell<T>>(text: &mut Vec<u8>, items: &[T]) -> Result<(), AllocError>
    ensures { OnOk result (text.new.items ≡ text.old.items ++ rest_text S.spelt items.now) }
{
    for item in items {
        text.push(b',')?;
        S::put(text, item)?;
    }
    Ok(())
}

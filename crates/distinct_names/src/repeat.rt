//! The first name that stands twice.
ghost use Rattle.std.specs.Prelude.{◌≡◌, ◌++◌, ◌∷◌, [], true, not, IfOk, map, bytes_eq};
ghost use Rattle.std.specs.List.{list_any};
ghost use Rattle.distinct_names.specs.Repeats.{IsFirstRepeat};

use crate::named::Named;
use indexmap::IndexSet;
use mars_base::Memory;
use std::alloc::Global;

/// Notes a name, and says whether it's new.
fn note<'a>(names: &mut IndexSet<&'a [u8]>, name: &'a [u8]) -> Result<bool, Memory>
    ensures fresh { IfOk result (λ fresh. fresh ≡ not (list_any (λ k. bytes_eq name.now k.now) names.old.keys)) }
    ensures keys { IfOk result (λ fresh. fresh ≡ true → map (λ k. k.now) names.new.keys ≡ map (λ k. k.now) names.old.keys ++ name.now ∷ []) }
{
    let (_, fresh) = names.insert_full(name)?;
    Ok(fresh)
}

/// The first entry whose name an earlier one has; None where all names differ. The names are kept in a
/// hash table, so the time grows with the entries.
pub fn first_repeat<T: Named>(alloc: Global, entries: &[T]) -> Result<Option<usize>, Memory>
    ensures { IfOk result (IsFirstRepeat (map T.name_of entries.now)) }
{
    let mut names: IndexSet<&[u8]> = IndexSet::new(alloc);
    for (place, entry) in entries.iter().enumerate() {
        if !note(&mut names, entry.name())? {
            return Ok(Some(place));
        }
    }
    Ok(None)
}

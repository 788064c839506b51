//! Names of two lists together.
ghost use Rattle.std.specs.Prelude.{◌≡◌, ◌+◌, Some, map, slice_get, length, IfOk, IsTrue};
ghost use Rattle.spec_value.specs.Datum.{Text as Characters, fold_case};
ghost use Rattle.world_checks.specs.Merge.{how_many, IsMerge, InOrder};

use moo_value::text::Text;
use std::alloc::{AllocError, Global};

/// Whether the entries have the names of the first list in lower case and those of the others, each as often as there. All entries are in
/// rising order of names.
pub fn is_merge<T>(
    alloc: Global,
    names: &[Text],
    others: &[(Text, T)],
    entries: &[(Text, T)],
) -> Result<bool, AllocError>
    ensures tells { IfOk result (λ b. IsTrue b → IsMerge (map fold_case names.now) (map (λ e. e.0) others.now) (map (λ e. e.0) entries.now)) }
    ensures finds { IfOk result (λ b. InOrder (map (λ e. e.0) others.now) → InOrder (map (λ e. e.0) entries.now) → IsMerge (map fold_case names.now) (map (λ e. e.0) others.now) (map (λ e. e.0) entries.now) → IsTrue b) }
{
    let sorted = sorted(alloc, names)?;
    Ok(are_merged(&sorted, others, entries))
}

fn sorted(alloc: Global, names: &[Text]) -> Result<Vec<Vec<u8>>, AllocError>
    ensures order { IfOk result (λ v. InOrder (map (λ n. n.items) v.items)) }
    ensures names { IfOk result (λ v. (t : Characters) → how_many t (map (λ n. n.items) v.items) ≡ how_many t (map fold_case names.now)) }
{
    let mut all = folded(alloc, names)?;
    all.sort_unstable();
    Ok(all)
}

// The names in lower case.
fn folded(alloc: Global, names: &[Text]) -> Result<Vec<Vec<u8>>, AllocError>
    ensures { IfOk result (λ v. map (λ n. n.items) v.items ≡ map fold_case names.now) }
{
    let mut all = Vec::with_capacity(alloc, names.len())?;
    for name in names {
        let lower = lower_case(alloc, name.as_str().as_bytes())?;
        all.push(lower)?;
    }
    Ok(all)
}

fn lower_case(alloc: Global, name: &[u8]) -> Result<Vec<u8>, AllocError>
    ensures { IfOk result (λ v. v.items ≡ fold_case name.now) }
{
    name.iter().map(|c| c.to_ascii_lowercase()).collect(alloc)
}

// Each entry takes the next of the names or of the others.
fn are_merged<T>(names: &[Vec<u8>], others: &[(Text, T)], entries: &[(Text, T)]) -> bool
    ensures tells { IsTrue result → IsMerge (map (λ n. n.items) names.now) (map (λ e. e.0) others.now) (map (λ e. e.0) entries.now) }
    ensures finds { InOrder (map (λ n. n.items) names.now) → InOrder (map (λ e. e.0) others.now) → InOrder (map (λ e. e.0) entries.now) → IsMerge (map (λ n. n.items) names.now) (map (λ e. e.0) others.now) (map (λ e. e.0) entries.now) → IsTrue result }
{
    let mut name = 0;
    let mut other = 0;
    for entry in entries {
        let next = entry.0.as_str().as_bytes();
        if is_name(names, name, next) {
            name += 1;
            continue;
        }
        if !is_entry(others, other, next) {
            return false;
        }
        other += 1;
    }
    name == names.len() && other == others.len()
}

fn is_name(names: &[Vec<u8>], index: usize, next: &[u8]) -> bool
    ensures tells { IsTrue result → slice_get (map (λ n. n.items) names.now) index ≡ Some next.now }
    ensures finds { slice_get (map (λ n. n.items) names.now) index ≡ Some next.now → IsTrue result }
{
    match names.get(index) {
        Some(name) => name.as_slice() == next,
        None => false,
    }
}

fn is_entry<T>(entries: &[(Text, T)], index: usize, next: &[u8]) -> bool
    ensures tells { IsTrue result → slice_get (map (λ e. e.0) entries.now) index ≡ Some next.now }
    ensures finds { slice_get (map (λ e. e.0) entries.now) index ≡ Some next.now → IsTrue result }
{
    match entries.get(index) {
        Some(entry) => entry.0.as_str().as_bytes() == next,
        None => false,
    }
}

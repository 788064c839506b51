//! The weight of values that weigh more than a list keeps.
ghost use Rattle.std.specs.Prelude.{◌≡◌, min};
ghost use Rattle.spec_value.specs.Datum.{of_list, weight, data_weight};

use crate::value::{Shown, Value};

// What a value weighs, or the greatest number where that is more. Its items are walked where it keeps less than it weighs.
#[cycle(weigh)]
#[cold]
pub(crate) fn counted(value: &Value) -> usize
    ensures { result ≡ min (weight value.now) usize.MAX }
{
    let kept = value.kept_weight();
    if kept < u32::MAX {
        return kept as usize;
    }
    match value.shown() {
        Shown::Text(text) => text.len().saturating_add(1),
        Shown::List(items) => counted_items(items).saturating_add(1),
        _ => 1,
    }
}

#[cycle(weigh)]
fn counted_items(items: &[Value]) -> usize
    ensures { result ≡ min (data_weight (of_list items.now)) usize.MAX }
{
    let mut sum = 0usize;
    for item in items {
        sum = sum.saturating_add(counted(item));
    }
    sum
}

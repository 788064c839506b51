//! Laws of values: what operators and functions answer for values is a value.
ghost use Rattle.spec_values_kept.specs.Values.{UnaryGives, BinaryGives, NestsByWeight, ShortByWeight, IndexesGive, IndexesKeep, RangesGive, RangesKeep, ItemsPut, RangesPut, ScattersGive, ScattersKeep, CallsGive};

/// Of operators with one and two operands.
#[tactic(auto, using(crate::proofs::ValuesGiven::unary_gives, crate::proofs::ValuesGiven::binary_gives))]
pub fn operating()
    ensures unary { UnaryGives }
    ensures binary { BinaryGives }
{}

/// Of items and ranges that are read, or replaced.
#[tactic(auto, using(crate::proofs::ValuesGiven::indexes_give, crate::proofs::ValuesGiven::ranges_give, crate::proofs::ValuesGiven::items_put, crate::proofs::ValuesGiven::ranges_put))]
pub fn indexing()
    ensures items { IndexesGive }
    ensures ranges { RangesGive }
    ensures item_put { ItemsPut }
    ensures range_put { RangesPut }
{}

/// Of lists that are spread among variables.
#[tactic(auto, using(crate::proofs::ValuesGiven::scatters_give))]
pub fn scattering()
    ensures { ScattersGive }
{}

/// No list nests deeper than it is heavy, or has more items; parts of a value that is kept are such values.
#[tactic(auto, using(crate::proofs::Nesting::nests_by_weight, crate::proofs::Nesting::short_by_weight, crate::proofs::ValuesGiven::indexes_keep, crate::proofs::ValuesGiven::ranges_keep, crate::proofs::ValuesGiven::scatters_keep))]
pub fn nesting()
    ensures weights { NestsByWeight }
    ensures counts { ShortByWeight }
    ensures items { IndexesKeep }
    ensures ranges { RangesKeep }
    ensures shares { ScattersKeep }
{}

/// Of calls of functions of values alone.
#[tactic(auto, using(crate::proofs::ValuesGiven::calls_give))]
pub fn calling()
    ensures { CallsGive }
{}

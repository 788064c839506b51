//! What a command has to name for a verb, as texts: objects, and a preposition by all members of its set.
ghost use Rattle.std.specs.Prelude.{◌≡◌};
ghost use Rattle.spec_moo.specs.Natives.Verbs.{object_part_text as object_part_text_of, preposition_text as preposition_text_of};
ghost use Rattle.view.specs.Parts.{object_part_of, preposition_part_of};

use view::verb::{ObjectPart, PrepositionPart};

/// `none`, `any` or `this`
pub fn object_part_text(part: ObjectPart) -> &'static str
    ensures { result.now ≡ object_part_text_of (object_part_of part) }
{
    match part {
        ObjectPart::Absent => "none",
        ObjectPart::Any => "any",
        ObjectPart::This => "this",
    }
}

/// `none`, `any`, or the prepositions of a set with slashes between them
#[tactic(auto, using(crate::proofs::Specifiers::no_set))]
pub fn preposition_text(part: PrepositionPart) -> &'static str
    ensures { result.now ≡ preposition_text_of (preposition_part_of part) }
{
    match part {
        PrepositionPart::Absent => "none",
        PrepositionPart::Any => "any",
        PrepositionPart::Set(0) => "with/using",
        PrepositionPart::Set(1) => "at/to",
        PrepositionPart::Set(2) => "in front of",
        PrepositionPart::Set(3) => "in/inside/into",
        PrepositionPart::Set(4) => "on top of/on/onto/upon",
        PrepositionPart::Set(5) => "out of/from inside/from",
        PrepositionPart::Set(6) => "over",
        PrepositionPart::Set(7) => "through",
        PrepositionPart::Set(8) => "under/underneath/beneath",
        PrepositionPart::Set(9) => "behind",
        PrepositionPart::Set(10) => "beside",
        PrepositionPart::Set(11) => "for/about",
        PrepositionPart::Set(12) => "is",
        PrepositionPart::Set(13) => "as",
        PrepositionPart::Set(14) => "off/off of",
        PrepositionPart::Set(_) => "",
    }
}

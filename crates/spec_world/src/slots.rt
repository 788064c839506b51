//! Laws of the change of one slot.
ghost use Rattle.spec_world.specs.Laws.{SlotIsSet, OtherNamesStay, ObjectStays, OtherObjectsStay, WorldStays};

/// A slot reads as it was written, and every other facet of the world is as before.
#[tactic(auto, using(crate::proofs::SlotChanges::slot_is_set, crate::proofs::SlotChanges::other_names_stay, crate::proofs::SlotChanges::object_stays, crate::proofs::SlotChanges::other_objects_stay, crate::proofs::SlotChanges::world_stays))]
pub fn changes()
    ensures set { SlotIsSet }
    ensures names { OtherNamesStay }
    ensures object { ObjectStays }
    ensures objects { OtherObjectsStay }
    ensures world { WorldStays }
{}

ghost use Rattle.spec_world.specs.Laws.{SlotKeeps};

/// A world stays well formed where a slot takes another value.
pub fn keeping()
    ensures { SlotKeeps }
{}

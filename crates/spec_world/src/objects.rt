//! Laws of the changes of objects: a world's families, whereabouts and properties agree with one another afterwards.
ghost use Rattle.spec_world.specs.ObjectLaws.{AttributesKeep, ContentKeeps, MovedKeeps};

/// An object gets other attributes or verbs, a slot another content, or an object goes over to another place.
pub fn attributes()
    ensures attributes { AttributesKeep }
    ensures content { ContentKeeps }
    ensures places { MovedKeeps }
{}

ghost use Rattle.spec_world.specs.ObjectLaws.{PropertyAddedKeeps, PropertyDeletedKeeps};

/// A property comes, or goes, on an object and on all below it.
pub fn properties()
    ensures added { PropertyAddedKeeps }
    ensures deleted { PropertyDeletedKeeps }
{}

ghost use Rattle.spec_world.specs.ObjectLaws.{CreatedKeeps, ReparentedKeeps, RecycledKeeps};

/// An object is created, gets another parent, or is recycled.
pub fn families()
    ensures created { CreatedKeeps }
    ensures reparented { ReparentedKeeps }
    ensures recycled { RecycledKeeps }
{}

//! Sound worlds stay sound.
ghost use Rattle.std.specs.Prelude.{ℕ, ℤ};
ghost use Rattle.spec_value.specs.Datum.{Datum, Text};
ghost use Rattle.spec_world.specs.World.{World};
ghost use Rattle.spec_world.specs.Questions.{apply, new_value, new_next};
ghost use Rattle.view.specs.Sound.{IsSound};
ghost use Rattle.world.specs.Objects.{AddingKeeps};

/// Another value in a slot leaves a sound world sound, and so does a next number that is no less.
pub fn changes()
    ensures values { (o : ℤ) (p : Text) (v : Datum) (w : World) → IsSound w → IsSound (apply (new_value o p v) w) }
    ensures next { (n : ℕ) (w : World) → IsSound w → IsSound (apply (new_next n) w) }
{}

/// An object that stands alone comes into a sound world, which stays sound.
pub fn additions()
    ensures { AddingKeeps }
{}

//! Built-in functions, as tasks call them.
ghost use Rattle.std.specs.Prelude.{◌≡◌, IfOk, OnOk};
ghost use Rattle.spec_moo.specs.Natives.{native as native_does, native_turn};
ghost use Rattle.rules.specs.Lines.{AreAgreeing};
ghost use Rattle.view.specs.Law.{Goes, Lasts};
ghost use Rattle.moo_task.specs.Frames.{native_of};
ghost use Rattle.local_code.specs.Scenes.{caller_of, scene_at, effect_at};

use moo_task::deeds::Deeds;
use moo_task::effect::NativeEffect;
use moo_task::native::Native;
use moo_task::room::Room;
use moo_task::running::Running;
use moo_value::text::Text;
use moo_value::value::Value;
use std::alloc::{AllocError, Global};
use view::law::View;

/// Built-in functions over a view. What they change besides the world are the deeds of the step.
pub trait Natives {
    /// A call of a function by its name, from the verb that runs.
    fn call<V: View>(
        &mut self,
        alloc: Global,
        view: &mut V,
        deeds: &mut Deeds,
        task: &Running,
        name: &Text,
        arguments: Vec<Value>,
    ) -> Result<NativeEffect, AllocError>
        requires home { V.holds view.old (V.home view.old) }
        requires well_formed { AreAgreeing V.holds V.now view.old }
        ensures lasts { Lasts V.holds V.home V.anchor view.old view.new result }
        ensures does { IfOk result (λ e. Goes V.holds V.now view.old view.new (λ before after.
            native_does (scene_at deeds.old before task.now) (caller_of task.now) name.now arguments.items ≡ effect_at e deeds.new after task.now)) }
        ensures well_formed { OnOk result (AreAgreeing V.holds V.now view.new) };

    /// A function goes on that waited for the value of a verb, for the verb that now runs.
    fn resume<V: View>(
        &mut self,
        alloc: Global,
        view: &mut V,
        deeds: &mut Deeds,
        task: &Running,
        native: Native,
        value: Value,
    ) -> Result<NativeEffect, AllocError>
        requires home { V.holds view.old (V.home view.old) }
        requires well_formed { AreAgreeing V.holds V.now view.old }
        ensures lasts { Lasts V.holds V.home V.anchor view.old view.new result }
        ensures does { IfOk result (λ e. Goes V.holds V.now view.old view.new (λ before after.
            native_turn (scene_at deeds.old before task.now) (caller_of task.now) (native_of native) value ≡ effect_at e deeds.new after task.now)) }
        ensures well_formed { OnOk result (AreAgreeing V.holds V.now view.new) };

    /// Room for a task that begins, left by one that has ended, or none yet.
    fn take_room(&mut self, alloc: Global) -> Room;

    /// The room of a task that has ended, for one that begins.
    fn leave_room(&mut self, room: Room);
}

//! How steps finish.
ghost use Rattle.std.specs.Prelude.{◌≡◌, ℕ};
ghost use Rattle.spec_world.specs.World.{World};
ghost use Rattle.spec_world.specs.Step.{Step as StepOf};
ghost use Rattle.spec_moo.specs.Steps.Events.{nothing_runs};
ghost use Rattle.spec_moo.specs.Steps.Outcomes.{idle_with};
ghost use Rattle.moo_task.specs.Deeds.{scene_of};
ghost use Rattle.moo_task.specs.declared.deeds.Deeds.{Deeds};
ghost use Rattle.task_step.specs.OutcomeView.{result_of};
ghost use Rattle.steps.specs.Opens.{IsOpening};
ghost use Rattle.steps.specs.StepsPerformed.{came_to_of};

use task_step::outcome::Ending;

/// How a step finished. What else it did, its deeds tell.
#[derive(Drop)]
pub struct Finish {
    /// How its task ended, or why none ran.
    pub ending: Ending,
    /// The ticks that its task used.
    pub ticks: u32,
}

impl Finish {
    /// No task ran, and nothing was done.
    #[inline(always)]
    pub fn idle(ending: Ending) -> Finish
        ensures { (s : StepOf) (d : Deeds) → IsOpening s d → (w : World) → came_to_of d result w ≡ (w, idle_with (result_of ending)) }
    {
        Finish { ending, ticks: 0 }
    }

    /// No task ran.
    #[inline(always)]
    pub fn nothing() -> Finish
        ensures { (d : Deeds) (w : World) (t : ℕ) → nothing_runs (scene_of d w t) ≡ came_to_of d result w }
    {
        Finish {
            ending: Ending::Nothing,
            ticks: 0,
        }
    }
}

//! Lines that running code tells.
ghost use Rattle.std.specs.Prelude.{◌≡◌, ℕ, [], ◌∷◌, IfOk};
ghost use Rattle.spec_value.specs.Datum.{object as object_of, text as text_value};
ghost use Rattle.spec_world.specs.World.{World};
ghost use Rattle.spec_moo.specs.Natives.Tasks.{notify_row};
ghost use Rattle.moo_task.specs.Deeds.{scene_of};
ghost use Rattle.moo_task.specs.Effects.{effect_of};
ghost use Rattle.moo_task.specs.declared.effect.NativeEffect.TheVariants.{Answers};
ghost use Rattle.view.specs.Law.{Lasts, Tells};
ghost use Rattle.builtins.specs.BuiltinsLinksActing.{Acts};
ghost use Rattle.builtins.specs.Lines.{line_sent};

use moo_task::deeds::{Deeds, Told};
use moo_value::answer::Answer;
use moo_value::error::MooError;
use moo_value::text::Text;
use moo_value::value::Value;
use rules::permissions::act::Act;
use rules::permissions::may::may;
use std::alloc::AllocError;
use step_deeds::links::connection;
use view::law::View;

/// How many lines of running code a step keeps.
pub const MOST_LINES: u32 = 4096;

/// `notify`: a line for the link that an object has, if it has one. `E_PERM` where the programmer may not act as it, `E_QUOTA` where
/// the step keeps no more lines.
pub fn notify<V: View>(
    view: &mut V,
    deeds: &mut Deeds,
    programmer: i32,
    object: i32,
    line: Text,
) -> Result<Answer, AllocError>
    requires home { V.holds view.old (V.home view.old) }
    ensures lasts { Lasts V.holds V.home V.anchor view.old view.new result }
    ensures left { IfOk result (λ a. Tells V.holds V.now view.old view.new
        (λ w. Acts (λ s c. notify_row s c (object_of object ∷ text_value line ∷ [])) deeds.old w programmer (Answers a) deeds.new w)) }
{
    let allowed = may(view, programmer, &Act::ActAs(object))?;
    if !allowed {
        return Ok(Err(MooError::PermissionDenied));
    }
    let link = connection(view, object)?;
    let answer = send_line(deeds, link, line)?;
    Ok(answer)
}

// A line for a connection, or for none.
fn send_line(deeds: &mut Deeds, link: Option<i32>, line: Text) -> Result<Answer, AllocError>
    ensures { IfOk result (λ a. (w : World) (t : ℕ) → line_sent (scene_of deeds.old w t) line link ≡ effect_of (Answers a) (scene_of deeds.new w t)) }
{
    let Some(connection) = link else {
        return Ok(Ok(Value::integer(1)));
    };
    if deeds.lines_kept >= MOST_LINES {
        return Ok(Err(MooError::LimitExceeded));
    }
    deeds.output.push(Told {
        player: connection,
        line,
    })?;
    deeds.lines_kept += 1;
    Ok(Ok(Value::integer(1)))
}

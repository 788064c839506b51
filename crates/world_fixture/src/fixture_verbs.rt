//! The verbs of the fixture: of its system object, of its room and of its box.
ghost use Rattle.std.specs.Prelude.{◌≡◌, [], ◌∷◌, ◌++◌, IfOk, OnOk};
ghost use Rattle.spec_fixture.specs.Fixture as meant;

use crate::room_commands;
use crate::verbs::{command, single};
use std::alloc::{AllocError, Global};
use view::verb::{ObjectPart, PrepositionPart, Verb, Verbs};

// The verbs of the system object.
pub(crate) fn system_verbs(alloc: Global) -> Result<Verbs, AllocError>
    ensures { IfOk result (λ vs. vs ≡ meant.system.verbs) }
{
    single(alloc, login(alloc)?)
}

#[tactic(auto, unfolding(spec_fixture::specs::Opened::opened))]
fn login(alloc: Global) -> Result<Verb, AllocError>
    ensures { IfOk result (λ v. v ≡ meant.login_verb) }
{
    let text =
        "if (length(args) == 2 && args[1] == \"connect\") return toobj(args[2]); endif notify(player, \"Type connect #n\");";
    let mut verb = command(alloc, "do_login_command", text)?;
    verb.direct = ObjectPart::This;
    verb.indirect = ObjectPart::This;
    Ok(verb)
}

// The verbs of the room.
pub(crate) fn room_verbs(alloc: Global) -> Result<Verbs, AllocError>
    ensures { IfOk result (λ vs. vs ≡ meant.room_verbs) }
{
    let mut verbs = Vec::with_capacity(alloc, 14)?;
    verbs.push(accept(alloc)?)?;
    push_counting(alloc, &mut verbs)?;
    push_queueing(alloc, &mut verbs)?;
    verbs.push(room_commands::look(alloc)?)?;
    push_waiting(alloc, &mut verbs)?;
    verbs.push(eval(alloc)?)?;
    Verbs::new(alloc, verbs)
}

fn push_counting(alloc: Global, verbs: &mut Vec<Verb>) -> Result<(), AllocError>
    ensures { OnOk result (verbs.new.items ≡ verbs.old.items ++ (meant.count_verb ∷ meant.grow_verb ∷ meant.call_verb ∷ [])) }
{
    verbs.push(room_commands::count(alloc)?)?;
    verbs.push(room_commands::grow(alloc)?)?;
    verbs.push(room_commands::call(alloc)?)?;
    Ok(())
}

fn push_queueing(alloc: Global, verbs: &mut Vec<Verb>) -> Result<(), AllocError>
    ensures { OnOk result (verbs.new.items ≡ verbs.old.items ++ (meant.plot_verb ∷ meant.dice_verb ∷ meant.sum_verb ∷ meant.spin_verb ∷ [])) }
{
    verbs.push(room_commands::plot(alloc)?)?;
    verbs.push(room_commands::dice(alloc)?)?;
    verbs.push(room_commands::sum(alloc)?)?;
    verbs.push(room_commands::spin(alloc)?)?;
    Ok(())
}

fn push_waiting(alloc: Global, verbs: &mut Vec<Verb>) -> Result<(), AllocError>
    ensures { OnOk result (verbs.new.items ≡ verbs.old.items ++ (meant.hold_verb ∷ meant.wake_verb ∷ meant.storm_verb ∷ meant.tell_verb ∷ [])) }
{
    verbs.push(room_commands::hold(alloc)?)?;
    verbs.push(room_commands::wake(alloc)?)?;
    verbs.push(room_commands::storm(alloc)?)?;
    verbs.push(room_commands::tell(alloc)?)?;
    Ok(())
}

#[tactic(auto, unfolding(spec_fixture::specs::Opened::opened))]
fn accept(alloc: Global) -> Result<Verb, AllocError>
    ensures { IfOk result (λ v. v ≡ meant.accept_verb) }
{
    let mut verb = command(alloc, "accept", "return 1;")?;
    verb.direct = ObjectPart::This;
    verb.indirect = ObjectPart::This;
    Ok(verb)
}

#[tactic(auto, unfolding(spec_fixture::specs::Opened::opened))]
fn eval(alloc: Global) -> Result<Verb, AllocError>
    ensures { IfOk result (λ v. v ≡ meant.eval_verb) }
{
    let text = "return eval(\"return \" + argstr + \";\")[2];";
    let mut verb = command(alloc, "eval", text)?;
    verb.direct = ObjectPart::Any;
    verb.preposition = PrepositionPart::Any;
    verb.indirect = ObjectPart::Any;
    Ok(verb)
}

// The verbs of the box.
pub(crate) fn box_verbs(alloc: Global) -> Result<Verbs, AllocError>
    ensures { IfOk result (λ vs. vs ≡ meant.box_verbs) }
{
    let mut verbs = Vec::with_capacity(alloc, 2)?;
    verbs.push(box_look(alloc)?)?;
    verbs.push(put(alloc)?)?;
    Verbs::new(alloc, verbs)
}

#[tactic(auto, unfolding(spec_fixture::specs::Opened::opened))]
fn box_look(alloc: Global) -> Result<Verb, AllocError>
    ensures { IfOk result (λ v. v ≡ meant.box_look_verb) }
{
    let mut verb = command(alloc, "l*ook", "return prepstr;")?;
    verb.preposition = PrepositionPart::Set(2);
    verb.indirect = ObjectPart::This;
    Ok(verb)
}

#[tactic(auto, unfolding(spec_fixture::specs::Opened::opened))]
fn put(alloc: Global) -> Result<Verb, AllocError>
    ensures { IfOk result (λ v. v ≡ meant.put_verb) }
{
    let mut verb = command(alloc, "put", "return {dobjstr, prepstr, iobj};")?;
    verb.direct = ObjectPart::Any;
    verb.preposition = PrepositionPart::Set(3);
    verb.indirect = ObjectPart::This;
    Ok(verb)
}

//! The commands of the fixture's room that are one word.
ghost use Rattle.std.specs.Prelude.{◌≡◌, IfOk};
ghost use Rattle.spec_fixture.specs.Fixture as meant;

use crate::verbs::command;
use std::alloc::{AllocError, Global};
use view::verb::Verb;

#[tactic(auto, unfolding(spec_fixture::specs::Opened::opened))]
pub(crate) fn count(alloc: Global) -> Result<Verb, AllocError>
    ensures { IfOk result (λ v. v ≡ meant.count_verb) }
{
    command(alloc, "count", "this.n = this.n + 1; return this.n;")
}

#[tactic(auto, unfolding(spec_fixture::specs::Opened::opened))]
pub(crate) fn grow(alloc: Global) -> Result<Verb, AllocError>
    ensures { IfOk result (λ v. v ≡ meant.grow_verb) }
{
    command(
        alloc,
        "grow",
        "add_verb(#7, {#2, \"xd\", \"hum\"}, {\"this\", \"none\", \"this\"});",
    )
}

#[tactic(auto, unfolding(spec_fixture::specs::Opened::opened))]
pub(crate) fn call(alloc: Global) -> Result<Verb, AllocError>
    ensures { IfOk result (λ v. v ≡ meant.call_verb) }
{
    command(alloc, "call", "return `#6:hum() ! E_VERBNF => \"none\"';")
}

#[tactic(auto, unfolding(spec_fixture::specs::Opened::opened))]
pub(crate) fn plot(alloc: Global) -> Result<Verb, AllocError>
    ensures { IfOk result (λ v. v ≡ meant.plot_verb) }
{
    command(
        alloc,
        "plot",
        "fork b (0) notify(player, \"B\"); endfork fork (0) kill_task(b); endfork",
    )
}

#[tactic(auto, unfolding(spec_fixture::specs::Opened::opened))]
pub(crate) fn dice(alloc: Global) -> Result<Verb, AllocError>
    ensures { IfOk result (λ v. v ≡ meant.dice_verb) }
{
    command(
        alloc,
        "dice",
        "this.n = this.n + 1; r = random(6); fork (0) endfork fork (1) endfork return {r, ticks_left()};",
    )
}

#[tactic(auto, unfolding(spec_fixture::specs::Opened::opened))]
pub(crate) fn sum(alloc: Global) -> Result<Verb, AllocError>
    ensures { IfOk result (λ v. v ≡ meant.sum_verb) }
{
    command(alloc, "sum", "return 1 + 2 * 3;")
}

#[tactic(auto, unfolding(spec_fixture::specs::Opened::opened))]
pub(crate) fn spin(alloc: Global) -> Result<Verb, AllocError>
    ensures { IfOk result (λ v. v ≡ meant.spin_verb) }
{
    command(
        alloc,
        "spin",
        "try while (1) endwhile finally notify(player, \"done\"); endtry",
    )
}

#[tactic(auto, unfolding(spec_fixture::specs::Opened::opened))]
pub(crate) fn look(alloc: Global) -> Result<Verb, AllocError>
    ensures { IfOk result (λ v. v ≡ meant.look_verb) }
{
    command(alloc, "l*ook", "return verb;")
}

#[tactic(auto, unfolding(spec_fixture::specs::Opened::opened))]
pub(crate) fn hold(alloc: Global) -> Result<Verb, AllocError>
    ensures { IfOk result (λ v. v ≡ meant.hold_verb) }
{
    command(alloc, "hold", "return {1, suspend(), 3};")
}

#[tactic(auto, unfolding(spec_fixture::specs::Opened::opened))]
pub(crate) fn wake(alloc: Global) -> Result<Verb, AllocError>
    ensures { IfOk result (λ v. v ≡ meant.wake_verb) }
{
    command(alloc, "wake", "return resume(1, 5);")
}

#[tactic(auto, unfolding(spec_fixture::specs::Opened::opened))]
pub(crate) fn storm(alloc: Global) -> Result<Verb, AllocError>
    ensures { IfOk result (λ v. v ≡ meant.storm_verb) }
{
    command(
        alloc,
        "storm",
        "for i in [1..65] fork (0) i = 0; endfork endfor",
    )
}

#[tactic(auto, unfolding(spec_fixture::specs::Opened::opened))]
pub(crate) fn tell(alloc: Global) -> Result<Verb, AllocError>
    ensures { IfOk result (λ v. v ≡ meant.tell_verb) }
{
    command(alloc, "tell", "notify(#4, \"hi\");")
}

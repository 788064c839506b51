//! Players that are connected.
ghost use Rattle.std.specs.Prelude.{◌≡◌, ℤ, [], map, IfOk};
ghost use Rattle.std.specs.Ordering.{int_cmp};
ghost use Rattle.std.specs.BTreeSet.{IsFromIterResult};
ghost use Rattle.spec_value.specs.Datum.{object as object_of};
ghost use Rattle.spec_moo.specs.Natives.Tasks.{connected_players_row};
ghost use Rattle.moo_value.specs.Answers.{answer_of};
ghost use Rattle.view.specs.Law.{Lasts, Tells};
ghost use Rattle.rules.specs.Lines.{AreAgreeing};
ghost use Rattle.builtins_view.specs.Said.{Says};

use moo_value::answer::Answer;
use moo_value::value::Value;
use std::alloc::{AllocError, Global};
use std::collections::BTreeSet;
use view::law::View;
use view::readers::read_connected;

/// `connected_players`: the players that have a link, in the order of their numbers.
pub fn connected_players<V: View>(alloc: Global, view: &mut V) -> Result<Answer, AllocError>
    requires well_formed { AreAgreeing V.holds V.now view.old }
    ensures lasts { Lasts V.holds V.home V.anchor view.old view.new result }
    ensures left { IfOk result (λ a. Tells V.holds V.now view.old view.new
        (λ w. (who : ℤ) → Says (λ s c. connected_players_row s c []) w who (answer_of a))) }
{
    let players = read_connected(view)?;
    let numbers = in_order(alloc, players.as_slice())?;
    let items = objects(alloc, &numbers)?;
    let value = Value::list(items)?;
    Ok(Ok(value))
}

// The players of these connections.
fn in_order(alloc: Global, players: &[(i32, i32)]) -> Result<BTreeSet<i32>, AllocError>
    ensures { IfOk result (λ s. IsFromIterResult int_cmp (map (λ p. p.1) players.now) s) }
{
    players.iter().map(|player| player.1).collect(alloc)
}

fn objects(alloc: Global, numbers: &BTreeSet<i32>) -> Result<Vec<Value>, AllocError>
    ensures { IfOk result (λ vs. vs.items ≡ map object_of numbers.now.keys) }
{
    numbers
        .iter()
        .map(|number| Value::object(*number))
        .collect(alloc)
}

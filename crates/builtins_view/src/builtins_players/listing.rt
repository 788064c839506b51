//! All players.
ghost use Rattle.std.specs.Prelude.{◌≡◌, ◌++◌, ◌≤◌, ℤ, [], map, IfOk, OnOk};
ghost use Rattle.spec_value.specs.Datum.{object as object_of};
ghost use Rattle.spec_world.specs.Questions.{header_at};
ghost use Rattle.spec_moo.specs.Natives.Objects.{players_row};
ghost use Rattle.moo_value.specs.Answers.{answer_of};
ghost use Rattle.rules.specs.Lines.{AreAgreeing};
ghost use Rattle.view.specs.Law.{Lasts, Tells};
ghost use Rattle.builtins_view.specs.Said.{Says};
ghost use Rattle.builtins_view.specs.Counting.{numbers_to, player_in, players_from};

use moo_value::answer::Answer;
use moo_value::value::Value;
use std::alloc::{AllocError, Global};
use view::law::View;
use view::readers::{read_greatest, read_header};

/// `players`: the players, in the order of their numbers. Each number that an object has had is asked for, so this takes time and
/// reads in proportion to the greatest of them.
pub fn players<V: View>(alloc: Global, view: &mut V) -> Result<Answer, AllocError>
    requires well_formed { AreAgreeing V.holds V.now view.old }
    ensures lasts { Lasts V.holds V.home V.anchor view.old view.new result }
    ensures left { IfOk result (λ a. Tells V.holds V.now view.old view.new
        (λ w. (who : ℤ) → Says (λ s c. players_row s c []) w who (answer_of a))) }
{
    let greatest = read_greatest(view)?;
    let count = count_of(greatest);
    let players = among(alloc, view, count)?;
    let items = objects(alloc, players.as_slice())?;
    let value = Value::list(items)?;
    Ok(Ok(value))
}

// How many numbers there are from 0 to the greatest.
fn count_of(greatest: i32) -> u32
    ensures value { result ≡ numbers_to greatest }
    ensures within { result ≤ 2147483648 }
{
    if greatest < 0 {
        return 0;
    }
    greatest as u32 + 1
}

// The players among the first so many numbers.
fn among<V: View>(alloc: Global, view: &mut V, count: u32) -> Result<Vec<i32>, AllocError>
    requires home { V.holds view.old (V.home view.old) }
    requires within { count ≤ 2147483648 }
    ensures lasts { Lasts V.holds V.home V.anchor view.old view.new result }
    ensures left { IfOk result (λ os. Tells V.holds V.now view.old view.new (λ w. players_from w 0 count ≡ os.items)) }
{
    let mut players = Vec::new(alloc);
    for number in 0..count {
        add_player(view, &mut players, number as i32)?;
    }
    Ok(players)
}

// An object is put behind players if it is there and is one.
fn add_player<V: View>(view: &mut V, players: &mut Vec<i32>, object: i32) -> Result<(), AllocError>
    ensures lasts { Lasts V.holds V.home V.anchor view.old view.new result }
    ensures left { OnOk result (Tells V.holds V.now view.old view.new
        (λ w. players.new.items ≡ players.old.items ++ player_in object (header_at w object))) }
{
    let Some(header) = read_header(view, object)? else {
        return Ok(());
    };
    if header.is_player {
        players.push(object)?;
    }
    Ok(())
}

fn objects(alloc: Global, numbers: &[i32]) -> Result<Vec<Value>, AllocError>
    ensures { IfOk result (λ vs. vs.items ≡ map object_of numbers.now) }
{
    numbers
        .iter()
        .map(|number| Value::object(*number))
        .collect(alloc)
}

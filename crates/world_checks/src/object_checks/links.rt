//! Whether the links of a draft are those of a well-formed world.
ghost use Rattle.std.specs.Prelude.{◌≡◌, ◌-ℤ◌, pos, neg_ℤ, map, Some, IfOk, IsTrue};
ghost use Rattle.std.specs.Ordering.{int_eq};
ghost use Rattle.std.specs.List.{All};
ghost use Rattle.spec_value.specs.Table.{at};
ghost use Rattle.spec_world.specs.World.{Link as Meant};
ghost use Rattle.spec_world.specs.WellFormed.{OfEachLink, is_connection, link_fits, on_object};
ghost use Rattle.spec_world.specs.Agreeing.{ObjectsAgree, LinksAgree};
ghost use Rattle.world_checks.specs.Persons.{person_of};

use crate::table_checks::once::is_once;
use crate::table_checks::rise::rise;
use std::alloc::{AllocError, Global};
use view::link::Link;
use world::draft::Draft;

const LAST_CONNECTION: i32 = 999_999;

/// Whether the links of a draft are those of a well-formed world: each of a connection, and of a player or of nobody yet, and no two of
/// one person.
#[tactic(auto, using(crate::proofs::Linked::links_rise))]
pub fn links_are_sound(alloc: Global, draft: &Draft) -> Result<bool, AllocError>
    ensures tells { IfOk result (λ b. IsTrue b → LinksAgree draft.now) }
    ensures finds { IfOk result (λ b. ObjectsAgree draft.now → LinksAgree draft.now → IsTrue b) }
{
    let listed = draft.link_numbers()?;
    let numbers = listed.as_slice();
    if !rise(numbers) {
        return Ok(false);
    }
    if !all_fit(draft, numbers) {
        return Ok(false);
    }
    let persons = persons(alloc, draft, numbers)?;
    is_once(alloc, &persons)
}

fn all_fit(draft: &Draft, numbers: &[i32]) -> bool
    ensures tells { IsTrue result → All (λ c. (k : Meant) → at draft.now.links c ≡ Some k → IsTrue (link_fits draft.now c k)) numbers.now }
    ensures finds { OfEachLink draft.now link_fits → IsTrue result }
{
    for number in numbers {
        if !fits_at(draft, *number) {
            return false;
        }
    }
    true
}

fn fits_at(draft: &Draft, number: i32) -> bool
    ensures tells { IsTrue result → (k : Meant) → at draft.now.links number ≡ Some k → IsTrue (link_fits draft.now number k) }
    ensures finds { ((k : Meant) → at draft.now.links number ≡ Some k → IsTrue (link_fits draft.now number k)) → IsTrue result }
{
    match draft.link(number) {
        Some(link) => fits(draft, number, link),
        None => true,
    }
}

#[tactic(auto, using(crate::proofs::Linked::fits_connection, crate::proofs::Linked::fits_player))]
fn fits(draft: &Draft, number: i32, link: &Link) -> bool
    ensures tells { IsTrue result → IsTrue (link_fits draft.now number link.now) }
    ensures finds { IsTrue (link_fits draft.now number link.now) → IsTrue result }
{
    if !is_connection(number) {
        return false;
    }
    if is_nobodys(number, link.person) {
        return true;
    }
    is_player(draft, link.person)
}

fn is_connection(number: i32) -> bool
    ensures { result ≡ is_connection number }
{
    1 <= number && number <= LAST_CONNECTION
}

// Whether a person is the one on a connection who has not logged in.
fn is_nobodys(number: i32, person: i32) -> bool
    ensures tells { IsTrue result → IsTrue (int_eq person (neg_ℤ (pos 3) -ℤ number)) }
    ensures finds { IsTrue (is_connection number) → result ≡ int_eq person (neg_ℤ (pos 3) -ℤ number) }
{
    if number > LAST_CONNECTION {
        return false;
    }
    person == -3 - number
}

fn is_player(draft: &Draft, person: i32) -> bool
    ensures { result ≡ on_object draft.now person (λ x. x.header.is_player) }
{
    match draft.object(person) {
        Some(object) => object.header().is_player,
        None => false,
    }
}

// The persons on these links.
fn persons(alloc: Global, draft: &Draft, numbers: &[i32]) -> Result<Vec<i32>, AllocError>
    ensures { IfOk result (λ v. v.items ≡ map (λ c. person_of (at draft.now.links c)) numbers.now) }
{
    let mut persons = Vec::with_capacity(alloc, numbers.len())?;
    for number in numbers {
        let person = person(draft, *number);
        persons.push(person)?;
    }
    Ok(persons)
}

fn person(draft: &Draft, number: i32) -> i32
    ensures { result ≡ person_of (at draft.now.links number) }
{
    match draft.link(number) {
        Some(link) => link.person,
        None => -1,
    }
}

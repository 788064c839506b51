//! Links by their numbers, and by the persons on them.
ghost use Rattle.std.specs.Prelude.{◌≡◌, ◌↔◌, ◌<◌, [], Some, pos, int_le, IfOk, IfSome, OnOk, OnErr, IsTrue, map, filter, option_map};
ghost use Rattle.std.specs.Option.{option_and_then};
ghost use Rattle.std.specs.Ordering.{int_cmp, int_eq};
ghost use Rattle.spec_value.specs.Table.{at, with};
ghost use Rattle.spec_world.specs.Questions.{put_record};
ghost use Rattle.world.specs.LinkTable.{IsKeyed};
ghost use Rattle.world.specs.Numbered.{unsigned_key};
ghost use Rattle.world.specs.Picked.{changed};

use crate::choice::{AllNumbers, LoggedIn, gather, is_gathered};
use crate::pairs::{gather_of, is_gathered_of, replace, with_moved};
use crate::records::{LAST_NUMBER, change_record, number_key, record_at, same_records};
use crate::tasks::key_of;
use due_table::DueTable;
use std::alloc::{AllocError, Global};
use std::marker::Model;
use view::link::Link;
use world_table::Table;

/// Links by their numbers, and the numbers of those of each person. They are shared with the worlds that they came from.
#[derive(Drop)]
pub(crate) struct Links {
    links: Table<Link, 4>,
    // the keys of links by those of their persons
    persons: DueTable,
}

impl Model for Links {
    ghost use Rattle.spec_value.specs.Table.{Numbered};
    ghost use Rattle.spec_world.specs.World.{Link as Meant};
    ghost use Rattle.spec_world.specs.WorldCode.{numbered_code, link_code};
    ghost use Rattle.world.specs.LinkTable.{AreLinks};
    ghost use Rattle.world.specs.Numbered.{numbered};

    ghost Value = { Numbered Meant };

    ghost coded = { numbered_code link_code };

    ghost view = { λ a. numbered a.links.entries };

    ghost invariant = { λ a. AreLinks a.links.entries a.persons };
}

impl Links {
    /// No links.
    #[tactic(auto, using(crate::proofs::LinksKept::no_links))]
    pub(crate) fn empty(alloc: Global) -> Links
        ensures { result ≡ [] }
    {
        Links {
            links: Table::empty(alloc),
            persons: DueTable::empty(alloc),
        }
    }

    /// The link of a number.
    pub(crate) fn get(&self, number: i32) -> Option<&Link>
        ensures { option_map (λ k. k.now) result ≡ at self.now number }
    {
        record_at(&self.links, number)
    }

    /// A link more, or another link of that number. After an `Err` they are as they were.
    pub(crate) fn insert(&mut self, number: u32, link: Link) -> Result<(), AllocError>
        requires { number < 1048576 }
        ensures ok { OnOk result (self.new ≡ with self.old (pos number) link) }
        ensures err { OnErr result (self.new ≡ self.old) }
    {
        self.change(u64::from(number), Some(link))
    }

    /// Another link of a number, or none: only numbers from 0 to 999,999 are given. After an `Err` they are as they were.
    pub(crate) fn put(&mut self, number: i32, link: Option<Link>) -> Result<(), AllocError>
        ensures ok { OnOk result (self.new ≡ put_record self.old number link) }
        ensures err { OnErr result (self.new ≡ self.old) }
    {
        let _numbers = self.links.len();
        match (number_key(number), link) {
            (Some(key), Some(link)) => {
                if key > LAST_NUMBER {
                    return Ok(());
                }
                self.change(key, Some(link))
            }
            (Some(key), None) => self.change(key, None),
            (None, _) => Ok(()),
        }
    }

    // Another link of a key, or none.
    #[tactic(auto, using(crate::proofs::LinksKept::link_put, crate::proofs::LinksKept::links_kept))]
    fn change(&mut self, key: u64, link: Option<Link>) -> Result<(), AllocError>
        requires key { key < 4294967296 }
        requires given { IfSome link (λ _. key < 1048576) }
        ensures ok { OnOk result (self.new ≡ changed int_cmp (pos key) link self.old) }
        ensures err { OnErr result (self.new ≡ self.old) }
    {
        let _sorted = self.links.len();
        let old = person_of(self.links.get(key));
        let new = person_of(link.as_ref());
        let persons = with_moved(&self.persons, key, old, new)?;
        change_record(&mut self.links, key, link)?;
        replace(&mut self.persons, persons);
        Ok(())
    }

    /// The same links, with one more owner.
    pub(crate) fn share(&self) -> Result<Links, AllocError>
        ensures { IfOk result (λ links. links ≡ self.now) }
    {
        Ok(Links {
            links: self.links.share()?,
            persons: self.persons.share()?,
        })
    }

    /// Whether two are the same links. It takes no memory.
    pub(crate) fn same(&self, other: &Links) -> bool
        ensures { IsTrue result ↔ self.now ≡ other.now }
    {
        same_records(&self.links, &other.links)
    }

    /// Their numbers, in order.
    pub(crate) fn numbers(&self, alloc: Global) -> Result<Vec<i32>, AllocError>
        ensures { IfOk result (λ numbers. numbers.items ≡ map (λ e. e.0) self.now) }
    {
        let _within = self.links.len();
        let numbers = gather(alloc, &self.links, &AllNumbers)?;
        Ok(numbers)
    }

    /// The numbers of those of a person, in order. No other link is looked at.
    pub(crate) fn connections(&self, alloc: Global, person: i32) -> Result<Vec<i32>, AllocError>
        ensures { IfOk result (λ numbers. numbers.items ≡ map (λ e. e.0) (filter (λ e. int_eq (e.1).person person) self.now)) }
    {
        let _within = self.links.len();
        let numbers = gather_of(alloc, &self.persons, person_key(person))?;
        Ok(numbers)
    }

    /// Whether these are the numbers of those of a person, in order. It takes no memory, and looks at no other link.
    pub(crate) fn has_connections(&self, person: i32, numbers: &[i32]) -> bool
        ensures { IsTrue result ↔ map (λ e. e.0) (filter (λ e. int_eq (e.1).person person) self.now) ≡ numbers.now }
    {
        let _within = self.links.len();
        is_gathered_of(&self.persons, person_key(person), numbers)
    }

    /// The numbers of those on which players have logged in, with the players, in the order of the numbers.
    pub(crate) fn connected(&self, alloc: Global) -> Result<Vec<(i32, i32)>, AllocError>
        ensures { IfOk result (λ players. players.items ≡ map (λ e. (e.0, (e.1).person)) (filter (λ e. int_le (pos 0) (e.1).person) self.now)) }
    {
        let _within = self.links.len();
        let players = gather(alloc, &self.links, &LoggedIn)?;
        Ok(players)
    }

    /// Whether these are they. It takes no memory.
    pub(crate) fn has_connected(&self, players: &[(i32, i32)]) -> bool
        ensures { IsTrue result ↔ map (λ e. (e.0, (e.1).person)) (filter (λ e. int_le (pos 0) (e.1).person) self.now) ≡ players.now }
    {
        let _within = self.links.len();
        is_gathered(&self.links, &LoggedIn, players)
    }
}

// The key of the person on a link, if there is a link.
fn person_of(link: Option<&Link>) -> Option<u32>
    ensures key { result ≡ option_and_then (λ l. Some (unsigned_key l.person)) (option_map (λ l. l.now) link.entry) }
    ensures keyed { IfSome (option_map (λ l. l.now) link.entry) (λ l. IsKeyed l.person) }
{
    let link = link?;
    Some(person_key(link.person))
}

// The key of a person.
fn person_key(person: i32) -> u32
    ensures key { result ≡ unsigned_key person }
    ensures keyed { IsKeyed person }
{
    key_of(person) as u32
}

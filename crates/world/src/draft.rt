//! A world between two changes.
ghost use Rattle.std.specs.Prelude.{◌≡◌, ◌↔◌, ◌<◌, ℕ, ℤ, pos, negsuc, true, false, [], max, IfOk, OnOk, OnErr, IsTrue, is_some, map, option_map, IsFalse, IfSome, MatchOption, Some, None};
ghost use Rattle.spec_value.specs.Datum.{fold_case};
ghost use Rattle.spec_value.specs.Table.{at, with};
ghost use Rattle.spec_world.specs.World.{object_at, with_object};
ghost use Rattle.spec_world.specs.Inherit.{slot_at};
ghost use Rattle.spec_world.specs.Listings.{waiting_ids, readers_on, connections_of, connected};
ghost use Rattle.spec_world.specs.Questions.{header_at, children_at, contents_at, defines_at, slot_on, verbs_at, the_waiting, the_readers, the_connections, the_connected, ask, Agrees, apply, apply_all, new_part, new_value, new_next};
ghost use Rattle.view.specs.Kin.{IsKin};
ghost use Rattle.view.specs.Meanings.{question_of, answer_of, part_of, change_of};
ghost use Rattle.world.specs.Besides.{is_about_verbs, AgreesBesides};
ghost use Rattle.world.specs.Listed.{is_listed};
ghost use Rattle.world.specs.Seen.{read_on};
ghost use Rattle.world.specs.Due.{by_moment, due_ids, first_due_from};
ghost use Rattle.world.specs.Numbered.{numbered};

use crate::choice::{AllNumbers, gather};
use crate::edits::{NewPart, NewValue};
use crate::links::Links;
use crate::noted::Noted;
use crate::records::{Compared, put_record, record_at, revise_record, same_records, set_record};
use crate::seen::Seen;
use crate::tasks::Tasks;
use moo_task::task::Task;
use moo_value::text::Text;
use moo_value::value::Value;
use std::alloc::{AllocError, Global};
use std::marker::Model;
use view::change::Change;
use view::changes::Changes;
use view::header::Header;
use view::link::Link;
use view::lists::{Names, Numbers, Objects, Players};
use view::object::Object;
use view::part::Part;
use view::question::{Answer, Question};
use view::slot::Slot;
use view::verb::Verbs;
use world_table::Table;

// No step has this number.
const LAST_NEXT: u64 = 33554432;

/// A world that may be between two changes: nothing is promised of it. Its records are shared with the world that it came from.
pub struct Draft {
    pub(crate) objects: Table<Object, 4>,
    pub(crate) tasks: Tasks,
    pub(crate) links: Links,
    pub(crate) greatest: i32,
    pub(crate) next: u64,
    pub(crate) ending: bool,
    pub(crate) alloc: Global,
}

// Written out, so that letting go of all that a draft holds is proved here and not where one is let go.
impl Drop for Draft {
    fn drop(self) {
        let Draft {
            objects: _objects,
            tasks: _tasks,
            links: _links,
            greatest: _greatest,
            next: _next,
            ending: _ending,
            alloc: _alloc,
        } = self;
    }
}

impl Model for Draft {
    ghost use Rattle.spec_world.specs.World.{World as Meant};
    ghost use Rattle.spec_world.specs.WorldCode.{world_code};
    ghost use Rattle.world.specs.Numbered.{numbered};

    ghost Value = { Meant };

    ghost coded = { world_code };

    ghost view = { λ a. record {
      objects = numbered a.objects.entries;
      tasks = a.tasks;
      links = a.links;
      greatest = a.greatest;
      next = a.next;
      ending = a.ending;
    } };
}

impl Draft {
    /// No objects, tasks and links.
    pub fn empty(alloc: Global) -> Draft
        ensures { result ≡ record { objects = []; tasks = []; links = []; greatest = negsuc 0; next = 1; ending = false } }
    {
        Draft {
            objects: Table::empty(alloc),
            tasks: Tasks::empty(alloc),
            links: Links::empty(alloc),
            greatest: -1,
            next: 1,
            ending: false,
            alloc,
        }
    }

    /// An object more, or another object of that number.
    #[tactic(auto, using(crate::proofs::Maps::with_positive))]
    pub fn put_object(&mut self, number: u32, object: Object) -> Result<(), AllocError>
        requires { number < 1048576 }
        ensures ok { OnOk result (self.new ≡ with_object self.old (pos number) object) }
        ensures err { OnErr result (self.new ≡ self.old) }
    {
        self.objects.put(u64::from(number), object)
    }

    /// A task more that waits, or another task of that id.
    pub fn put_task(&mut self, id: i32, task: Task) -> Result<(), AllocError>
        ensures ok { OnOk result (self.new ≡ record (self.old) { tasks = with self.old.tasks id task }) }
        ensures err { OnErr result (self.new ≡ self.old) }
    {
        self.tasks.put(id, Some(task))
    }

    /// A link more, or another link of that number.
    pub fn put_link(&mut self, number: u32, link: Link) -> Result<(), AllocError>
        requires { number < 1048576 }
        ensures ok { OnOk result (self.new ≡ record (self.old) { links = with self.old.links (pos number) link }) }
        ensures err { OnErr result (self.new ≡ self.old) }
    {
        self.links.insert(number, link)
    }

    /// Another greatest number of objects.
    pub fn set_greatest(&mut self, greatest: i32)
        ensures { self.new ≡ record (self.old) { greatest = greatest } }
    {
        self.greatest = greatest;
    }

    // The next step has at least this number.
    fn raise(&mut self, next: u64)
        ensures { self.new ≡ apply (new_next next) self.old }
    {
        let next = next.min(LAST_NEXT);
        if self.next < next {
            self.next = next;
        }
    }

    /// The world is not about to end any more.
    pub(crate) fn reopen(&mut self)
        ensures { self.new ≡ record (self.old) { ending = false } }
    {
        self.ending = false;
    }

    /// The same records, with one more owner.
    pub fn share(&self) -> Result<Draft, AllocError>
        ensures { IfOk result (λ d. d ≡ self.now) }
    {
        Ok(Draft {
            objects: self.objects.share()?,
            tasks: self.tasks.share()?,
            links: self.links.share()?,
            greatest: self.greatest,
            next: self.next,
            ending: self.ending,
            alloc: self.alloc,
        })
    }

    /// The greatest number of objects that was ever given, -1 if none was.
    pub fn greatest(&self) -> i32
        ensures { result ≡ self.now.greatest }
    {
        self.greatest
    }

    /// The number of the next step.
    pub fn next(&self) -> u64
        ensures { result ≡ self.now.next }
    {
        self.next
    }

    /// Whether the server is to end.
    pub fn is_ending(&self) -> bool
        ensures { result ≡ self.now.ending }
    {
        self.ending
    }

    /// The numbers of the objects, in order.
    pub fn object_numbers(&self) -> Result<Numbers, AllocError>
        ensures { IfOk result (λ numbers. numbers ≡ map (λ e. e.0) self.now.objects) }
    {
        let _within = self.objects.len();
        let found = gather(self.alloc, &self.objects, &AllNumbers)?;
        let numbers = Numbers::new(self.alloc, found)?;
        Ok(numbers)
    }

    /// The numbers of the links, in order.
    pub fn link_numbers(&self) -> Result<Numbers, AllocError>
        ensures { IfOk result (λ numbers. numbers ≡ map (λ e. e.0) self.now.links) }
    {
        let found = self.links.numbers(self.alloc)?;
        let numbers = Numbers::new(self.alloc, found)?;
        Ok(numbers)
    }

    /// What an object is.
    pub fn object(&self, number: i32) -> Option<&Object>
        ensures { option_map (λ x. x.now) result ≡ object_at self.now number }
    {
        record_at(&self.objects, number)
    }

    fn header(&self, number: i32) -> Option<&Header>
        ensures { option_map (λ h. h.now) result ≡ header_at self.now number }
    {
        Some(self.object(number)?.header())
    }

    fn children(&self, number: i32) -> Option<&Objects>
        ensures { option_map (λ os. os.now) result ≡ children_at self.now number }
    {
        Some(self.object(number)?.children())
    }

    fn contents(&self, number: i32) -> Option<&Objects>
        ensures { option_map (λ os. os.now) result ≡ contents_at self.now number }
    {
        Some(self.object(number)?.contents())
    }

    fn defines(&self, number: i32) -> Option<&Names>
        ensures { option_map (λ ts. ts.now) result ≡ defines_at self.now number }
    {
        Some(self.object(number)?.defines())
    }

    /// The slot of a property on an object. Case is ignored.
    #[inline(always)]
    pub(crate) fn slot(&self, number: i32, name: &Text) -> Option<Option<&Slot>>
        ensures { option_map (λ s. option_map (λ x. x.now) s) result ≡ slot_on self.now number name.now }
    {
        Some(self.object(number)?.slots().get(name))
    }

    /// The slot of a property on an object, if there are both, with the property's name in lower case. Case is ignored.
    #[inline(always)]
    #[tactic(auto, using(crate::proofs::Alike::slot_found, crate::proofs::Alike::slot_nowhere))]
    pub(crate) fn entry(&self, number: i32, name: &Text) -> Option<&(Text, Slot)>
        ensures { MatchOption result (slot_at self.now number name.now ≡ None)
            (λ e. (fold_case name.now ≡ e.now.0) × (slot_on self.now number name.now ≡ Some (Some e.now.1))) }
    {
        self.object(number)?.slots().entry(name)
    }

    /// The slot of a property on an object, if there are both, of its own. Case is ignored.
    #[inline(always)]
    #[tactic(auto, using(crate::proofs::Alike::slot_found, crate::proofs::Alike::slot_nowhere))]
    pub(crate) fn own_slot(&self, number: i32, name: &Text) -> Result<Option<Slot>, AllocError>
        ensures { IfOk result (λ s. s ≡ slot_at self.now number name.now) }
    {
        match self.slot(number, name) {
            Some(Some(slot)) => Ok(Some(slot.clone()?)),
            Some(None) => Ok(None),
            None => Ok(None),
        }
    }

    /// The parent that an object names, if there is the object.
    #[inline(always)]
    pub(crate) fn parent(&self, number: i32) -> Option<i32>
        ensures { result ≡ option_map (λ h. h.parent) (header_at self.now number) }
    {
        Some(self.header(number)?.parent)
    }

    /// An object's own verbs, if there is the object.
    #[inline(always)]
    pub(crate) fn verbs(&self, number: i32) -> Option<&Verbs>
        ensures { option_map (λ v. v.now) result ≡ verbs_at self.now number }
    {
        Some(self.object(number)?.verbs())
    }

    /// The parent that an object names, and its own verbs, if there is the object.
    #[inline(always)]
    pub(crate) fn kin(&self, number: i32) -> Option<(i32, &Verbs)>
        ensures { IfSome result (λ k. IsKin self.now number k.0 k.1.now) }
    {
        let object = self.object(number)?;
        Some((object.header().parent, object.verbs()))
    }

    /// What a link is.
    pub fn link(&self, number: i32) -> Option<&Link>
        ensures { option_map (λ k. k.now) result ≡ at self.now.links number }
    {
        self.links.get(number)
    }

    /// The task of an id, if it waits.
    pub fn task(&self, id: i32) -> Option<&Task>
        ensures { option_map (λ t. t.now) result ≡ at self.now.tasks id }
    {
        self.tasks.get(id)
    }

    /// The ids of the tasks that wait, in order.
    pub fn waiting(&self) -> Result<Numbers, AllocError>
        ensures { IfOk result (λ ids. ids ≡ waiting_ids self.now) }
    {
        let found = self.tasks.ids(self.alloc)?;
        let ids = Numbers::new(self.alloc, found)?;
        Ok(ids)
    }

    /// The first task of this moment and this id, or after it, in the order in which tasks are due, with its moment. No other task is looked at.
    pub(crate) fn next_due(&self, moment: u32, id: i32) -> Option<(u32, i32)>
        ensures { result ≡ first_due_from moment id (by_moment self.now.tasks) }
    {
        self.tasks.next_due(moment, id)
    }

    /// The ids of the tasks whose moment has come, by their moments and then by their ids. No other task is looked at.
    pub(crate) fn due(&self, alloc: Global, moment: u32) -> Result<Vec<i32>, AllocError>
        ensures { IfOk result (λ ids. ids.items ≡ due_ids moment self.now.tasks) }
    {
        let ids = self.tasks.due(alloc, moment)?;
        Ok(ids)
    }

    fn is_waiting(&self, answer: &Answer) -> bool
        ensures { IsTrue result ↔ the_waiting (waiting_ids self.now) ≡ answer_of answer.now }
    {
        match answer {
            Answer::Waiting(ids) => self.tasks.has_ids(ids.as_slice()),
            _ => false,
        }
    }

    // The ids of the tasks that read on a connection.
    fn readers(&self, connection: i32) -> Result<Numbers, AllocError>
        ensures { IfOk result (λ ids. ids ≡ readers_on self.now connection) }
    {
        let found = self.tasks.readers_on(self.alloc, connection)?;
        let ids = Numbers::new(self.alloc, found)?;
        Ok(ids)
    }

    fn has_readers(&self, connection: i32, ids: &[i32]) -> bool
        ensures { IsTrue result ↔ readers_on self.now connection ≡ ids.now }
    {
        self.tasks.has_readers_on(connection, ids)
    }

    fn is_readers(&self, connection: i32, answer: &Answer) -> bool
        ensures { IsTrue result ↔ the_readers (readers_on self.now connection) ≡ answer_of answer.now }
    {
        match answer {
            Answer::Readers(ids) => self.has_readers(connection, ids.as_slice()),
            _ => false,
        }
    }

    // The connections of a person.
    fn connections(&self, person: i32) -> Result<Numbers, AllocError>
        ensures { IfOk result (λ cs. cs ≡ connections_of self.now person) }
    {
        let found = self.links.connections(self.alloc, person)?;
        let connections = Numbers::new(self.alloc, found)?;
        Ok(connections)
    }

    fn has_connections(&self, person: i32, connections: &[i32]) -> bool
        ensures { IsTrue result ↔ connections_of self.now person ≡ connections.now }
    {
        self.links.has_connections(person, connections)
    }

    fn is_connections(&self, person: i32, answer: &Answer) -> bool
        ensures { IsTrue result ↔ the_connections (connections_of self.now person) ≡ answer_of answer.now }
    {
        match answer {
            Answer::Connections(connections) => {
                self.has_connections(person, connections.as_slice())
            }
            _ => false,
        }
    }

    // The connections on which players have logged in, with the players.
    fn connected(&self) -> Result<Players, AllocError>
        ensures { IfOk result (λ ps. ps ≡ connected self.now) }
    {
        let found = self.links.connected(self.alloc)?;
        let players = Players::new(found);
        Ok(players)
    }

    fn has_connected(&self, players: &[(i32, i32)]) -> bool
        ensures { IsTrue result ↔ connected self.now ≡ players.now }
    {
        self.links.has_connected(players)
    }

    fn is_connected(&self, answer: &Answer) -> bool
        ensures { IsTrue result ↔ the_connected (connected self.now) ≡ answer_of answer.now }
    {
        match answer {
            Answer::Connected(players) => self.has_connected(players.as_slice()),
            _ => false,
        }
    }

    /// The answer to a question.
    pub fn ask(&self, question: &Question) -> Result<Answer, AllocError>
        ensures { IfOk result (λ a. answer_of a ≡ ask self.now (question_of question.now)) }
    {
        match question {
            Question::Header(object) => Ok(Answer::Header(self.header(*object).cloned()?)),
            Question::Children(object) => Ok(Answer::Children(self.children(*object).cloned()?)),
            Question::Contents(object) => Ok(Answer::Contents(self.contents(*object).cloned()?)),
            Question::Defines(object) => Ok(Answer::Defines(self.defines(*object).cloned()?)),
            Question::Slot(object, name) => Ok(Answer::Slot(copied(self.slot(*object, name))?)),
            Question::Verbs(object) => Ok(Answer::Verbs(self.verbs(*object).cloned()?)),
            Question::Task(id) => Ok(Answer::Task(self.tasks.get(*id).cloned()?)),
            Question::Waiting => Ok(Answer::Waiting(self.waiting()?)),
            Question::Link(number) => Ok(Answer::Link(self.link(*number).cloned()?)),
            Question::Readers(connection) => Ok(Answer::Readers(self.readers(*connection)?)),
            Question::Connections(person) => Ok(Answer::Connections(self.connections(*person)?)),
            Question::Connected => Ok(Answer::Connected(self.connected()?)),
            Question::Greatest => Ok(Answer::Greatest(self.greatest)),
            Question::Ending => Ok(Answer::Ending(self.ending)),
        }
    }

    // Whether a question has this answer. It takes no memory.
    fn answers(&self, question: &Question, answer: &Answer) -> bool
        ensures { IsTrue result ↔ ask self.now (question_of question.now) ≡ answer_of answer.now }
    {
        match question {
            Question::Header(object) => answer.is_header(self.header(*object)),
            Question::Children(object) => answer.is_children(self.children(*object)),
            Question::Contents(object) => answer.is_contents(self.contents(*object)),
            Question::Defines(object) => answer.is_defines(self.defines(*object)),
            Question::Slot(object, name) => answer.is_slot(self.slot(*object, name)),
            Question::Verbs(object) => answer.is_verbs(self.verbs(*object)),
            Question::Task(id) => answer.is_task(self.tasks.get(*id)),
            Question::Waiting => self.is_waiting(answer),
            Question::Link(number) => answer.is_link(self.link(*number)),
            Question::Readers(connection) => self.is_readers(*connection, answer),
            Question::Connections(person) => self.is_connections(*person, answer),
            Question::Connected => self.is_connected(answer),
            Question::Greatest => answer.is_greatest(self.greatest),
            Question::Ending => answer.is_ending(self.ending),
        }
    }

    // Whether a question has the answer that it has in another draft, where that is not put together of many records. It takes no memory.
    fn answers_as(&self, other: &Draft, question: &Question) -> bool
        requires { IsFalse (is_listed (question_of question.now)) }
        ensures { IsTrue result ↔ ask self.now (question_of question.now) ≡ ask other.now (question_of question.now) }
    {
        match question {
            Question::Header(object) => same_found(self.header(*object), other.header(*object)),
            Question::Children(object) => {
                same_found(self.children(*object), other.children(*object))
            }
            Question::Contents(object) => {
                same_found(self.contents(*object), other.contents(*object))
            }
            Question::Defines(object) => same_found(self.defines(*object), other.defines(*object)),
            Question::Slot(object, name) => {
                same_slots(self.slot(*object, name), other.slot(*object, name))
            }
            Question::Verbs(object) => same_found(self.verbs(*object), other.verbs(*object)),
            Question::Task(id) => same_found(self.tasks.get(*id), other.tasks.get(*id)),
            Question::Link(number) => same_found(self.link(*number), other.link(*number)),
            Question::Greatest => self.greatest == other.greatest,
            Question::Ending => self.ending == other.ending,
            Question::Waiting
            | Question::Readers(_)
            | Question::Connections(_)
            | Question::Connected => unreachable!(),
        }
    }

    // Whether a question has the answer that was read.
    fn still_answers(&self, home: &Draft, noted: &Noted) -> bool
        ensures { IsTrue result ↔ ask self.now (question_of noted.now.question) ≡ (read_on home.now noted.now).answer }
    {
        match &noted.answer {
            Some(answer) => self.answers(&noted.question, answer),
            None => self.answers_as(home, &noted.question),
        }
    }

    /// Whether each question that was asked has the answer that was read. It takes no memory.
    pub(crate) fn agrees(&self, seen: &Seen) -> bool
        ensures { IsTrue result ↔ Agrees self.now seen.now }
    {
        let Some((home, notes)) = seen.parts() else {
            return true;
        };
        for noted in notes {
            if !self.still_answers(home, noted) {
                return false;
            }
        }
        true
    }

    // Whether the question is about verbs, or has the answer that was read.
    fn still_answers_besides(&self, home: &Draft, noted: &Noted) -> bool
        ensures { IsTrue result ↔ (IsFalse (is_about_verbs (question_of noted.now.question)) → ask self.now (question_of noted.now.question) ≡ (read_on home.now noted.now).answer) }
    {
        match &noted.question {
            Question::Verbs(_) => true,
            _ => self.still_answers(home, noted),
        }
    }

    /// Whether each question that was asked, but for those about verbs, has the answer that was read. It takes no memory.
    pub(crate) fn agrees_besides(&self, seen: &Seen) -> bool
        ensures { IsTrue result ↔ AgreesBesides self.now seen.now }
    {
        let Some((home, notes)) = seen.parts() else {
            return true;
        };
        for noted in notes {
            if !self.still_answers_besides(home, noted) {
                return false;
            }
        }
        true
    }

    /// Whether two worlds are the same. It takes no memory.
    pub(crate) fn same(&self, other: &Draft) -> bool
        ensures { IsTrue result ↔ self.now ≡ other.now }
    {
        same_records(&self.objects, &other.objects)
            && self.tasks.same(&other.tasks)
            && self.links.same(&other.links)
            && self.greatest == other.greatest
            && self.next == other.next
            && self.ending == other.ending
    }

    /// A change.
    pub fn put(&mut self, change: Change) -> Result<(), AllocError>
        ensures ok { OnOk result (self.new ≡ apply (change_of change) self.old) }
        ensures err { OnErr result (self.new ≡ self.old) }
    {
        match change {
            Change::Part(number, part) => self.put_part(number, part),
            Change::Value(number, name, value) => self.put_value(number, &name, &value),
            Change::Object(number, object) => set_record(&mut self.objects, number, object),
            Change::Task(id, task) => self.tasks.put(id, task),
            Change::Link(number, link) => self.links.put(number, link),
            Change::Greatest(greatest) => {
                self.greatest = greatest;
                Ok(())
            }
            Change::Ending(ending) => {
                self.ending = ending;
                Ok(())
            }
            Change::Next(next) => {
                self.raise(next);
                Ok(())
            }
        }
    }

    /// A change that somebody else keeps.
    pub fn put_kept(&mut self, change: &Change) -> Result<(), AllocError>
        ensures ok { OnOk result (self.new ≡ apply (change_of change.now) self.old) }
        ensures err { OnErr result (self.new ≡ self.old) }
    {
        match change {
            Change::Value(number, name, value) => self.put_value(*number, name, value),
            Change::Next(next) => {
                self.raise(*next);
                Ok(())
            }
            _ => self.put_copy(change),
        }
    }

    /// The same records with changes, and one more owner of those that stay.
    #[tactic(auto, using(crate::proofs::Changed::rest_applied, crate::proofs::Changed::all_applied))]
    pub(crate) fn changed(&self, changes: &Changes) -> Result<Draft, AllocError>
        ensures { IfOk result (λ d. d ≡ apply_all changes.now self.now) }
    {
        let mut draft = self.share()?;
        for change in changes.as_slice() {
            draft.put_kept(change)?;
        }
        Ok(draft)
    }

    /// The same records with changes, of which one comes last.
    #[inline(never)]
    pub(crate) fn changed_by(&self, changes: &Changes, last: &Change) -> Result<Draft, AllocError>
        ensures { IfOk result (λ d. d ≡ apply (change_of last.now) (apply_all changes.now self.now)) }
    {
        let mut draft = self.changed(changes)?;
        draft.put_kept(last)?;
        Ok(draft)
    }

    /// Changes where the records lie, as far as no other draft shares them. After an `Err` nothing has changed.
    pub(crate) fn change(&mut self, changes: &Changes) -> Result<(), AllocError>
        ensures ok { OnOk result (self.new ≡ apply_all changes.now self.old) }
        ensures err { OnErr result (self.new ≡ self.old) }
    {
        match changes.as_slice() {
            [] => Ok(()),
            [one] => self.put_kept(one),
            [Change::Next(next), one] => self.raise_and_put(*next, one),
            _ => {
                let changed = self.changed(changes)?;
                *self = changed;
                Ok(())
            }
        }
    }

    // The next step has at least this number, and one change more.
    fn raise_and_put(&mut self, next: u64, change: &Change) -> Result<(), AllocError>
        ensures ok { OnOk result (self.new ≡ apply (change_of change.now) (apply (new_next next) self.old)) }
        ensures err { OnErr result (self.new ≡ self.old) }
    {
        let before = self.next();
        self.raise(next);
        match self.put_kept(change) {
            Ok(()) => Ok(()),
            Err(error) => {
                self.set_next(before);
                Err(error)
            }
        }
    }

    // The next step has this number.
    fn set_next(&mut self, next: u64)
        ensures { self.new ≡ record (self.old) { next = next } }
    {
        self.next = next;
    }

    // The same by a copy.
    #[inline(never)]
    fn put_copy(&mut self, change: &Change) -> Result<(), AllocError>
        ensures ok { OnOk result (self.new ≡ apply (change_of change.now) self.old) }
        ensures err { OnErr result (self.new ≡ self.old) }
    {
        let copy = change.clone()?;
        self.put(copy)
    }

    // Another part of an object, if it is there.
    #[tactic(auto, using(crate::proofs::Applied::no_object_there, crate::proofs::Applied::object_there))]
    fn put_part(&mut self, number: i32, part: Part) -> Result<(), AllocError>
        ensures ok { OnOk result (self.new ≡ apply (new_part number (part_of part)) self.old) }
        ensures err { OnErr result (self.new ≡ self.old) }
    {
        if self.revise_part(number, &part)? {
            return Ok(());
        }
        let Some(object) = self.object(number) else {
            return Ok(());
        };
        let mut changed = object.clone()?;
        changed.put_part(self.alloc, part)?;
        put_record(&mut self.objects, number, changed)
    }

    // Another part of an object that no other draft shares, and whether there is such a one.
    fn revise_part(&mut self, number: i32, part: &Part) -> Result<bool, AllocError>
        ensures done { IfOk result (λ b. b ≡ true → self.new ≡ apply (new_part number (part_of part.now)) self.old) }
        ensures left { IfOk result (λ b. b ≡ false → self.new ≡ self.old) }
        ensures err { OnErr result (self.new ≡ self.old) }
    {
        let revision = NewPart {
            alloc: self.alloc,
            part,
        };
        let done = revise_record(&mut self.objects, number, &revision)?;
        Ok(done)
    }

    // Another value in a slot, if there is one.
    fn put_value(&mut self, number: i32, name: &Text, value: &Value) -> Result<(), AllocError>
        ensures ok { OnOk result (self.new ≡ apply (new_value number name.now value.now) self.old) }
        ensures err { OnErr result (self.new ≡ self.old) }
    {
        if self.revise_value(number, name, value)? {
            return Ok(());
        }
        self.put_value_anew(number, name, value)
    }

    // The same where another draft may share the object.
    #[inline(never)]
    fn put_value_anew(&mut self, number: i32, name: &Text, value: &Value) -> Result<(), AllocError>
        ensures ok { OnOk result (self.new ≡ apply (new_value number name.now value.now) self.old) }
        ensures err { OnErr result (self.new ≡ self.old) }
    {
        let value = value.clone()?;
        let Some(changed) = self.with_value(number, name, value)? else {
            return Ok(());
        };
        put_record(&mut self.objects, number, changed)
    }

    // Another value in a slot of an object that no other draft shares, and whether there is such a slot.
    fn revise_value(&mut self, number: i32, name: &Text, value: &Value) -> Result<bool, AllocError>
        ensures done { IfOk result (λ b. b ≡ true → self.new ≡ apply (new_value number name.now value.now) self.old) }
        ensures left { IfOk result (λ b. b ≡ false → self.new ≡ self.old) }
        ensures err { OnErr result (self.new ≡ self.old) }
    {
        let revision = NewValue { name, value };
        let done = revise_record(&mut self.objects, number, &revision)?;
        Ok(done)
    }

    // The object with another value in a slot, if there is one.
    #[tactic(auto, using(crate::proofs::Applied::no_object_changes))]
    fn with_value(
        &self,
        number: i32,
        name: &Text,
        value: Value,
    ) -> Result<Option<Object>, AllocError>
        ensures { IfOk result (λ o. MatchOption o (apply (new_value number name.now value) self.now ≡ self.now)
            (λ y. IsTrue (is_some (object_at self.now number)) × (apply (new_value number name.now value) self.now ≡ with_object self.now number y))) }
    {
        let Some(object) = self.object(number) else {
            return Ok(None);
        };
        object.with_value(self.alloc, name, value)
    }
}

// A slot, or that there is none, of its own.
fn copied(found: Option<Option<&Slot>>) -> Result<Option<Option<Slot>>, AllocError>
    ensures { IfOk result (λ s. s ≡ option_map (λ y. option_map (λ x. x.now) y) found.entry) }
{
    match found {
        Some(Some(slot)) => Ok(Some(Some(slot.clone()?))),
        Some(None) => Ok(Some(None)),
        None => Ok(None),
    }
}

// Whether two records that may be there are the same.
fn same_found<R: Compared>(a: Option<&R>, b: Option<&R>) -> bool
    ensures { IsTrue result ↔ option_map (λ x. x.now) a.entry ≡ option_map (λ x. x.now) b.entry }
{
    match (a, b) {
        (Some(a), Some(b)) => a.is_same(b),
        (None, None) => true,
        _ => false,
    }
}

// The same of slots of objects that may be there.
fn same_slots(a: Option<Option<&Slot>>, b: Option<Option<&Slot>>) -> bool
    ensures { IsTrue result ↔ option_map (λ y. option_map (λ x. x.now) y) a.entry ≡ option_map (λ y. option_map (λ x. x.now) y) b.entry }
{
    match (a, b) {
        (Some(a), Some(b)) => same_found(a, b),
        (None, None) => true,
        _ => false,
    }
}

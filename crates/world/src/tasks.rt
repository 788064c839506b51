//! Tasks that wait, by their ids and by their moments.
ghost use Rattle.std.specs.Prelude.{◌≡◌, ◌↔◌, ◌<◌, [], IfOk, OnOk, OnErr, IsTrue, map, filter, option_map};
ghost use Rattle.std.specs.Option.{option_and_then};
ghost use Rattle.std.specs.Ordering.{nat_cmp};
ghost use Rattle.spec_value.specs.Table.{at};
ghost use Rattle.spec_world.specs.Links.{reads_on};
ghost use Rattle.spec_world.specs.Questions.{put_task};
ghost use Rattle.moo_task.specs.Waits.{read_on};
ghost use Rattle.world.specs.Due.{by_moment, due_ids, first_due_from};
ghost use Rattle.world.specs.Numbered.{signed_key};
ghost use Rattle.world.specs.Picked.{changed};

use crate::choice::{AllIds, ReadersOf, gather, is_gathered};
use crate::moments::{gather_due, moment_of, next_due};
use crate::pairs::{replace, with_moved};
use crate::records::{change_record, same_entries};
use due_table::DueTable;
use moo_task::task::Task;
use std::alloc::{AllocError, Global};
use std::marker::Model;
use world_table::Table;

// The key of the id 0: the negative ids are before it.
const ZERO: u64 = 2147483648;

/// Tasks that wait, by their ids, and which of them read or are due at a moment. They are shared with the worlds that they came from.
#[derive(Drop)]
pub(crate) struct Tasks {
    tasks: Table<Task, 7>,
    // the connections on which tasks read
    readers: Table<i32, 7>,
    // the moments at which tasks are due
    moments: DueTable,
}

impl Model for Tasks {
    ghost use Rattle.spec_value.specs.Table.{Numbered};
    ghost use Rattle.spec_world.specs.World.{Task as Meant};
    ghost use Rattle.spec_world.specs.WorldCode.{numbered_code, task_code};
    ghost use Rattle.world.specs.Numbered.{signed};
    ghost use Rattle.world.specs.Tasks.{AreTasks};

    ghost Value = { Numbered Meant };

    ghost coded = { numbered_code task_code };

    ghost view = { λ a. signed a.tasks.entries };

    ghost invariant = { λ a. AreTasks a.tasks.entries a.readers.entries a.moments };
}

impl Tasks {
    /// No tasks.
    #[tactic(auto, using(crate::proofs::TasksKept::no_tasks))]
    pub(crate) fn empty(alloc: Global) -> Tasks
        ensures { result ≡ [] }
    {
        Tasks {
            tasks: Table::empty(alloc),
            readers: Table::empty(alloc),
            moments: DueTable::empty(alloc),
        }
    }

    /// The task of an id.
    #[tactic(auto, using(crate::proofs::Maps::at_signed))]
    pub(crate) fn get(&self, id: i32) -> Option<&Task>
        ensures { option_map (λ t. t.now) result ≡ at self.now id }
    {
        self.tasks.get(key_of(id))
    }

    /// Another task of an id, or none. After an `Err` they are as they were.
    #[tactic(auto, using(crate::proofs::TasksKept::task_put, crate::proofs::TasksKept::tasks_kept))]
    pub(crate) fn put(&mut self, id: i32, task: Option<Task>) -> Result<(), AllocError>
        ensures ok { OnOk result (self.new ≡ put_task self.old id task) }
        ensures err { OnErr result (self.new ≡ self.old) }
    {
        let key = key_of(id);
        let _sorted = self.tasks.len();
        let readers = changed_reader(&self.readers, key, &task)?;
        let old = moment_of(self.tasks.get(key));
        let new = moment_of(task.as_ref());
        let moments = with_moved(&self.moments, key, old, new)?;
        change_record(&mut self.tasks, key, task)?;
        self.readers = readers;
        replace(&mut self.moments, moments);
        Ok(())
    }

    /// The same tasks, with one more owner.
    pub(crate) fn share(&self) -> Result<Tasks, AllocError>
        ensures { IfOk result (λ tasks. tasks ≡ self.now) }
    {
        Ok(Tasks {
            tasks: self.tasks.share()?,
            readers: self.readers.share()?,
            moments: self.moments.share()?,
        })
    }

    /// Whether two are the same tasks. It takes no memory.
    #[tactic(auto, using(crate::proofs::Walks::same_signed))]
    pub(crate) fn same(&self, other: &Tasks) -> bool
        ensures { IsTrue result ↔ self.now ≡ other.now }
    {
        same_entries(&self.tasks, &other.tasks)
    }

    /// Their ids, in order.
    pub(crate) fn ids(&self, alloc: Global) -> Result<Vec<i32>, AllocError>
        ensures { IfOk result (λ ids. ids.items ≡ map (λ e. e.0) self.now) }
    {
        let ids = gather(alloc, &self.tasks, &AllIds)?;
        Ok(ids)
    }

    /// Whether these are their ids, in order. It takes no memory.
    pub(crate) fn has_ids(&self, ids: &[i32]) -> bool
        ensures { IsTrue result ↔ map (λ e. e.0) self.now ≡ ids.now }
    {
        is_gathered(&self.tasks, &AllIds, ids)
    }

    /// The ids of those that read on a connection, in order. No other task is looked at.
    pub(crate) fn readers_on(&self, alloc: Global, connection: i32) -> Result<Vec<i32>, AllocError>
        ensures { IfOk result (λ ids. ids.items ≡ map (λ e. e.0) (filter (λ e. reads_on connection (e.1).waiting) self.now)) }
    {
        let ids = gather(alloc, &self.readers, &ReadersOf { connection })?;
        Ok(ids)
    }

    /// Whether these are the ids of those that read on a connection, in order. It takes no memory, and looks at no other task.
    pub(crate) fn has_readers_on(&self, connection: i32, ids: &[i32]) -> bool
        ensures { IsTrue result ↔ map (λ e. e.0) (filter (λ e. reads_on connection (e.1).waiting) self.now) ≡ ids.now }
    {
        is_gathered(&self.readers, &ReadersOf { connection }, ids)
    }

    /// The first task of this moment and this id, or after it, in the order in which tasks are due, with its moment. No other task is looked at.
    pub(crate) fn next_due(&self, moment: u32, id: i32) -> Option<(u32, i32)>
        ensures { result ≡ first_due_from moment id (by_moment self.now) }
    {
        next_due(&self.moments, moment, id)
    }

    /// The ids of those whose moment has come, by their moments and then by their ids. No other task is looked at.
    pub(crate) fn due(&self, alloc: Global, moment: u32) -> Result<Vec<i32>, AllocError>
        ensures { IfOk result (λ ids. ids.items ≡ due_ids moment self.now) }
    {
        let ids = gather_due(alloc, &self.moments, moment)?;
        Ok(ids)
    }
}

// The readers with this task in the place of the one that its key had.
fn changed_reader(
    readers: &Table<i32, 7>,
    key: u64,
    task: &Option<Task>,
) -> Result<Table<i32, 7>, AllocError>
    requires { key < 4294967296 }
    ensures { IfOk result (λ r. r.entries ≡ changed nat_cmp key (option_and_then (λ t. read_on t.waiting) task.now) readers.now.entries) }
{
    match connection_read(task) {
        Some(connection) => readers.with(key, connection),
        None => readers.without(key),
    }
}

// The connection on which a task reads, if there is one and it does.
fn connection_read(task: &Option<Task>) -> Option<i32>
    ensures { result ≡ option_and_then (λ t. read_on t.waiting) task.now }
{
    match task {
        Some(task) => task.reads_on(),
        None => None,
    }
}

/// The key of an id.
pub(crate) fn key_of(id: i32) -> u64
    ensures read { signed_key result ≡ id }
    ensures within { result < 4294967296 }
{
    if id < 0 {
        ZERO - 1 - (-1 - id) as u64
    } else {
        ZERO + id as u64
    }
}

/// The id that has a key.
pub(crate) fn id_of(key: u64) -> i32
    requires { key < 4294967296 }
    ensures { result ≡ signed_key key }
{
    if key < ZERO {
        -1 - (ZERO - 1 - key) as i32
    } else {
        (key - ZERO) as i32
    }
}

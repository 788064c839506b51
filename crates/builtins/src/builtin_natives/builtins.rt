//! The built-in functions.
use crate::builtin_deeds::resuming::go_on;
use crate::builtin_deeds::stages::stage_of;
use crate::builtin_natives::functions::{call_function, named};
use moo_task::deeds::Deeds;
use moo_task::effect::NativeEffect;
use moo_task::native::Native;
use moo_task::room::Room;
use moo_task::running::Running;
use moo_value::text::Text;
use moo_value::value::Value;
use std::alloc::{AllocError, Global};
use std::mem;
use step_deeds::natives::Natives;
use view::law::View;

/// The built-in functions (Programmer's Manual, "Built-in Functions").
#[derive(Drop)]
pub struct Builtins {
    // what a task that has ended left for one that begins
    room: Option<Room>,
}

impl Builtins {
    /// The functions, without room for a task.
    pub fn new() -> Builtins {
        Builtins { room: None }
    }
}

impl Natives for Builtins {
    fn call<V: View>(
        &mut self,
        alloc: Global,
        view: &mut V,
        deeds: &mut Deeds,
        task: &Running,
        name: &Text,
        arguments: Vec<Value>,
    ) -> Result<NativeEffect, AllocError> {
        let function = named(name);
        let effect = call_function(alloc, view, deeds, task, function, arguments)?;
        Ok(effect)
    }

    fn resume<V: View>(
        &mut self,
        alloc: Global,
        view: &mut V,
        deeds: &mut Deeds,
        task: &Running,
        native: Native,
        value: Value,
    ) -> Result<NativeEffect, AllocError> {
        let stage = stage_of(&native)?;
        let effect = go_on(alloc, view, deeds, task, stage, value)?;
        Ok(effect)
    }

    #[inline(always)]
    fn take_room(&mut self, alloc: Global) -> Room {
        match mem::replace(&mut self.room, None) {
            Some(room) => room,
            None => Room::new(alloc),
        }
    }

    #[inline(always)]
    fn leave_room(&mut self, room: Room) {
        self.room = Some(room);
    }
}

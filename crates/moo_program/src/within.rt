//! Whether slots are those of names.
ghost use Rattle.std.specs.Prelude.{◌≡◌};
ghost use Rattle.std.specs.List.{list_all};
ghost use Rattle.moo_program.specs.Scattering.{are_in};
ghost use Rattle.moo_program.specs.Within.{slots_in, handler_slots_in, some_in, slot_number as number_of};

use crate::instruction::{Catch, CatchArm, Handler, Instruction, Slot};

/// Whether all slots of these handlers are within so many.
pub fn handlers_within(handlers: &[Handler], count: usize) -> bool
    ensures { result ≡ list_all (handler_slots_in count) handlers.now }
{
    handlers
        .iter()
        .all(|handler| is_handler_within(handler, count))
}

/// Whether all slots of an instruction are within so many.
pub fn is_within(instruction: &Instruction, count: usize) -> bool
    ensures { result ≡ slots_in count instruction.now }
{
    match instruction {
        Instruction::Load(slot)
        | Instruction::StoreVariable(slot)
        | Instruction::StoreDefault(slot)
        | Instruction::FirstItem(slot, _)
        | Instruction::NextItem(slot, _)
        | Instruction::FirstOfRange(slot, _)
        | Instruction::NextOfRange(slot, _) => (*slot as usize) < count,
        Instruction::LengthOfTarget(shape, _) | Instruction::StorePart(shape) => {
            is_some_within(shape.variable, count)
        }
        Instruction::Scatter(scatter) | Instruction::ScatterOn { scatter, .. } => {
            are_within(scatter.items.as_slice(), count)
        }
        Instruction::StartFork(variable, _) => is_some_within(*variable, count),
        _ => true,
    }
}

/// Whether the slots of items are within so many.
pub fn are_within(slots: &[Slot], count: usize) -> bool
    ensures { result ≡ are_in count slots.now }
{
    slots.iter().all(|slot| slot_number(*slot) < count)
}

fn slot_number(slot: Slot) -> usize
    ensures { result ≡ number_of slot }
{
    match slot {
        Slot::Required(slot) | Slot::Optional(slot) | Slot::Rest(slot) | Slot::Default(slot) => {
            slot as usize
        }
    }
}

fn is_some_within(slot: Option<u32>, count: usize) -> bool
    ensures { result ≡ some_in count slot }
{
    match slot {
        Some(slot) => (slot as usize) < count,
        None => true,
    }
}

fn is_handler_within(handler: &Handler, count: usize) -> bool
    ensures { result ≡ handler_slots_in count handler.now }
{
    match &handler.catch {
        Catch::Arms(arms) => are_arms_within(arms.as_slice(), count),
        Catch::Loop(_) | Catch::Finally(_) | Catch::Code(_) | Catch::Instead(_) => true,
    }
}

fn are_arms_within(arms: &[CatchArm], count: usize) -> bool
    ensures { result ≡ list_all (λ a. some_in count a.variable) arms.now }
{
    arms.iter().all(|arm| is_some_within(arm.variable, count))
}

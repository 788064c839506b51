//! The instruction of an operation.
ghost use Rattle.std.specs.Prelude.{◌≡◌, ◌∷◌, [], map, IfOk, IsTrue};
ghost use Rattle.moo_tree.specs.StatementView.{program_of};
ghost use Rattle.moo_code.specs.Instruction as code;
ghost use Rattle.moo_code.specs.Instruction.{perform, placed};
ghost use Rattle.moo_code.specs.Layout.{shape_of as shape_meaning};
ghost use Rattle.moo_program.specs.Drafting.{operation_of, parts_of, name_of, bracketed_of};
ghost use Rattle.moo_program.specs.Assembling.{place_of};
ghost use Rattle.moo_program.specs.Meaning.{name_at, some_name_at, shape_meant, body_at};
ghost use Rattle.moo_program.specs.Names.{known};
ghost use Rattle.moo_program.specs.Opens.{open_of};
ghost use Rattle.moo_program.specs.Tables.{bodies_of, meant_in};

use crate::instruction::{Beginning, Bracket, Instruction, Part, Shape};
use crate::moo_bytecode::around::{Bracketed, next};
use crate::moo_bytecode::operation::{KnownCodes, Operation};
use crate::names::Names;
use crate::open::Open;
use crate::tables::Tables;
use moo_tree::expression::{Target, TargetNode};
use moo_tree::statement::Statement;
use moo_value::text::Text;
use moo_value::value::{Shown, Value};
use std::alloc::{AllocError, Global};

/// A number of the program as an instruction has it.
pub fn narrow(number: usize) -> Result<u32, AllocError>
    ensures { IfOk result (λ n. n ≡ number) }
{
    match u32::try_from(number) {
        Ok(number) => Ok(number),
        Err(_) => Err(AllocError),
    }
}

/// The place of a part; the end for 0.
pub fn place(here: &Open, number: usize) -> Result<u32, AllocError>
    ensures { IfOk result (λ p. p ≡ place_of (open_of here.now) number) }
{
    narrow(here.place(number))
}

/// The slot of a variable.
pub fn slot(names: &Names<'_>, name: &Text) -> Result<u32, AllocError>
    ensures { IfOk result (λ i. name_at (known names.now) i ≡ name.now) }
{
    match names.slot(name) {
        Some(slot) => narrow(slot),
        None => Err(AllocError),
    }
}

/// The slot of a variable, if there is one.
pub fn some_slot(names: &Names<'_>, name: Option<&Text>) -> Result<Option<u32>, AllocError>
    ensures { IfOk result (λ i. some_name_at (known names.now) i ≡ name_of name.entry) }
{
    match name {
        Some(name) => Ok(Some(slot(names, name)?)),
        None => Ok(None),
    }
}

fn boxed<T: Drop>(alloc: Global, value: T) -> Result<Box<T>, AllocError>
    ensures { IfOk result (λ b. b.value ≡ value) }
{
    Ok(Box::new(alloc, value)?)
}

// The form of a target.
#[tactic(auto, using(crate::proofs::Emitted::bracketed_last))]
fn shape(alloc: Global, names: &Names<'_>, target: &Target) -> Result<Shape, AllocError>
    ensures { IfOk result (λ s. shape_meant (known names.now) s ≡ shape_meaning target.now) }
{
    let mut brackets = Vec::new(alloc);
    let mut inner = target;
    loop {
        match &inner.node {
            TargetNode::Variable(name) => {
                let variable = Some(slot(names, name)?);
                return Ok(Shape { variable, brackets });
            }
            TargetNode::Property(_, _) => {
                return Ok(Shape {
                    variable: None,
                    brackets,
                });
            }
            TargetNode::Index(within, _) => {
                brackets.push(Bracket::Item)?;
                inner = within;
            }
            TargetNode::Range(within, _, _) => {
                brackets.push(Bracket::Range)?;
                inner = within;
            }
        }
    }
}

// Whether the fork with a number has this body.
fn is_body(bodies: &[&[Statement]], number: usize, body: &[Statement]) -> bool
    ensures { IsTrue result → body_at (bodies_of bodies.now) number ≡ program_of body.now }
{
    number < bodies.len() && same_statements(bodies[number], body)
}

fn same_statements(a: &[Statement], b: &[Statement]) -> bool
    ensures { IsTrue result → program_of a.now ≡ program_of b.now }
{
    if a.len() != b.len() {
        return false;
    }
    for i in 0..a.len() {
        if !a[i].same(&b[i]) {
            return false;
        }
    }
    true
}

// Puts a literal.
fn push(alloc: Global, tables: &Tables<'_>, value: &Value) -> Result<Instruction, AllocError>
    ensures { IfOk result (λ i. meant_in tables.now i ≡ perform (code.push value.now) []) }
{
    match value.shown() {
        Shown::Integer(number) => Ok(Instruction::PushInteger(number)),
        _ => {
            let value = value.clone()?;
            Ok(Instruction::Push(boxed(alloc, value)?))
        }
    }
}

// `$`.
fn length_of(
    alloc: Global,
    tables: &Tables<'_>,
    bracketed: Bracketed<'_>,
) -> Result<Instruction, AllocError>
    ensures { IfOk result (λ i. meant_in tables.now i ≡ perform (code.length_of (bracketed_of bracketed.entry)) []) }
{
    match bracketed {
        Bracketed::Nothing => Ok(Instruction::LengthOfNothing),
        Bracketed::Operand(height) => Ok(Instruction::LengthOfOperand(narrow(height)?)),
        Bracketed::Target(target, height) => {
            let shape = shape(alloc, &tables.names, target)?;
            Ok(Instruction::LengthOfTarget(boxed(alloc, shape)?, narrow(height)?))
        }
    }
}

// An assignment.
fn store(alloc: Global, tables: &Tables<'_>, target: &Target) -> Result<Instruction, AllocError>
    ensures { IfOk result (λ i. meant_in tables.now i ≡ perform (code.store (shape_meaning target.now)) []) }
{
    match &target.node {
        TargetNode::Variable(name) => Ok(Instruction::StoreVariable(slot(&tables.names, name)?)),
        TargetNode::Property(_, _) => Ok(Instruction::StoreProperty),
        TargetNode::Index(_, _) | TargetNode::Range(_, _, _) => {
            let shape = shape(alloc, &tables.names, target)?;
            Ok(Instruction::StorePart(boxed(alloc, shape)?))
        }
    }
}

/// The instruction of an operation in a construct, with so many forks before it. Scattering assignments have theirs elsewhere.
pub fn instruction(
    alloc: Global,
    tables: &Tables<'_>,
    here: &Open,
    forks: usize,
    operation: &Operation<'_>,
) -> Result<Instruction, AllocError>
    ensures { IfOk result (λ i. meant_in tables.now i ≡ perform (operation_of operation.now) (placed (place_of (open_of here.now)) (parts_of operation.now))) }
{
    Ok(match operation {
        Operation::Push(value) => push(alloc, tables, value)?,
        Operation::Load(name) => Instruction::Load(slot(&tables.names, name)?),
        Operation::LengthOf(bracketed) => length_of(alloc, tables, *bracketed)?,
        Operation::Unary(operator) => Instruction::Unary(*operator),
        Operation::Binary(operator) => Instruction::Binary(*operator),
        Operation::MakeList => Instruction::MakeList,
        Operation::ReadProperty => Instruction::ReadProperty,
        Operation::CallVerb => Instruction::CallVerb,
        Operation::TakeItem => Instruction::TakeItem,
        Operation::TakeRange => Instruction::TakeRange,
        Operation::CallFunction(name) => {
            let name: &Text = name;
            let name = name.clone()?;
            Instruction::CallFunction(boxed(alloc, name)?)
        }
        Operation::Store(target) => store(alloc, tables, target)?,
        Operation::StoreDefault(name) => Instruction::StoreDefault(slot(&tables.names, name)?),
        Operation::Pop => Instruction::Pop,
        Operation::Return => Instruction::Return,
        Operation::ReturnZero => Instruction::ReturnZero,
        Operation::FinishBody => Instruction::FinishBody,
        Operation::LeaveLoops(count) => Instruction::LeaveLoops(narrow(*count)?),
        Operation::ContinueLoops(count) => Instruction::ContinueLoops(narrow(*count)?),
        Operation::EndFinally => Instruction::EndFinally,
        Operation::BeginFirst => Instruction::BeginFirst,
        Operation::StartFork(variable, body) => {
            if !is_body(tables.bodies.as_slice(), forks, body) {
                return Err(AllocError);
            }
            let variable = some_slot(&tables.names, *variable)?;
            Instruction::StartFork(variable, narrow(forks)?)
        }
        _ => jump(alloc, tables, here, operation)?,
    })
}

// The instruction of an operation that leads to parts.
fn jump(
    alloc: Global,
    tables: &Tables<'_>,
    here: &Open,
    operation: &Operation<'_>,
) -> Result<Instruction, AllocError>
    ensures { IfOk result (λ i. meant_in tables.now i ≡ perform (operation_of operation.now) (placed (place_of (open_of here.now)) (parts_of operation.now))) }
{
    Ok(match operation {
        Operation::AndThen => Instruction::AndThen(place(here, 0)?),
        Operation::OrElse => Instruction::OrElse(place(here, 0)?),
        Operation::Choose => Instruction::Choose(place(here, 3)?),
        Operation::Chosen => Instruction::Chosen(place(here, 0)?),
        Operation::CaughtValue => Instruction::CaughtValue(place(here, 0)?),
        Operation::Finish(held) => Instruction::Finish(narrow(*held)?, place(here, 0)?),
        Operation::Test(first, part) => Instruction::Test {
            first: *first,
            part: narrow(*part)?,
            otherwise: place(here, next(*part)?)?,
        },
        Operation::TestLast(first, part) => Instruction::TestLast {
            first: *first,
            part: narrow(*part)?,
            end: place(here, 0)?,
        },
        Operation::TestLoop => Instruction::TestLoop(place(here, 0)?),
        Operation::FirstItem(name) => {
            Instruction::FirstItem(slot(&tables.names, name)?, place(here, 0)?)
        }
        Operation::NextItem(name) => {
            Instruction::NextItem(slot(&tables.names, name)?, place(here, 2)?)
        }
        Operation::FirstOfRange(name) => {
            Instruction::FirstOfRange(slot(&tables.names, name)?, place(here, 0)?)
        }
        Operation::NextOfRange(name) => {
            Instruction::NextOfRange(slot(&tables.names, name)?, place(here, 3)?)
        }
        Operation::Begin(ticks, operands, part) => Instruction::Begin {
            ticks: small(*ticks)?,
            operands: narrow(*operands)?,
            part: narrow(*part)?,
            place: place(here, *part)?,
        },
        Operation::BeginAbove(ticks, operands, part, codes) => {
            let beginning = Beginning {
                ticks: small(*ticks)?,
                operands: narrow(*operands)?,
                codes: copied(alloc, codes.as_slice())?,
                part: Part {
                    number: narrow(*part)?,
                    place: place(here, *part)?,
                },
            };
            Instruction::BeginAbove(boxed(alloc, beginning)?)
        }
        _ => return Err(AllocError),
    })
}

// A number of ticks.
fn small(number: usize) -> Result<u8, AllocError>
    ensures { IfOk result (λ n. n ≡ number) }
{
    match u8::try_from(number) {
        Ok(number) => Ok(number),
        Err(_) => Err(AllocError),
    }
}

fn copied(alloc: Global, codes: &[KnownCodes]) -> Result<Vec<KnownCodes>, AllocError>
    ensures { IfOk result (λ v. v.items ≡ codes.now) }
{
    Vec::from_slice(alloc, codes)
}

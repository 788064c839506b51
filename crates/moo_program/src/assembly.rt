//! Code and handlers, assembled from a draft's first item to the last.
ghost use Rattle.std.specs.Prelude.{◌≡◌, ◌+◌, ◌∷◌, ◌++◌, [], ℕ, length, map, min, true, IfOk, None, OnOk};
ghost use Rattle.std.specs.List.{list_all};
ghost use Rattle.moo_program.specs.Drafting.{item_of, operation_of, parts_of, reception_of, caught_of, row_of};
ghost use Rattle.moo_program.specs.Assembling.{place_of, code_in, handlers_in, innermost, opened};
ghost use Rattle.moo_code.specs.Instruction.{perform, placed, handler_parts};
ghost use Rattle.moo_code.specs.Layout.{handler as handler_of, receiving, reception_size};
ghost use Rattle.moo_program.specs.Meaning.{arm_meant, arm_place, handler_meant};
ghost use Rattle.moo_program.specs.Names.{known};
ghost use Rattle.moo_program.specs.Opens.{open_of};
ghost use Rattle.moo_program.specs.Scattering.{Agrees, Steady, IsSteady, plan_in, learned, first_plan, outer_plans, plans_of, all_in};
ghost use Rattle.moo_program.specs.Tables.{meant_in, handler_in};
ghost use Rattle.moo_program.specs.declared.tables.Tables.{Tables as TablesRecord};
ghost use Rattle.moo_program.specs.Walking.{walk_of, with_own, with_part, with_close, start_of, caught_in, Adds};
ghost use Rattle.moo_program.specs.Within.{slots_in};

use crate::emit::{instruction, narrow, place, some_slot};
use crate::instruction::{Catch, CatchArm, Handler, Instruction, Part};
use crate::moo_bytecode::around::next;
use crate::moo_bytecode::draft::Item;
use crate::moo_bytecode::operation::{Caught, HandlerRow, Operation, Reception, Sign};
use crate::names::Names;
use crate::open::Open;
use crate::room::put;
use crate::scatter::shared;
use crate::tables::Tables;
use crate::within::is_within;
use std::alloc::{AllocError, Global};

/// What has been assembled.
#[derive(Drop)]
pub struct Assembled {
    pub code: Vec<Instruction>,
    /// The inner ones first.
    pub handlers: Vec<Handler>,
}

// What has been assembled so far, the construct under way, those around it, the innermost last, and the next place.
#[derive(Drop)]
struct Assembly {
    assembled: Assembled,
    here: Open,
    around: Vec<Open>,
    place: usize,
    forks: usize,
    // memory of constructs that are done with
    spares: Vec<Vec<usize>>,
}

/// The code and the handlers of a draft that has so much code.
pub fn assemble(
    alloc: Global,
    tables: &Tables<'_>,
    items: &[Item],
    size: usize,
) -> Result<Assembled, AllocError>
    requires { Steady (opened 0 (map item_of items.now) size ∷ []) (None ∷ []) 0 (map item_of items.now) }
    ensures within { IfOk result (λ a. list_all (slots_in (length (known tables.now.names))) a.code.items ≡ true) }
    ensures code { IfOk result (λ a. map (meant_in tables.now) a.code.items ≡ code_in (opened 0 (map item_of items.now) size ∷ []) 0 (map item_of items.now)) }
    ensures handlers { IfOk result (λ a. map (handler_in tables.now) a.handlers.items ≡ handlers_in (opened 0 (map item_of items.now) size ∷ []) 0 (map item_of items.now)) }
{
    let mut assembly = Assembly::new(alloc, items, size)?;
    for i in 0..items.len() {
        assembly.item(alloc, tables, &items[i], &items[i + 1..])?;
    }
    Ok(assembly.assembled)
}

impl Assembly {
    fn new(alloc: Global, items: &[Item], size: usize) -> Result<Assembly, AllocError>
        ensures walk { IfOk result (λ a. (t : TablesRecord) → walk_of t a ≡ start_of (map item_of items.now) size) }
        ensures plans { IfOk result (λ a. (t : TablesRecord) → plans_of t a ≡ None ∷ []) }
        ensures none { IfOk result (λ a. a.assembled.code.items ≡ []) }
    {
        let here = Open::new(Vec::new(alloc), items, 0, size)?;
        let code = Vec::with_capacity(alloc, size)?;
        Ok(Assembly {
            assembled: Assembled {
                code,
                handlers: Vec::new(alloc),
            },
            here,
            around: Vec::new(alloc),
            place: 0,
            forks: 0,
            spares: Vec::new(alloc),
        })
    }

    // An item, with those that come after it.
    fn item(
        &mut self,
        alloc: Global,
        tables: &Tables<'_>,
        item: &Item<'_>,
        after: &[Item<'_>],
    ) -> Result<(), AllocError>
        requires { IsSteady tables.now self.old (item_of item.now ∷ map item_of after.now) }
        ensures adds { OnOk result (Adds (walk_of tables.now self.old) (item_of item.now) (map item_of after.now) (walk_of tables.now self.new)) }
        ensures steady { OnOk result (IsSteady tables.now self.new (map item_of after.now)) }
        ensures within { OnOk result (all_in tables.now self.old ≡ true → all_in tables.now self.new ≡ true) }
    {
        match item {
            Item::Own(operation) => self.own(alloc, tables, operation)?,
            Item::Part(opens, count, size) => {
                let count = least(*count, after.len());
                self.part(alloc, tables, *opens, *size, &after[..count])?;
            }
            Item::Close(reception, caught) => {
                self.close(alloc, tables, *reception, lent(caught))?;
            }
            Item::Gap => {}
        }
        Ok(())
    }

    // An operation.
    #[tactic(auto, using(crate::proofs::Walked::own_put, crate::proofs::Planned::plans_put, crate::proofs::Planned::put_within))]
    fn own(
        &mut self,
        alloc: Global,
        tables: &Tables<'_>,
        operation: &Operation<'_>,
    ) -> Result<(), AllocError>
        requires { Agrees (first_plan (plans_of tables.now self.old)) (plan_in (operation_of operation.now) (placed (place_of (innermost (walk_of tables.now self.old).opens)) (parts_of operation.now))) }
        ensures walk { OnOk result (walk_of tables.now self.new ≡ with_own (operation_of operation.now) (parts_of operation.now) (walk_of tables.now self.old)) }
        ensures plans { OnOk result (plans_of tables.now self.new ≡ learned (first_plan (plans_of tables.now self.old)) (plan_in (operation_of operation.now) (placed (place_of (innermost (walk_of tables.now self.old).opens)) (parts_of operation.now))) ∷ outer_plans (plans_of tables.now self.old)) }
        ensures within { OnOk result (all_in tables.now self.old ≡ true → all_in tables.now self.new ≡ true) }
    {
        let instruction = self.instruction(alloc, tables, operation)?;
        if let Instruction::StartFork(_, _) = &instruction {
            self.forks = next(self.forks)?;
        }
        let place = next(self.place)?;
        put(&mut self.assembled.code, instruction)?;
        self.place = place;
        Ok(())
    }

    // The instruction of an operation.
    #[tactic(auto, using(crate::proofs::Walked::same_opened))]
    fn instruction(
        &mut self,
        alloc: Global,
        tables: &Tables<'_>,
        operation: &Operation<'_>,
    ) -> Result<Instruction, AllocError>
        requires { Agrees (first_plan (plans_of tables.now self.old)) (plan_in (operation_of operation.now) (placed (place_of (innermost (walk_of tables.now self.old).opens)) (parts_of operation.now))) }
        ensures meant { IfOk result (λ i. meant_in tables.now i ≡ perform (operation_of operation.now) (placed (place_of (innermost (walk_of tables.now self.old).opens)) (parts_of operation.now))) }
        ensures slots { IfOk result (λ i. slots_in (length (known tables.now.names)) i ≡ true) }
        ensures walk { OnOk result (walk_of tables.now self.new ≡ walk_of tables.now self.old) }
        ensures plans { OnOk result (plans_of tables.now self.new ≡ learned (first_plan (plans_of tables.now self.old)) (plan_in (operation_of operation.now) (placed (place_of (innermost (walk_of tables.now self.old).opens)) (parts_of operation.now))) ∷ outer_plans (plans_of tables.now self.old)) }
        ensures code { OnOk result (self.new.assembled ≡ self.old.assembled) }
    {
        match operation {
            Operation::Scatter(items) => {
                let scatter = shared(alloc, &tables.names, &mut self.here, items)?;
                Ok(Instruction::Scatter(scatter))
            }
            Operation::ScatterOn(items, number) => {
                let scatter = shared(alloc, &tables.names, &mut self.here, items)?;
                Ok(Instruction::ScatterOn {
                    scatter,
                    number: narrow(*number)?,
                    end: place(&self.here, 0)?,
                })
            }
            _ => plain(alloc, tables, &self.here, self.forks, operation),
        }
    }

    // A part of these items begins.
    fn part(
        &mut self,
        alloc: Global,
        tables: &Tables<'_>,
        opens: bool,
        size: usize,
        items: &[Item],
    ) -> Result<(), AllocError>
        ensures walk { OnOk result (walk_of tables.now self.new ≡ with_part opens size (map item_of items.now) (walk_of tables.now self.old)) }
        ensures plans { OnOk result (plans_of tables.now self.new ≡ None ∷ plans_of tables.now self.old) }
        ensures within { OnOk result (all_in tables.now self.old ≡ true → all_in tables.now self.new ≡ true) }
    {
        if opens {
            let place = next(self.place)?;
            put(&mut self.assembled.code, Instruction::OpenList)?;
            self.place = place;
        }
        let spare = spare(alloc, &mut self.spares);
        let here = Open::new(spare, items, self.place, size)?;
        let around = std::mem::replace(&mut self.here, here);
        put(&mut self.around, around)?;
        Ok(())
    }

    // The part ends.
    fn close(
        &mut self,
        alloc: Global,
        tables: &Tables<'_>,
        reception: Reception,
        caught: Option<&Caught<'_>>,
    ) -> Result<(), AllocError>
        ensures walk { OnOk result (walk_of tables.now self.new ≡ with_close (reception_of reception) (caught_in caught.entry) (walk_of tables.now self.old)) }
        ensures plans { OnOk result (plans_of tables.now self.new ≡ outer_plans (plans_of tables.now self.old)) }
        ensures within { OnOk result (all_in tables.now self.old ≡ true → all_in tables.now self.new ≡ true) }
    {
        let Some(around) = self.around.pop() else {
            return Err(AllocError);
        };
        let first = self.here.first;
        let past = self.place;
        catch(
            &mut self.assembled.handlers,
            alloc,
            tables,
            &around,
            first,
            past,
            caught,
        )?;
        let to = receive(&mut self.assembled.code, tables, &around, past, reception)?;
        self.place = to;
        let spare = std::mem::replace(&mut self.here.starts, Vec::new(alloc));
        put(&mut self.spares, spare)?;
        self.here = around;
        Ok(())
    }
}

// The instruction of an operation that is of no scattering assignment, with so many forks before it.
fn plain(
    alloc: Global,
    tables: &Tables<'_>,
    here: &Open,
    forks: usize,
    operation: &Operation<'_>,
) -> Result<Instruction, AllocError>
    ensures meant { IfOk result (λ i. meant_in tables.now i ≡ perform (operation_of operation.now) (placed (place_of (open_of here.now)) (parts_of operation.now))) }
    ensures slots { IfOk result (λ i. slots_in (length (known tables.now.names)) i ≡ true) }
{
    let instruction = instruction(alloc, tables, here, forks, operation)?;
    if is_within(&instruction, tables.names.count()) {
        Ok(instruction)
    } else {
        Err(AllocError)
    }
}

// Memory for the parts of a construct.
fn spare(alloc: Global, spares: &mut Vec<Vec<usize>>) -> Vec<usize> {
    match spares.pop() {
        Some(spare) => spare,
        None => Vec::new(alloc),
    }
}

// What catches a leaving in a part from one place to another, if anything does.
fn catch(
    handlers: &mut Vec<Handler>,
    alloc: Global,
    tables: &Tables<'_>,
    around: &Open,
    first: usize,
    past: usize,
    caught: Option<&Caught<'_>>,
) -> Result<(), AllocError>
    ensures { OnOk result (map (handler_in tables.now) handlers.new.items ≡ map (handler_in tables.now) handlers.old.items ++ handler_of (place_of (open_of around.now)) first past (caught_in caught.entry)) }
{
    if let Some(caught) = caught {
        let handler = handler(alloc, &tables.names, around, first, past, caught)?;
        put(handlers, handler)?;
    }
    Ok(())
}

// The reception of a part's value, and the next place.
fn receive(
    code: &mut Vec<Instruction>,
    tables: &Tables<'_>,
    around: &Open,
    from: usize,
    reception: Reception,
) -> Result<usize, AllocError>
    ensures place { IfOk result (λ p. p ≡ from + reception_size (reception_of reception)) }
    ensures code { OnOk result (map (meant_in tables.now) code.new.items ≡ map (meant_in tables.now) code.old.items ++ receiving (open_of around.now).end (reception_of reception)) }
    ensures within { OnOk result ((n : ℕ) → list_all (slots_in n) code.old.items ≡ true → list_all (slots_in n) code.new.items ≡ true) }
{
    match reception {
        Reception::Straight => Ok(from),
        Reception::Received(way, held, unraised) => {
            let to = next(from)?;
            let instruction = Instruction::Receive {
                way,
                unraised,
                held: narrow(held)?,
                end: place(around, 0)?,
            };
            put(code, instruction)?;
            Ok(to)
        }
    }
}

fn least(a: usize, b: usize) -> usize
    ensures { result ≡ min a b }
{
    if a < b { a } else { b }
}

fn lent<'c, 'a>(caught: &'c Option<Caught<'a>>) -> Option<&'c Caught<'a>>
    ensures { caught_in result ≡ caught_of caught.now }
{
    match caught {
        Some(caught) => Some(caught),
        None => None,
    }
}

// What catches a leaving from one place to another in a part of a construct.
fn handler(
    alloc: Global,
    names: &Names<'_>,
    around: &Open,
    first: usize,
    past: usize,
    caught: &Caught<'_>,
) -> Result<Handler, AllocError>
    ensures { IfOk result (λ h. handler_meant (known names.now) h ∷ [] ≡ handler_of (place_of (open_of around.now)) first past (caught_of (Some caught.now))) }
{
    let catch = match &caught.sign {
        Sign::Loop => Catch::Loop(place(around, 0)?),
        Sign::Finally => Catch::Finally(place(around, 2)?),
        Sign::Handlers(rows) => Catch::Arms(arms(alloc, names, around, rows.as_slice())?),
        Sign::Code => Catch::Code(place(around, 0)?),
        Sign::Instead(number) => Catch::Instead(Part {
            number: narrow(*number)?,
            place: place(around, *number)?,
        }),
    };
    Ok(Handler {
        first: narrow(first)?,
        past: narrow(past)?,
        height: narrow(caught.height)?,
        held: narrow(caught.held)?,
        catch,
    })
}

// The handlers of `try except`.
fn arms(
    alloc: Global,
    names: &Names<'_>,
    around: &Open,
    rows: &[HandlerRow<'_>],
) -> Result<Vec<CatchArm>, AllocError>
    ensures rows { IfOk result (λ v. map (arm_meant (known names.now)) v.items ≡ map row_of rows.now) }
    ensures places { IfOk result (λ v. map arm_place v.items ≡ placed (place_of (open_of around.now)) (handler_parts (map row_of rows.now))) }
{
    let mut arms = Vec::new(alloc);
    for i in 0..rows.len() {
        let row = rows[i];
        let arm = CatchArm {
            variable: some_slot(names, row.variable)?,
            part: Part {
                number: narrow(row.part)?,
                place: place(around, row.part)?,
            },
        };
        put(&mut arms, arm)?;
    }
    Ok(arms)
}

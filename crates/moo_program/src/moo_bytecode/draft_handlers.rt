//! Drafts of `try` with handlers. What comes last is put first.
ghost use Rattle.std.specs.Prelude.{◌≡◌, ◌∷◌, [], map, OnOk, IfOk};
ghost use Rattle.spec_program.specs.Construct.{of_program};
ghost use Rattle.spec_program.specs.Tree.{guarded};
ghost use Rattle.moo_tree.specs.ExpressionView.{codes_of};
ghost use Rattle.moo_tree.specs.StatementView.{program_of, arms_of};
ghost use Rattle.moo_code.specs.Instruction.{finish};
ghost use Rattle.moo_code.specs.Layout.{stop, own, inner, above, plain, program_layout, statement_layout, arms_layout, handler_rows as handler_rows_of, next_part as next_part_of, next_held};
ghost use Rattle.moo_program.specs.Drafting.{around_of, known_of, row_of, state, over};
ghost use Rattle.moo_program.specs.Handling.{held_codes_layout, known_codes_of};

use crate::moo_bytecode::around::{Around, next, plus};
use crate::moo_bytecode::draft::Draft;
use crate::moo_bytecode::draft_catch::code_count;
use crate::moo_bytecode::operation::{Caught, HandlerRow, KnownCodes, Operation, Sign, Unraised};
use moo_tree::expression::Codes;
use moo_tree::statement::{Arm, Statement};
use std::alloc::{AllocError, Global};

// The variables of the handlers, and the parts of their programs.
#[tactic(auto, using(crate::proofs::HandlerRows::row_next))]
fn handler_rows<'a>(alloc: Global, arms: &'a [Arm]) -> Result<Vec<HandlerRow<'a>>, AllocError>
    ensures { IfOk result (λ v. map row_of v.items ≡ handler_rows_of 1 (arms_of arms.now)) }
{
    let mut rows = Vec::new(alloc);
    let mut part = 1;
    for i in 0..arms.len() {
        part = next(plus(part, code_count(&arms[i].codes))?)?;
        let variable = arms[i].variable.as_ref();
        rows.push(HandlerRow { variable, part })?;
    }
    Ok(rows)
}

// The part that is begun next, where so many stand before these handlers: the first code of one of them, or the body.
#[tactic(auto, using(crate::proofs::HandlerRows::next_passed, crate::proofs::HandlerRows::next_found))]
fn next_part(before: usize, later: &[Arm]) -> Result<usize, AllocError>
    ensures { IfOk result (λ n. n ≡ next_part_of before (arms_of later.now)) }
{
    let mut part = before;
    for i in 0..later.len() {
        part = next(part)?;
        if code_count(&later[i].codes) > 0 {
            return Ok(part);
        }
    }
    Ok(1)
}

// What is known of a handler's codes before any is computed.
fn known_at_first(codes: &Codes) -> KnownCodes
    ensures { known_of result ≡ known_codes_of (codes_of codes.now) }
{
    match codes {
        Codes::Any => KnownCodes::All,
        Codes::Listed(_) => KnownCodes::Empty,
    }
}

// What is known of the codes of these handlers, up to the first of which one is computed.
#[tactic(auto, using(crate::proofs::HandlerRows::held_passed, crate::proofs::HandlerRows::held_found))]
fn known_codes(alloc: Global, later: &[Arm]) -> Result<Vec<KnownCodes>, AllocError>
    ensures { IfOk result (λ v. map known_of v.items ≡ next_held (arms_of later.now)) }
{
    let mut known = Vec::new(alloc);
    for i in 0..later.len() {
        known.push(known_at_first(&later[i].codes))?;
        if code_count(&later[i].codes) > 0 {
            return Ok(known);
        }
    }
    Ok(known)
}

impl<'a> Draft<'a> {
    // The codes of a handler, beside those of so many others; its program is the part with a number.
    #[tactic(auto, using(crate::proofs::HandlerRows::codes_listed, crate::proofs::HandlerRows::codes_none))]
    fn held_codes(
        &mut self,
        alloc: Global,
        around: Around<'a, '_>,
        before: usize,
        part: usize,
        codes: &'a Codes,
        later: &'a [Arm],
    ) -> Result<(), AllocError>
        ensures { OnOk result (state self.new ≡ over (held_codes_layout (around_of around.entry) before part (codes_of codes.now) (arms_of later.now) stop) (state self.old)) }
    {
        let Codes::Listed(codes) = codes else {
            return Ok(());
        };
        if codes.is_empty() {
            return Ok(());
        }
        let held = next(before)?;
        let first = next_part(part, later)?;
        let known = known_codes(alloc, later)?;
        self.own(Operation::BeginAbove(0, held, first, known))?;
        self.arguments(around.above(held)?, held, Unraised::Never, codes)
    }

    // A handler, after so many others; its program is the part with a number.
    #[tactic(auto, using(crate::proofs::HandlerRows::codes_over))]
    #[cycle(statement)]
    fn arm(
        &mut self,
        alloc: Global,
        around: Around<'a, '_>,
        before: usize,
        part: usize,
        arm: &'a Arm,
        later: &'a [Arm],
    ) -> Result<(), AllocError>
        ensures { OnOk result (state self.new ≡ over (held_codes_layout (around_of around.entry) before part (codes_of arm.now.codes) (arms_of later.now) (inner (plain (of_program (program_of arm.now.body.items))) (program_layout (above (around_of around.entry) 0) (program_of arm.now.body.items)) (own (finish 0) (0 ∷ []) stop))) (state self.old)) }
    {
        self.own(Operation::Finish(0))?;
        self.program_part(alloc, around.above(0)?, &arm.body, None)?;
        self.held_codes(alloc, around, before, part, &arm.codes, later)
    }

    // The handlers, with their rows.
    #[cycle(statement)]
    fn arms(
        &mut self,
        alloc: Global,
        around: Around<'a, '_>,
        arms: &'a [Arm],
        rows: &[HandlerRow<'a>],
    ) -> Result<(), AllocError>
        requires { map row_of rows.now ≡ handler_rows_of 1 (arms_of arms.now) }
        ensures { OnOk result (state self.new ≡ over (arms_layout (around_of around.entry) 0 2 (arms_of arms.now)) (state self.old)) }
    {
        for i in (0..arms.len()).rev() {
            let later = &arms[i + 1..];
            self.arm(alloc, around, i, rows[i].part, &arms[i], later)?;
        }
        Ok(())
    }

    /// Statements whose errors are handled.
    #[tactic(auto, using(crate::proofs::HandlerRows::arms_counted))]
    #[cycle(statement)]
    pub(crate) fn try_except(
        &mut self,
        alloc: Global,
        around: Around<'a, '_>,
        body: &'a [Statement],
        arms: &'a [Arm],
    ) -> Result<(), AllocError>
        ensures { OnOk result (state self.new ≡ over (statement_layout (around_of around.entry) (guarded (program_of body.now) (arms_of arms.now))) (state self.old)) }
    {
        let rows = handler_rows(alloc, arms)?;
        self.arms(alloc, around, arms, &rows)?;
        self.own(Operation::Finish(arms.len()))?;
        let caught = Caught {
            height: around.height,
            held: arms.len(),
            sign: Sign::Handlers(rows),
        };
        let inside = around.above(arms.len())?;
        self.program_part(alloc, inside, body, Some(caught))?;
        let first = next_part(1, arms)?;
        let known = known_codes(alloc, arms)?;
        self.own(Operation::BeginAbove(0, 0, first, known))?;
        Ok(())
    }
}

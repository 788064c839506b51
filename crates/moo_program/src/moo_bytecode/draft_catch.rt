//! Drafts of caught expressions. What comes last is put first.
ghost use Rattle.std.specs.Prelude.{◌≡◌, ◌∷◌, [], suc, OnOk, IfOk};
ghost use Rattle.spec_program.specs.Tree.{caught as caught_tree};
ghost use Rattle.spec_moo.specs.Effects.Handlers.{code_count as code_count_of};
ghost use Rattle.moo_tree.specs.ExpressionView.{codes_of, fallback_of};
ghost use Rattle.moo_code.specs.Instruction.{begin_part, as_value};
ghost use Rattle.moo_code.specs.Layout.{stop, expr_layout, codes_layout, fallback_layout, begin_codes as begin_codes_of, caught_sign};
ghost use Rattle.moo_program.specs.Drafting.{around_of, known_of, sign_of, state, over, with_own};

use crate::moo_bytecode::around::{Around, next};
use crate::moo_bytecode::draft::Draft;
use crate::moo_bytecode::operation::{Caught, KnownCodes, Operation, Reception, Sign, Unraised};
use moo_tree::expression::{Codes, Expression, Fallback};
use std::alloc::AllocError;

/// How many codes stand in a handler.
#[tactic(auto, using(crate::proofs::ArgumentRows::arguments_counted))]
pub(crate) fn code_count(codes: &Codes) -> usize
    ensures { result ≡ code_count_of (codes_of codes.now) }
{
    match codes {
        Codes::Any => 0,
        Codes::Listed(codes) => codes.len(),
    }
}

// What catches in an expression.
fn sign<'a>(codes: &Codes, fallback: &Fallback) -> Result<Sign<'a>, AllocError>
    ensures { IfOk result (λ s. sign_of s ≡ caught_sign (suc (suc (code_count_of (codes_of codes.now)))) (fallback_of fallback.now)) }
{
    match fallback {
        Fallback::TheCode => Ok(Sign::Code),
        Fallback::Instead(_) => Ok(Sign::Instead(next(next(code_count(codes))?)?)),
    }
}

impl<'a> Draft<'a> {
    // A part begins above these codes, with so many ticks.
    fn begin_above(
        &mut self,
        ticks: usize,
        part: usize,
        codes: KnownCodes,
    ) -> Result<(), AllocError>
        ensures { OnOk result (state self.new ≡ with_own (begin_part ticks 0 part (known_of codes ∷ [])) (part ∷ []) (state self.old)) }
    {
        let mut known = Vec::new(*self.items.allocator());
        known.push(codes)?;
        self.own(Operation::BeginAbove(ticks, 0, part, known))
    }

    // The first of the codes, or the expression if none has to be computed.
    #[tactic(auto, using(crate::proofs::CatchRows::begin_listed, crate::proofs::CatchRows::begin_none))]
    fn begin_codes(&mut self, codes: &Codes) -> Result<(), AllocError>
        ensures { OnOk result (state self.new ≡ over (begin_codes_of (codes_of codes.now) stop) (state self.old)) }
    {
        match codes {
            Codes::Any => self.begin_above(1, 1, KnownCodes::All),
            Codes::Listed(codes) => {
                if codes.is_empty() {
                    self.begin_above(1, 1, KnownCodes::Empty)
                } else {
                    self.begin_above(0, 2, KnownCodes::Empty)
                }
            }
        }
    }

    // What stands in the place of the expression.
    #[cycle(expression)]
    fn fallback(&mut self, around: Around<'a, '_>, fallback: &'a Fallback) -> Result<(), AllocError>
        ensures { OnOk result (state self.new ≡ over (fallback_layout (around_of around.entry) (fallback_of fallback.now)) (state self.old)) }
    {
        match fallback {
            Fallback::TheCode => Ok(()),
            Fallback::Instead(value) => self.operand(around, value),
        }
    }

    // The codes; after the last one comes the expression.
    #[tactic(auto, using(crate::proofs::CatchRows::codes_listed, crate::proofs::CatchRows::codes_none))]
    #[cycle(expression)]
    fn codes(&mut self, around: Around<'a, '_>, codes: &'a Codes) -> Result<(), AllocError>
        ensures { OnOk result (state self.new ≡ over (codes_layout (around_of around.entry) 1 as_value (codes_of codes.now) stop) (state self.old)) }
    {
        match codes {
            Codes::Any => Ok(()),
            Codes::Listed(codes) => {
                if codes.is_empty() {
                    return Ok(());
                }
                self.own(Operation::Begin(1, 1, 1))?;
                self.arguments(around, 1, Unraised::AsValue, codes)
            }
        }
    }

    /// An expression whose errors of these codes are caught.
    #[tactic(auto, using(crate::proofs::CatchRows::codes_over, crate::proofs::CatchRows::begin_over))]
    #[cycle(expression)]
    pub(crate) fn caught_expression(
        &mut self,
        around: Around<'a, '_>,
        expression: &'a Expression,
        codes: &'a Codes,
        fallback: &'a Fallback,
    ) -> Result<(), AllocError>
        ensures { OnOk result (state self.new ≡ over (expr_layout (around_of around.entry) (caught_tree expression.now (codes_of codes.now) (fallback_of fallback.now))) (state self.old)) }
    {
        let caught = Caught {
            height: around.height,
            held: 1,
            sign: sign(codes, fallback)?,
        };
        self.fallback(around.above(0)?, fallback)?;
        self.codes(around.above(1)?, codes)?;
        self.own(Operation::CaughtValue)?;
        self.part(
            around.above(1)?,
            expression,
            Reception::Straight,
            Some(caught),
        )?;
        self.begin_codes(codes)?;
        Ok(())
    }
}

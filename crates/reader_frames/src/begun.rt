//! What was begun, in few bytes: a mark for each frame, and beside the marks what they stand for.

ghost use Rattle.std.specs.Prelude.{◌≡◌, ◌∷◌, [], reverse, OnOk};
ghost use Rattle.reader_frames.specs.BegunView.{Behind, marked, taken_off, is_block, begins_block, block_by};
ghost use Rattle.reader_frames.specs.ListView.{Takes, first};

use crate::frame::{
    ArgumentsFrame, BlockFrame, BranchesFrame, ExpressionFrame, Frame, ItemsFrame, OperandFrame,
    WithinExpression, WithinItems, WithinOperand, WithinStatement,
};
use crate::lines::Lines;
use crate::list::{newest, put, take};
use moo_reader::found::Allowed;
use moo_token::token::{Keyword, Sign};
use moo_value::operator::UnaryOperator;
use std::alloc::{AllocError, Global};
use std::marker::Model;

// A frame, without its line.
#[derive(Clone, Copy)]
enum Mark {
    Value { brackets: bool, level: u8 },
    Steps { brackets: bool },
    Whole,
    Head,
    Condition,
    // An item that is no splice, where a list is possible and none before it took the rest.
    Item { brackets: bool, as_scatter: bool },
    Argument { brackets: bool, spliced: bool },
    To(Sign),
    Statement,
    ToWord(Keyword),
    // These have a line.
    Parentheses,
    Unary(UnaryOperator),
    Caught { brackets: bool },
    Evaluated,
    Braces,
    If,
    // One that is kept whole.
    Other,
}

/// What was begun, the newest first.
#[derive(Drop)]
pub struct Begun {
    // These have the newest last.
    marks: Vec<Mark>,
    others: Vec<Frame>,
    lines: Lines,
}

impl Model for Begun {
    ghost use Rattle.std.specs.Prelude.{List, reverse};
    ghost use Rattle.reader_frames.specs.declared.frame.Frame.{Frame};
    ghost use Rattle.reader_frames.specs.BegunView.{frames_in};
    ghost use Rattle.reader_frames.specs.contracts.frame.Frame as e;
    ghost use Rattle.std.specs.Coded.{codes};

    ghost Value = { List Frame };

    ghost coded = { Prim.hlevel (codes, e.the_row.coded) };

    ghost view = { λ a. frames_in (reverse a.marks.items) a.lines (reverse a.others.items) };
}

// A mark and its line.
#[inline(always)]
fn put_with_line(
    mark: Mark,
    line: u64,
    marks: &mut Vec<Mark>,
    lines: &mut Lines,
) -> Result<(), AllocError>
    ensures marks { OnOk result (reverse marks.new.items ≡ mark ∷ reverse marks.old.items) }
    ensures lines { OnOk result (lines.new ≡ line ∷ lines.old) }
{
    lines.push(line)?;
    put(marks, mark)
}

// The frame of a mark, by the lines and the frames beside it.
#[inline(always)]
fn frame_of(mark: Mark, lines: &mut Lines, others: &mut Vec<Frame>) -> Option<Frame>
    ensures { (behind : Behind) → marked mark behind lines.old (reverse others.old.items) ≡ taken_off result behind lines.new (reverse others.new.items) }
{
    let frame = match mark {
        Mark::Value { brackets, level } => Frame::Operand(OperandFrame::Value { brackets, level }),
        Mark::Steps { brackets } => Frame::Operand(OperandFrame::Steps { brackets }),
        Mark::Whole => Frame::Expression(ExpressionFrame::Operand(WithinOperand::Whole)),
        Mark::Head => Frame::Expression(ExpressionFrame::Expression(WithinExpression::Head)),
        Mark::Condition => Frame::Expression(ExpressionFrame::Condition),
        Mark::Item {
            brackets,
            as_scatter,
        } => {
            let allowed = Allowed {
                as_list: true,
                as_scatter,
                has_rest: false,
            };
            let spliced = false;
            let within = WithinItems::Value {
                brackets,
                allowed,
                spliced,
            };
            Frame::Expression(ExpressionFrame::Items(within))
        }
        Mark::Argument { brackets, spliced } => {
            Frame::Expression(ExpressionFrame::Argument { brackets, spliced })
        }
        Mark::To(sign) => Frame::Arguments(ArgumentsFrame::To(sign)),
        Mark::Statement => Frame::Statement,
        Mark::ToWord(keyword) => Frame::Block(BlockFrame::To(keyword)),
        Mark::Parentheses => {
            let line = lines.pop()?;
            Frame::Expression(ExpressionFrame::Expression(WithinExpression::Parentheses { line }))
        }
        Mark::Unary(operator) => {
            let line = lines.pop()?;
            Frame::Expression(ExpressionFrame::Operand(WithinOperand::Unary { operator, line }))
        }
        Mark::Caught { brackets } => {
            let line = lines.pop()?;
            Frame::Expression(ExpressionFrame::Operand(WithinOperand::Caught { brackets, line }))
        }
        Mark::Evaluated => {
            let line = lines.pop()?;
            Frame::Expression(ExpressionFrame::Statement(WithinStatement::Evaluated { line }))
        }
        Mark::Braces => {
            let line = lines.pop()?;
            Frame::Items(ItemsFrame::Braces { line })
        }
        Mark::If => {
            let line = lines.pop()?;
            Frame::Branches(BranchesFrame::If { line })
        }
        Mark::Other => take(others)?,
    };
    Some(frame)
}

fn is_block(frame: &Frame) -> bool
    ensures { result ≡ is_block frame.now }
{
    matches!(frame, Frame::Block(_))
}

// Whether the last frame is within a block.
#[tactic(auto, using(crate::proofs::Kept::newest))]
fn ends_with_block(others: &Vec<Frame>) -> bool
    ensures { result ≡ begins_block (reverse others.now.items) }
{
    match others.last() {
        Some(frame) => is_block(frame),
        None => false,
    }
}

// Whether the newest frame is within a block, by its mark.
fn is_within_block(mark: Option<Mark>, others: &Vec<Frame>) -> bool
    ensures { result ≡ block_by mark (reverse others.now.items) }
{
    match mark {
        Some(Mark::ToWord(_)) => true,
        Some(Mark::Other) => ends_with_block(others),
        _ => false,
    }
}

impl Begun {
    /// Nothing was begun.
    pub fn none(alloc: Global) -> Begun
        ensures { result ≡ [] }
    {
        Begun {
            marks: Vec::new(alloc),
            lines: Lines::none(alloc),
            others: Vec::new(alloc),
        }
    }

    // A frame that is kept whole.
    #[inline(never)]
    fn keep(&mut self, frame: Frame) -> Result<(), AllocError>
        ensures { OnOk result (self.new ≡ frame ∷ self.old) }
    {
        put(&mut self.others, frame)?;
        put(&mut self.marks, Mark::Other)
    }

    #[inline(always)]
    fn push_within_expression(&mut self, within: WithinExpression) -> Result<(), AllocError>
        ensures { OnOk result (self.new ≡ Frame.Expression (ExpressionFrame.Expression within) ∷ self.old) }
    {
        match within {
            WithinExpression::Parentheses { line } => put_with_line(
                Mark::Parentheses,
                line,
                &mut self.marks,
                &mut self.lines,
            ),
            WithinExpression::Head => put(&mut self.marks, Mark::Head),
            other => self.keep(Frame::Expression(ExpressionFrame::Expression(other))),
        }
    }

    #[inline(always)]
    fn push_within_operand(&mut self, within: WithinOperand) -> Result<(), AllocError>
        ensures { OnOk result (self.new ≡ Frame.Expression (ExpressionFrame.Operand within) ∷ self.old) }
    {
        match within {
            WithinOperand::Whole => put(&mut self.marks, Mark::Whole),
            WithinOperand::Unary { operator, line } => {
                put_with_line(
                    Mark::Unary(operator),
                    line,
                    &mut self.marks,
                    &mut self.lines,
                )
            }
            WithinOperand::Caught { brackets, line } => {
                put_with_line(
                    Mark::Caught { brackets },
                    line,
                    &mut self.marks,
                    &mut self.lines,
                )
            }
            other => self.keep(Frame::Expression(ExpressionFrame::Operand(other))),
        }
    }

    #[inline(always)]
    fn push_item(
        &mut self,
        brackets: bool,
        allowed: Allowed,
        spliced: bool,
    ) -> Result<(), AllocError>
        ensures { OnOk result (self.new ≡ Frame.Expression (ExpressionFrame.Items (WithinItems.Value brackets allowed spliced)) ∷ self.old) }
    {
        let Allowed {
            as_list,
            as_scatter,
            has_rest,
        } = allowed;
        if as_list && !has_rest && !spliced {
            return put(
                &mut self.marks,
                Mark::Item {
                    brackets,
                    as_scatter,
                },
            );
        }
        let within = WithinItems::Value {
            brackets,
            allowed,
            spliced,
        };
        self.keep(Frame::Expression(ExpressionFrame::Items(within)))
    }

    #[inline(always)]
    fn push_within_items(&mut self, within: WithinItems) -> Result<(), AllocError>
        ensures { OnOk result (self.new ≡ Frame.Expression (ExpressionFrame.Items within) ∷ self.old) }
    {
        match within {
            WithinItems::Value {
                brackets,
                allowed,
                spliced,
            } => self.push_item(brackets, allowed, spliced),
            other => self.keep(Frame::Expression(ExpressionFrame::Items(other))),
        }
    }

    #[inline(always)]
    fn push_within_statement(&mut self, within: WithinStatement) -> Result<(), AllocError>
        ensures { OnOk result (self.new ≡ Frame.Expression (ExpressionFrame.Statement within) ∷ self.old) }
    {
        match within {
            WithinStatement::Evaluated { line } => put_with_line(
                Mark::Evaluated,
                line,
                &mut self.marks,
                &mut self.lines,
            ),
            other => self.keep(Frame::Expression(ExpressionFrame::Statement(other))),
        }
    }

    #[inline(always)]
    fn push_expression(&mut self, frame: ExpressionFrame) -> Result<(), AllocError>
        ensures { OnOk result (self.new ≡ Frame.Expression frame ∷ self.old) }
    {
        match frame {
            ExpressionFrame::Expression(within) => self.push_within_expression(within),
            ExpressionFrame::Operand(within) => self.push_within_operand(within),
            ExpressionFrame::Argument { brackets, spliced } => {
                put(&mut self.marks, Mark::Argument { brackets, spliced })
            }
            ExpressionFrame::Items(within) => self.push_within_items(within),
            ExpressionFrame::Statement(within) => self.push_within_statement(within),
            ExpressionFrame::Condition => put(&mut self.marks, Mark::Condition),
        }
    }

    #[inline(always)]
    fn push_operand(&mut self, frame: OperandFrame) -> Result<(), AllocError>
        ensures { OnOk result (self.new ≡ Frame.Operand frame ∷ self.old) }
    {
        match frame {
            OperandFrame::Steps { brackets } => put(&mut self.marks, Mark::Steps { brackets }),
            OperandFrame::Value { brackets, level } => {
                put(&mut self.marks, Mark::Value { brackets, level })
            }
        }
    }

    #[inline(always)]
    fn push_arguments(&mut self, frame: ArgumentsFrame) -> Result<(), AllocError>
        ensures { OnOk result (self.new ≡ Frame.Arguments frame ∷ self.old) }
    {
        match frame {
            ArgumentsFrame::To(sign) => put(&mut self.marks, Mark::To(sign)),
            other => self.keep(Frame::Arguments(other)),
        }
    }

    #[inline(always)]
    fn push_items(&mut self, frame: ItemsFrame) -> Result<(), AllocError>
        ensures { OnOk result (self.new ≡ Frame.Items frame ∷ self.old) }
    {
        match frame {
            ItemsFrame::Braces { line } => put_with_line(
                Mark::Braces,
                line,
                &mut self.marks,
                &mut self.lines,
            ),
            other => self.keep(Frame::Items(other)),
        }
    }

    #[inline(always)]
    fn push_block(&mut self, frame: BlockFrame) -> Result<(), AllocError>
        ensures { OnOk result (self.new ≡ Frame.Block frame ∷ self.old) }
    {
        match frame {
            BlockFrame::To(keyword) => put(&mut self.marks, Mark::ToWord(keyword)),
            other => self.keep(Frame::Block(other)),
        }
    }

    #[inline(always)]
    fn push_branches(&mut self, frame: BranchesFrame) -> Result<(), AllocError>
        ensures { OnOk result (self.new ≡ Frame.Branches frame ∷ self.old) }
    {
        match frame {
            BranchesFrame::If { line } => put_with_line(
                Mark::If,
                line,
                &mut self.marks,
                &mut self.lines,
            ),
            other => self.keep(Frame::Branches(other)),
        }
    }

    /// Something more.
    #[inline(always)]
    pub fn push(&mut self, frame: Frame) -> Result<(), AllocError>
        ensures { OnOk result (self.new ≡ frame ∷ self.old) }
    {
        match frame {
            Frame::Expression(frame) => self.push_expression(frame),
            Frame::Operand(frame) => self.push_operand(frame),
            Frame::Arguments(frame) => self.push_arguments(frame),
            Frame::Items(frame) => self.push_items(frame),
            Frame::Statement => put(&mut self.marks, Mark::Statement),
            Frame::Block(frame) => self.push_block(frame),
            Frame::Branches(frame) => self.push_branches(frame),
            other => self.keep(other),
        }
    }

    /// Takes what was begun last.
    #[inline(always)]
    pub fn pop(&mut self) -> Option<Frame>
        ensures { Takes self.old result self.new }
    {
        let mark = take(&mut self.marks)?;
        match frame_of(mark, &mut self.lines, &mut self.others) {
            Some(frame) => Some(frame),
            None => {
                self.marks.clear();
                None
            }
        }
    }

    /// Whether what was begun last is within a block.
    #[tactic(auto, using(crate::proofs::Newest::block_by_newest))]
    pub fn begins_block(&self) -> bool
        ensures { result ≡ begins_block self.now }
    {
        is_within_block(newest(&self.marks), &self.others)
    }
}

//! Trees as targets of assignments.

ghost use Rattle.std.specs.Prelude.{◌≡◌, IfOk};
ghost use Rattle.moo_reader.specs.Views.{as_target};

use moo_tree::expression::{Expression, ExpressionNode, Target, TargetNode};
use std::alloc::{AllocError, Global};

/// The target that a tree is, where it is one: a variable, a property, or an item or a part of a target.
pub fn target_of(alloc: Global, tree: Expression) -> Result<Option<Target>, AllocError>
    ensures { IfOk result (λ t. t ≡ as_target tree) }
{
    let Expression { node } = tree;
    match node {
        ExpressionNode::Variable(name) => {
            let node = TargetNode::Variable(name);
            Ok(Some(Target { node }))
        }
        ExpressionNode::Property(object, name) => {
            let node = TargetNode::Property(object, name);
            Ok(Some(Target { node }))
        }
        ExpressionNode::Index(list, index) => {
            let Some(list) = target_of(alloc, Box::into_inner(list))? else {
                return Ok(None);
            };
            let list = Box::new(alloc, list)?;
            let node = TargetNode::Index(list, index);
            Ok(Some(Target { node }))
        }
        ExpressionNode::Range(list, first, last) => {
            let Some(list) = target_of(alloc, Box::into_inner(list))? else {
                return Ok(None);
            };
            let list = Box::new(alloc, list)?;
            let node = TargetNode::Range(list, first, last);
            Ok(Some(Target { node }))
        }
        _ => Ok(None),
    }
}

//! What is assigned to.
use crate::reader::Reader;
use moo_tree::expression::{Expression, ExpressionNode, Target, TargetNode};

/// The target that an expression is, which has at most so many expressions within each other. A text with another expression in this place is refused.
#[cycle(target)]
pub fn target_of(reader: &mut Reader<'_>, node: ExpressionNode, room: usize) -> Option<Target> {
    match node {
        ExpressionNode::Variable(name) => target(TargetNode::Variable(name)),
        ExpressionNode::Property(object, name) => target(TargetNode::Property(object, name)),
        ExpressionNode::Index(base, index) => match base_of(reader, base, room) {
            Some(base) => target(TargetNode::Index(base, index)),
            None => None,
        },
        ExpressionNode::Range(base, first, last) => match base_of(reader, base, room) {
            Some(base) => target(TargetNode::Range(base, first, last)),
            None => None,
        },
        other => {
            reader.put(other);
            reader.refuse();
            None
        }
    }
}

fn target(node: TargetNode) -> Option<Target> {
    Some(Target { node })
}

// The target of which a part is assigned to.
#[cycle(target)]
fn base_of(reader: &mut Reader<'_>, base: Box<Expression>, room: usize) -> Option<Box<Target>> {
    if room == 0 {
        reader.refuse();
        return None;
    }
    let Expression { node } = Box::into_inner(base);
    match target_of(reader, node, room - 1) {
        Some(target) => {
            let boxed = Box::new(reader.alloc, target);
            reader.kept(boxed)
        }
        None => None,
    }
}

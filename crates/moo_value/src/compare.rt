//! Comparisons of values. None takes memory.
ghost use Rattle.std.specs.Prelude.{◌≡◌, ◌↔◌, IsTrue, map, ok_or};
ghost use Rattle.std.specs.Cmp.Lexicographic.{slice_cmp};
ghost use Rattle.std.specs.Ordering.{nat_cmp};
ghost use Rattle.spec_value.specs.Datum.{folded, fold_case};
ghost use Rattle.spec_value.specs.Order.{order as order_of};

use crate::error::MooError;
use crate::value::{Shown, Value};
use std::cmp::Ordering;

/// Whether two values are the same, the case of letters counted.
#[cycle(equal)]
pub fn equal(a: &Value, b: &Value) -> bool
    ensures { IsTrue result ↔ a.now ≡ b.now }
{
    match (a.shown(), b.shown()) {
        (Shown::Integer(x), Shown::Integer(y)) => x == y,
        (Shown::Object(x), Shown::Object(y)) => x == y,
        (Shown::Text(x), Shown::Text(y)) => x == y,
        (Shown::Error(x), Shown::Error(y)) => x.number() == y.number(),
        (Shown::List(xs), Shown::List(ys)) => equal_items(xs, ys),
        _ => false,
    }
}

#[cycle(equal)]
fn equal_items(xs: &[Value], ys: &[Value]) -> bool
    ensures { IsTrue result ↔ xs.now ≡ ys.now }
{
    if xs.len() != ys.len() {
        return false;
    }
    for i in 0..xs.len() {
        if !equal(&xs[i], &ys[i]) {
            return false;
        }
    }
    true
}

/// Whether two values are the same, the case of letters ignored: `==`.
#[cycle(same)]
pub fn same(a: &Value, b: &Value) -> bool
    ensures { IsTrue result ↔ folded a.now ≡ folded b.now }
{
    match (a.shown(), b.shown()) {
        (Shown::Integer(x), Shown::Integer(y)) => x == y,
        (Shown::Object(x), Shown::Object(y)) => x == y,
        (Shown::Text(x), Shown::Text(y)) => x.eq_ignore_ascii_case(y),
        (Shown::Error(x), Shown::Error(y)) => x.number() == y.number(),
        (Shown::List(xs), Shown::List(ys)) => same_items(xs, ys),
        _ => false,
    }
}

#[cycle(same)]
fn same_items(xs: &[Value], ys: &[Value]) -> bool
    ensures { IsTrue result ↔ map folded xs.now ≡ map folded ys.now }
{
    if xs.len() != ys.len() {
        return false;
    }
    for i in 0..xs.len() {
        if !same(&xs[i], &ys[i]) {
            return false;
        }
    }
    true
}

/// Which of two integers, objects, errors or texts is less; `E_TYPE` for other pairs.
pub fn order(a: &Value, b: &Value) -> Result<Ordering, MooError>
    ensures { result ≡ ok_or (order_of a.now b.now) MooError.TypeMismatch }
{
    match (a.shown(), b.shown()) {
        (Shown::Integer(x), Shown::Integer(y)) => Ok(x.cmp(&y)),
        (Shown::Object(x), Shown::Object(y)) => Ok(x.cmp(&y)),
        (Shown::Error(x), Shown::Error(y)) => Ok(x.number().cmp(&y.number())),
        (Shown::Text(x), Shown::Text(y)) => Ok(order_texts(x.as_bytes(), y.as_bytes())),
        _ => Err(MooError::TypeMismatch),
    }
}

// By the first character that differs, in lower case.
fn order_texts(x: &[u8], y: &[u8]) -> Ordering
    ensures { result ≡ slice_cmp nat_cmp (fold_case x.now) (fold_case y.now) }
{
    let mut rest = y;
    for byte in x {
        match rest.split_first() {
            None => return Ordering::Greater,
            Some((first, others)) => {
                match byte.to_ascii_lowercase().cmp(&first.to_ascii_lowercase()) {
                    Ordering::Equal => rest = others,
                    other => return other,
                }
            }
        }
    }
    if rest.is_empty() {
        Ordering::Equal
    } else {
        Ordering::Less
    }
}

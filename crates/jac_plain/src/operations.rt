//! Operations on values, in one world.
ghost use Rattle.std.specs.Prelude.{◌≡◌, IfSome};
ghost use Rattle.jac_value.specs.declared.value.Value.{Value as Seen};
ghost use Rattle.jac_plain.specs.Expressions.{int_of, is_true, less_of, two};

use jac_lang::Op;
use jac_value::Value;

/// The value of an operation on two operands.
pub fn two_values(op: Op, first: &Value, second: &Value) -> Value
    ensures { result ≡ two op first.now second.now }
{
    match op {
        Op::Add => Value::Int(int_of(first).saturating_add(int_of(second))),
        Op::Sub => Value::Int(int_of(first).saturating_sub(int_of(second))),
        Op::Mul => Value::Int(int_of(first).saturating_mul(int_of(second))),
        Op::Eq => Value::Bool(first == second),
        Op::Lt => Value::Bool(is_less(first, second)),
        Op::And => Value::Bool(is_true(first) && is_true(second)),
        Op::Or => Value::Bool(is_true(first) || is_true(second)),
    }
}

/// The result, if the first operand decides it: `and` with a false one, `or` with a true one. The
/// second operand isn't evaluated then.
pub fn decided(op: Op, first: &Value) -> Option<Value>
    ensures { IfSome result (λ v. (second : Seen) → v ≡ two op first.now second) }
{
    match op {
        Op::And if !is_true(first) => Some(Value::Bool(false)),
        Op::Or if is_true(first) => Some(Value::Bool(true)),
        _ => None,
    }
}

fn int_of(value: &Value) -> i64
    ensures { result ≡ int_of value.now }
{
    match value {
        Value::Int(number) => *number,
        _ => 0,
    }
}

/// Whether the value is `true`.
pub fn is_true(value: &Value) -> bool
    ensures { result ≡ is_true value.now }
{
    match value {
        Value::Bool(truth) => *truth,
        _ => false,
    }
}

fn is_less(first: &Value, second: &Value) -> bool
    ensures { result ≡ less_of first.now second.now }
{
    match (first, second) {
        (Value::Int(_), Value::Int(_)) => first.cmp(second).is_lt(),
        (Value::Text(_), Value::Text(_)) => first.cmp(second).is_lt(),
        _ => false,
    }
}

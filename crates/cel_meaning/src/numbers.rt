// Integers of 64 bits.
ghost use Rattle.std.specs.Prelude.{◌≡◌, neg_ℤ, ◌+ℤ◌, ◌-ℤ◌, ◌*ℤ◌};
ghost use Rattle.cel_types.specs.Bounds.{int_outcome, quotient_outcome, remainder_outcome};
ghost use Rattle.cel_meaning.specs.Results.{int_or_overflow, outcome};

use cel_value::{EvalFault, Value};

// A number that 64 bits hold, if there is one.
fn int(number: Option<i64>) -> Result<Value, EvalFault>
    ensures { outcome result ≡ int_or_overflow number }
{
    match number {
        Some(number) => Ok(Value::Int(number)),
        None => Err(EvalFault::Overflow),
    }
}

pub fn negative(n: i64) -> Result<Value, EvalFault>
    ensures { outcome result ≡ int_outcome (neg_ℤ n) }
{
    int(n.checked_neg())
}

pub fn sum(m: i64, n: i64) -> Result<Value, EvalFault>
    ensures { outcome result ≡ int_outcome (m +ℤ n) }
{
    int(m.checked_add(n))
}

pub fn difference(m: i64, n: i64) -> Result<Value, EvalFault>
    ensures { outcome result ≡ int_outcome (m -ℤ n) }
{
    int(m.checked_sub(n))
}

pub fn product(m: i64, n: i64) -> Result<Value, EvalFault>
    ensures { outcome result ≡ int_outcome (m *ℤ n) }
{
    int(m.checked_mul(n))
}

pub fn quotient(m: i64, n: i64) -> Result<Value, EvalFault>
    ensures { outcome result ≡ quotient_outcome m n }
{
    if n == 0 {
        return Err(EvalFault::ZeroDivisor);
    }
    int(m.checked_div(n))
}

pub fn remainder(m: i64, n: i64) -> Result<Value, EvalFault>
    ensures { outcome result ≡ remainder_outcome m n }
{
    if n == 0 {
        return Err(EvalFault::ZeroDivisor);
    }
    int(m.checked_rem(n))
}

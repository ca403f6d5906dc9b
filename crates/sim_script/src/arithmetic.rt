//! What `let` computes.
ghost use Rattle.std.specs.Prelude.{◌≡◌, pos, ok_or, if◌then◌else◌};
ghost use Rattle.sim_types.specs.Throws.{overflow, zero_divisor};
ghost use Rattle.sim_script_model.specs.Arithmetic.{compute, is_equal};
ghost use Rattle.sim_script.specs.Kept.{answer_of};

use sim_types::{Arith, OVERFLOW, ZERO_DIVISOR};

/// What the operation gives for two numbers: a number, or the number of an error.
pub(crate) fn compute(op: Arith, a: i64, b: i64) -> Result<i64, u8>
    ensures { answer_of result ≡ compute op a b }
{
    match op {
        Arith::Only => Ok(a),
        Arith::Add => a.checked_add(b).ok_or(OVERFLOW),
        Arith::Sub => a.checked_sub(b).ok_or(OVERFLOW),
        Arith::Mul => a.checked_mul(b).ok_or(OVERFLOW),
        Arith::Div => divided(a.checked_div(b), b),
        Arith::Rem => divided(a.checked_rem(b), b),
        Arith::Min => Ok(if b < a { b } else { a }),
        Arith::Max => Ok(if a < b { b } else { a }),
        Arith::Less => Ok(i64::from(a < b)),
        Arith::AtMost => Ok(i64::from(a <= b)),
        Arith::Equal => Ok(i64::from(a == b)),
    }
}

/// The answer of a division by this divisor.
fn divided(number: Option<i64>, divisor: i64) -> Result<i64, u8>
    ensures { result ≡ ok_or number (if is_equal divisor (pos 0) then zero_divisor else overflow) }
{
    let error = if divisor == 0 { ZERO_DIVISOR } else { OVERFLOW };
    number.ok_or(error)
}

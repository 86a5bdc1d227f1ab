//! Arithmetic on whole numbers of 64 bits: a result out of range is `Overflow`, and never wraps
//! around.

ghost use Rattle.std.specs.Prelude.{◌≡◌, ◌+ℤ◌, ◌-ℤ◌, ◌*ℤ◌, neg_ℤ};
ghost use Rattle.contract_semantics.specs.Numbers.{in_range, quotient, remainder, truth};

use lc_base::TxStatus;

pub(crate) fn sum(a: i64, b: i64) -> Result<i64, TxStatus>
    ensures { result ≡ in_range (a +ℤ b) }
{
    a.checked_add(b).ok_or(TxStatus::Overflow)
}

pub(crate) fn difference(a: i64, b: i64) -> Result<i64, TxStatus>
    ensures { result ≡ in_range (a -ℤ b) }
{
    a.checked_sub(b).ok_or(TxStatus::Overflow)
}

pub(crate) fn product(a: i64, b: i64) -> Result<i64, TxStatus>
    ensures { result ≡ in_range (a *ℤ b) }
{
    a.checked_mul(b).ok_or(TxStatus::Overflow)
}

/// The quotient, truncated toward 0. `DivZero` if `b` is 0, `Overflow` if the result is out of
/// range.
pub(crate) fn quotient(a: i64, b: i64) -> Result<i64, TxStatus>
    ensures { result ≡ quotient a b }
{
    if b == 0 {
        return Err(TxStatus::DivZero);
    }
    a.checked_div(b).ok_or(TxStatus::Overflow)
}

/// The remainder, with the sign of `a`. `DivZero` if `b` is 0, `Overflow` if the quotient is out of
/// range.
pub(crate) fn remainder(a: i64, b: i64) -> Result<i64, TxStatus>
    ensures { result ≡ remainder a b }
{
    if b == 0 {
        return Err(TxStatus::DivZero);
    }
    a.checked_rem(b).ok_or(TxStatus::Overflow)
}

pub(crate) fn negation(a: i64) -> Result<i64, TxStatus>
    ensures { result ≡ in_range (neg_ℤ a) }
{
    a.checked_neg().ok_or(TxStatus::Overflow)
}

/// 1 for true, 0 for false.
pub fn truth(holds: bool) -> i64
    ensures { result ≡ truth holds }
{
    if holds { 1 } else { 0 }
}

ghost use Rattle.std.specs.Prelude.{◌≡◌, ◌*ℤ◌, IfSome};
ghost use Rattle.theory_meaning.specs.Fraction.{cross, same, below, over_both, opposite_of, sum_of, difference_of, product_of, power_of};
ghost use Rattle.theory_meaning.specs.Truth.{holds};
ghost use Rattle.theory_meaning.specs.Slow.{number_of};

use crate::words::Rel;

/// The fraction `num / (less + 1)`, as it comes and never in lowest terms.
#[derive(Clone, Copy, Debug, PartialEq, Eq)]
pub struct Number {
    pub num: i64,
    pub less: u32,
}

/// A product of two parts, which fits 128 bits whatever they are.
fn times(a: i64, b: i64) -> i128
    ensures { result ≡ a *ℤ b }
{
    i128::from(a) * i128::from(b)
}

/// The numerator of `q` over the product of both denominators.
fn crossed(q: Number, r: Number) -> i128
    ensures { result ≡ cross (number_of q) (number_of r) }
{
    times(q.num, i64::from(r.less) + 1)
}

/// A numerator over the product of both denominators; None where a part doesn't fit.
fn over(num: i128, q: Number, r: Number) -> Option<Number>
    ensures { IfSome result (λ v. number_of v ≡ over_both num (number_of q) (number_of r)) }
{
    let den = u64::from(r.less) + 1;
    let less = u64::from(q.less)
        .checked_mul(den)?
        .checked_add(u64::from(r.less))?;
    Some(Number {
        num: i64::try_from(num).ok()?,
        less: u32::try_from(less).ok()?,
    })
}

/// The opposite; None for the least numerator of 64 bits.
pub fn opposite(q: Number) -> Option<Number>
    ensures { IfSome result (λ v. number_of v ≡ opposite_of (number_of q)) }
{
    Some(Number {
        num: q.num.checked_neg()?,
        less: q.less,
    })
}

/// The sum; None where a part doesn't fit.
pub fn sum(q: Number, r: Number) -> Option<Number>
    ensures { IfSome result (λ v. number_of v ≡ sum_of (number_of q) (number_of r)) }
{
    over(crossed(q, r).checked_add(crossed(r, q))?, q, r)
}

/// The difference; None where a part doesn't fit.
pub fn difference(q: Number, r: Number) -> Option<Number>
    ensures { IfSome result (λ v. number_of v ≡ difference_of (number_of q) (number_of r)) }
{
    over(crossed(q, r).checked_sub(crossed(r, q))?, q, r)
}

/// The product; None where a part doesn't fit.
pub fn product(q: Number, r: Number) -> Option<Number>
    ensures { IfSome result (λ v. number_of v ≡ product_of (number_of q) (number_of r)) }
{
    over(times(q.num, r.num), q, r)
}

/// The product of `k` copies, one for each step; None where a part doesn't fit.
pub fn power(q: Number, k: u8) -> Option<Number>
    ensures { IfSome result (λ v. number_of v ≡ power_of (number_of q) k) }
{
    let mut all = Number { num: 1, less: 0 };
    for _ in 0..k {
        all = product(all, q)?;
    }
    Some(all)
}

fn is_same(q: Number, r: Number) -> bool
    ensures { result ≡ same (number_of q) (number_of r) }
{
    crossed(q, r) == crossed(r, q)
}

fn is_below(q: Number, r: Number) -> bool
    ensures { result ≡ below (number_of q) (number_of r) }
{
    crossed(q, r) < crossed(r, q)
}

/// Whether the relation holds between two values, by cross products.
pub fn compares(rel: Rel, q: Number, r: Number) -> bool
    ensures { result ≡ holds rel (number_of q) (number_of r) }
{
    match rel {
        Rel::Eq => is_same(q, r),
        Rel::Ne => !is_same(q, r),
        Rel::Lt => is_below(q, r),
        Rel::Le => !is_below(r, q),
        Rel::Gt => is_below(r, q),
        Rel::Ge => !is_below(q, r),
    }
}

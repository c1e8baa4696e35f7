//! Arithmetic on samples, one exact step for each function.
ghost use Rattle.std.specs.Prelude.{◌≡◌, ◌≤◌, ◌^◌, ◌+ℤ◌, ◌-ℤ◌, ◌*ℤ◌, unsigned_abs};
ghost use Rattle.sn_fixed.specs.Fixed.{floor, sat, mul};

/// 1.0 as a sample.
pub const ONE: i32 = 16_777_216;

/// The sample nearest to `x`: `x` itself if it is one, or else the least or the greatest sample.
#[tactic(auto, unfolding(crate::specs::Fixed::sat))]
pub fn sat(x: i64) -> i32
    ensures { result ≡ sat x }
{
    x.clamp(i64::from(i32::MIN), i64::from(i32::MAX)) as i32
}

/// The sample nearest to `x`, as `sat` gives it.
#[tactic(auto, unfolding(crate::specs::Fixed::sat))]
pub fn sat_wide(x: i128) -> i32
    ensures { result ≡ sat x }
{
    x.clamp(i128::from(i32::MIN), i128::from(i32::MAX)) as i32
}

/// The exact product.
pub fn times(a: i32, b: i32) -> i64
    ensures value { result ≡ a *ℤ b }
    ensures bound { unsigned_abs result ≤ 2 ^ 62 }
{
    i64::from(a) * i64::from(b)
}

/// The exact sum.
pub fn added(a: i64, b: i64) -> i128
    ensures value { result ≡ a +ℤ b }
    ensures bound { unsigned_abs result ≤ 2 ^ 64 }
{
    i128::from(a) + i128::from(b)
}

/// The exact sum of two sums of products and a product.
pub fn total(a: i128, b: i128, c: i64) -> i128
    requires a { unsigned_abs a ≤ 2 ^ 64 }
    requires b { unsigned_abs b ≤ 2 ^ 64 }
    ensures { result ≡ a +ℤ b +ℤ c }
{
    a + b + i128::from(c)
}

/// The exact sum of two products.
pub fn products(a: i32, x: i32, b: i32, y: i32) -> i128
    ensures value { result ≡ a *ℤ x +ℤ b *ℤ y }
    ensures bound { unsigned_abs result ≤ 2 ^ 64 }
{
    added(times(a, x), times(b, y))
}

/// A product in the scale of samples (2^-24 of it), rounded down.
pub fn scaled(product: i64) -> i64
    ensures { result ≡ floor product 16777216 }
{
    product.div_euclid(i64::from(ONE))
}

/// The sample nearest to a sum of products in the scale of samples, rounded down.
pub fn scaled_sample(products: i128) -> i32
    ensures { result ≡ sat (floor products 16777216) }
{
    sat_wide(products.div_euclid(i128::from(ONE)))
}

/// The sample nearest to the sum of two samples. The exact sum is clamped, since that takes no branch.
pub fn add(a: i32, b: i32) -> i32
    ensures { result ≡ sat (a +ℤ b) }
{
    sat(i64::from(a) + i64::from(b))
}

/// The sample nearest to the difference of two samples.
pub fn sub(a: i32, b: i32) -> i32
    ensures { result ≡ sat (a -ℤ b) }
{
    sat(i64::from(a) - i64::from(b))
}

/// The sample nearest to the product of two samples, which is brought to their scale (by 2^-24) and rounded down first.
#[tactic(auto, unfolding(crate::specs::Fixed::mul))]
pub fn mul(a: i32, b: i32) -> i32
    ensures { result ≡ mul a b }
{
    sat(scaled(times(a, b)))
}

/// The product in the scale of samples, rounded down.
#[tactic(auto, using(crate::proofs::Scales::scaled_small))]
fn scaled_product(a: i32, b: i32) -> i64
    ensures value { result ≡ floor (a *ℤ b) 16777216 }
    ensures bound { unsigned_abs result ≤ 2 ^ 38 }
{
    scaled(times(a, b))
}

/// The sample nearest to the sum of a product and a sample. The product is brought to the scale of samples and rounded
/// down first.
pub fn mul_add(a: i32, b: i32, x: i32) -> i32
    ensures { result ≡ sat (floor (a *ℤ b) 16777216 +ℤ x) }
{
    sat(scaled_product(a, b) + i64::from(x))
}

/// The sample nearest to the sum of two products, which is brought to the scale of samples and rounded down first.
pub fn weighted(a: i32, x: i32, b: i32, y: i32) -> i32
    ensures { result ≡ sat (floor (a *ℤ x +ℤ b *ℤ y) 16777216) }
{
    scaled_sample(products(a, x, b, y))
}

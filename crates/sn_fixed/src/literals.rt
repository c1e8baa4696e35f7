//! The literals of a definition text.
ghost use Rattle.std.specs.Prelude.{◌≡◌, pos, ◌≤ℤ◌, ◌+◌, ◌==◌, position, ◌*◌, ◌≤◌, ◌<◌, ◌^◌, IsTrue, min, length, unsigned_abs};
ghost use Rattle.std.specs.List.{list_all};
ghost use Rattle.std.specs.Char.{is_ascii_digit};
ghost use Rattle.std.specs.Str.Parse.{digits_value};
ghost use Rattle.sn_fixed.specs.Literal.{
  is_zero,
  is_positive,
  is_front,
  is_places,
  signed,
  sample,
  whole,
  fraction,
  unsigned,
  literal,
};

/// Greater than each number of eleven digits.
const MOST_LITERAL: u64 = 1_000_000_000_000;

const ONE: i128 = 16_777_216;

/// Whether all are decimal digits.
fn are_digits(digits: &[u8]) -> bool
    ensures { result ≡ list_all is_ascii_digit digits.now }
{
    digits.iter().all(|digit| digit.is_ascii_digit())
}

/// Whether this is `0`.
pub(crate) fn is_zero(digits: &[u8]) -> bool
    ensures { result ≡ is_zero digits.now }
{
    digits.len() == 1 && digits[0] == b'0'
}

/// Whether these are digits without a leading zero.
pub(crate) fn is_positive(digits: &[u8]) -> bool
    ensures { result ≡ is_positive digits.now }
{
    are_digits(digits) && digits.len() > 0 && digits[0] >= b'1'
}

/// The number of the digits, or `MOST_LITERAL` if it is greater.
pub(crate) fn number(digits: &[u8]) -> u64
    requires { IsTrue (list_all is_ascii_digit digits.now) }
    ensures { result ≡ min (digits_value 10 digits.now) 1000000000000 }
{
    let mut number: u64 = 0;
    for digit in digits {
        number = (number * 10 + u64::from(*digit - b'0')).min(MOST_LITERAL);
    }
    number
}

fn is_front(digits: &[u8]) -> bool
    ensures { result ≡ is_front digits.now }
{
    is_zero(digits) || is_positive(digits) && digits.len() <= 3
}

fn is_places(digits: &[u8]) -> bool
    ensures { result ≡ is_places digits.now }
{
    are_digits(digits) && digits.len() >= 1 && digits.len() <= 8
}

fn signed(negative: bool, number: i128) -> i128
    requires bound { unsigned_abs number ≤ 2 ^ 100 }
    requires natural { pos 0 ≤ℤ number }
    ensures value { result ≡ signed negative (unsigned_abs number) }
    ensures bound { unsigned_abs result ≤ 2 ^ 100 }
{
    if negative { -number } else { number }
}

fn sample(value: i128) -> Option<i32>
    ensures { result ≡ sample value }
{
    i32::try_from(value).ok()
}

fn whole(negative: bool, digits: &[u8]) -> Option<i32>
    ensures { result ≡ whole negative digits.now }
{
    if is_positive(digits) {
        sample(signed(negative, i128::from(number(digits))))
    } else if is_zero(digits) && !negative {
        Some(0)
    } else {
        None
    }
}

/// The number of at most eight digits.
#[tactic(auto, using(crate::proofs::Digits::short_number))]
fn short_number(digits: &[u8]) -> u64
    requires digits { IsTrue (list_all is_ascii_digit digits.now) }
    requires short { length digits.now ≤ 8 }
    ensures value { result ≡ digits_value 10 digits.now }
    ensures bound { result < 100000000 }
{
    number(digits)
}

/// Ten to the power of `places`.
#[tactic(auto, using(crate::proofs::Digits::scale_bounds))]
fn scale(places: usize) -> u64
    requires { places ≤ 8 }
    ensures value { result ≡ 10 ^ places }
    ensures bound { 1 ≤ result × result ≤ 100000000 }
{
    10u64.pow(places as u32)
}

/// The number of the digits before the point and the places after it, in units of the last place.
fn places_number(front: &[u8], places: &[u8]) -> u64
    requires front { IsTrue (is_front front.now) }
    requires places { IsTrue (is_places places.now) }
    ensures value { result ≡ digits_value 10 front.now * 10 ^ length places.now + digits_value 10 places.now }
    ensures bound { result < 2 ^ 60 }
{
    short_number(front) * scale(places.len()) + short_number(places)
}

fn fraction(negative: bool, front: &[u8], places: &[u8]) -> Option<i32>
    ensures { result ≡ fraction negative front.now places.now }
{
    if !is_front(front) || !is_places(places) {
        return None;
    }
    let raw = signed(negative, i128::from(places_number(front, places)) * ONE);
    sample(raw.div_euclid(i128::from(scale(places.len()))))
}

/// The index of the first point.
fn point(text: &[u8]) -> Option<usize>
    ensures { result ≡ position (λ byte. byte == 46) text.now }
{
    text.iter().position(|byte| *byte == b'.')
}

fn unsigned(negative: bool, text: &[u8]) -> Option<i32>
    ensures { result ≡ unsigned negative text.now }
{
    match point(text) {
        Some(point) => fraction(negative, &text[..point], &text[point + 1..]),
        None => whole(negative, text),
    }
}

/// The value of a literal: a whole number is a raw value, and a fraction such as `-0.5` is rounded down to a sample.
/// `None` comes exactly if the text is no literal, or its value is no `i32`.
#[tactic(auto, unfolding(crate::specs::Literal::literal))]
pub fn literal(text: &[u8]) -> Option<i32>
    ensures { result ≡ literal text.now }
{
    match text.strip_prefix(b"-") {
        Some(digits) => unsigned(true, digits),
        None => unsigned(false, text),
    }
}

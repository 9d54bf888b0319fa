//! What the text of a number says: whether it can be held, and the whole number that it is. Numbers
//! stay text in the tree, so this is asked of each.
ghost use Rattle.std.specs.Prelude.{◌≡◌, ◌==◌, slice_index, true, false, drop, is_some, option_and_then, MatchOption};
ghost use Rattle.std.specs.Float.{binary64, float_is_finite};
ghost use Rattle.fast_float.specs.Text.{nearest};
ghost use Rattle.serde_json.specs.Find.{as_u64};
ghost use Rattle.serde_json.specs.Read.{number_of, number_from};

use fast_float::Numeral;

/// The number, where it is whole, without a sign and of at most 64 bits.
pub(crate) fn unsigned_of(text: &str) -> Option<u64>
    ensures { result ≡ option_and_then as_u64 (number_of text.now) }
{
    match behind_minus(text.as_bytes()) {
        Some(_) => None,
        None => unsigned(&Numeral::scan(text.as_bytes())),
    }
}

fn unsigned(numeral: &Numeral<'_>) -> Option<u64>
    ensures { result ≡ option_and_then as_u64 (number_from false numeral.now) }
{
    numeral.to_u64()
}

/// Whether the number is one: only a float can be too large.
pub(crate) fn is_number(text: &str) -> bool
    ensures { result ≡ is_some (number_of text.now) }
{
    unsigned_of(text).is_some() || is_any_number(text)
}

// The same. It is apart, since it takes several times as long.
#[inline(never)]
fn is_any_number(text: &str) -> bool
    ensures { result ≡ is_some (number_of text.now) }
{
    match behind_minus(text.as_bytes()) {
        Some(digits) => is_negative(&Numeral::scan(digits)),
        None => is_unsigned(&Numeral::scan(text.as_bytes())),
    }
}

fn is_unsigned(numeral: &Numeral<'_>) -> bool
    ensures { result ≡ is_some (number_from false numeral.now) }
{
    numeral.to_u64().is_some() || has_float(false, numeral)
}

fn is_negative(numeral: &Numeral<'_>) -> bool
    ensures { result ≡ is_some (number_from true numeral.now) }
{
    has_float(true, numeral) || numeral.to_i64(true).is_some_and(|number| number < 0)
}

// Whether the nearest float is finite.
fn has_float(negative: bool, numeral: &Numeral<'_>) -> bool
    ensures { result ≡ float_is_finite (nearest binary64 negative numeral.now) }
{
    numeral.to_float::<f64>(negative).is_finite()
}

// What stands behind the minus, where the text begins with one.
fn behind_minus(text: &[u8]) -> Option<&[u8]>
    ensures { MatchOption result ((slice_index text.now 0 == 45) ≡ false)
        (λ rest. ((slice_index text.now 0 == 45) ≡ true) × (rest.now ≡ drop 1 text.now)) }
{
    match text {
        [b'-', rest @ ..] => Some(rest),
        _ => None,
    }
}

//! The numbers of JSON that a tree has: those that are written without fraction or exponent and fit
//! in 64 bits with a sign, but for `-0`.
ghost use Rattle.std.specs.Prelude.{◌≡◌, ◌<◌, ◌==◌, true, false, length, slice_index, IsTrue};
ghost use Rattle.std.specs.Option.{option_map};
ghost use Rattle.serde_json.specs.Find.{as_i64};
ghost use Rattle.serde_json.specs.Read.{number_from, float_of};
ghost use Rattle.relay_tree.specs.Reading.{whole_of};

use fast_float::Numeral;

/// Returns the whole number that a number's text spells: `Some(None)` if it has a fraction or an
/// exponent, is `-0`, or does not fit in `i64`, and `None` if it is too large for a float, which
/// `serde_json` takes for no number.
pub(crate) fn whole_number(text: &str) -> Option<Option<i64>>
    ensures { result ≡ whole_of text.now }
{
    let bytes = text.as_bytes();
    if has_minus(bytes) {
        negative(&Numeral::scan(&bytes[1..]))
    } else {
        unsigned(&Numeral::scan(bytes))
    }
}

fn has_minus(bytes: &[u8]) -> bool
    ensures value { result ≡ (slice_index bytes.now 0 == 45) }
    ensures len { IsTrue result → 0 < length bytes.now }
{
    !bytes.is_empty() && bytes[0] == b'-'
}

fn unsigned(numeral: &Numeral<'_>) -> Option<Option<i64>>
    ensures { result ≡ option_map as_i64 (number_from false numeral.now) }
{
    match numeral.to_u64() {
        Some(n) if n <= i64::MAX as u64 => Some(Some(n as i64)),
        Some(_) => Some(None),
        None => fraction(false, numeral),
    }
}

fn negative(numeral: &Numeral<'_>) -> Option<Option<i64>>
    ensures { result ≡ option_map as_i64 (number_from true numeral.now) }
{
    if let Some(n) = numeral.to_i64(true) {
        if n < 0 {
            return Some(Some(n));
        }
    }
    fraction(true, numeral)
}

/// The result for a number that is no integer: nothing that a tree has, unless it is too large.
fn fraction(negative: bool, numeral: &Numeral<'_>) -> Option<Option<i64>>
    ensures { result ≡ option_map as_i64 (float_of negative numeral.now) }
{
    if numeral.to_float::<f64>(negative).is_finite() {
        Some(None)
    } else {
        None
    }
}

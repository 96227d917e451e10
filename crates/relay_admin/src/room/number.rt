//! Decimal numbers.
ghost use Rattle.std.specs.Prelude.{◌≡◌, ◌+◌, ◌-◌, ◌^◌, min, option_map};
ghost use Rattle.std.specs.List.{list_all};
ghost use Rattle.std.specs.Char.{is_ascii_digit};
ghost use Rattle.relay_admin.specs.Edits.{number_of, number_after};

use crate::host::are_digits;

/// Returns the number that a text writes, if it is one digit or more and nothing else. A number
/// that is too large counts as the largest.
pub(crate) fn number(text: &[u8]) -> Option<u64>
    ensures { result ≡ option_map (λ n. min n (2 ^ 64 - 1)) (number_of text.now) }
{
    if !text.is_empty() && are_digits(text) {
        Some(value(text))
    } else {
        None
    }
}

#[tactic(auto, using(crate::proofs::Numbers::number_after_next))]
fn value(digits: &[u8]) -> u64
    ensures { result ≡ min (number_after 0 digits.now) (2 ^ 64 - 1) }
{
    let mut value = 0u64;
    for digit in digits {
        value = value
            .saturating_mul(10)
            .saturating_add(u64::from(digit.saturating_sub(b'0')));
    }
    value
}

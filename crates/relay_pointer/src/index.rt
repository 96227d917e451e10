//! Tokens that are the index of an element (RFC 6901, section 4).
ghost use Rattle.std.specs.Prelude.{◌≡◌, ◌-◌, ◌^◌, min, true};
ghost use Rattle.std.specs.List.{list_all};
ghost use Rattle.relay_pointer.specs.Index.{is_digit, is_index, number_of, number_onto};

/// Returns the number of a token that is an index: `0`, or digits of which the first is not `0`.
/// Any other token has none. A number above `u64::MAX`, which no list reaches, is returned as
/// `u64::MAX`. Allocates nothing.
///
/// ```
/// assert!(rt; index_of("0") == Some(0) && index_of("17") == Some(17));
/// assert!(rt; index_of("01") == None && index_of("-") == None && index_of("") == None);
/// ```
#[tactic(auto, unfolding(crate::specs::Index::index_of))]
pub fn index_of(token: &str) -> Option<u64>
    ensures { result ≡ number_of token.now }
{
    let bytes = token.as_bytes();
    if is_index(bytes) {
        Some(number(bytes))
    } else {
        None
    }
}

fn is_index(bytes: &[u8]) -> bool
    ensures { result ≡ is_index bytes.now }
{
    let [first, rest @ ..] = bytes else {
        return false;
    };
    all_digits(bytes) && (*first > b'0' || rest.is_empty())
}

fn all_digits(bytes: &[u8]) -> bool
    ensures { result ≡ list_all is_digit bytes.now }
{
    bytes.iter().all(|byte| *byte >= b'0' && *byte <= b'9')
}

fn number(bytes: &[u8]) -> u64
    requires { list_all is_digit bytes.now ≡ true }
    ensures { result ≡ min (2 ^ 64 - 1) (number_onto 0 bytes.now) }
{
    let mut number: u64 = 0;
    for byte in bytes {
        number = number
            .saturating_mul(10)
            .saturating_add(u64::from(byte.saturating_sub(b'0')));
    }
    number
}

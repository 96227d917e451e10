//! The media type of a JSON Patch.
ghost use Rattle.std.specs.Prelude.{◌≡◌};
ghost use Rattle.relay_admin.specs.Edits.{is_json_patch, is_parameters};

/// The media type of a JSON Patch (RFC 6902, section 6).
const JSON_PATCH: &str = "application/json-patch+json";

/// True if a value of `Content-Type` is that of a JSON Patch, in any case, alone or with
/// parameters.
pub(crate) fn is_json_patch(value: &[u8]) -> bool
    ensures { result ≡ is_json_patch value.now }
{
    match value.split_at_checked(JSON_PATCH.len()) {
        Some((kind, rest)) => {
            kind.eq_ignore_ascii_case(JSON_PATCH.as_bytes()) && is_parameters(rest)
        }
        None => false,
    }
}

/// True if nothing stands behind a media type, or parameters behind a `;`.
fn is_parameters(bytes: &[u8]) -> bool
    ensures { result ≡ is_parameters bytes.now }
{
    let mut rest = bytes;
    while let [b' ' | b'\t', behind @ ..] = rest {
        rest = behind;
    }
    match rest {
        [] => true,
        [first, ..] => *first == b';',
    }
}

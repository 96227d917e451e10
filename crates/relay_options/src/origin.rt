//! The origins that `--origin` takes: those by which a browser names the site of a page.
ghost use Rattle.std.specs.Prelude.{◌≡◌, MatchOption, bytes_eq, false, true};
ghost use Rattle.std.specs.List.{list_all};
ghost use Rattle.std.specs.Char.{is_ascii_digit};
ghost use Rattle.relay_options.specs.Origin.{behind, ends_site, has, is_address, is_address_byte};
ghost use Rattle.relay_options.specs.Origin.{is_addressed, is_authority, is_default, is_name};
ghost use Rattle.relay_options.specs.Origin.{is_name_byte, is_named, is_number, is_origin, is_port};
ghost use Rattle.relay_options.specs.Origin.{is_scheme, is_scheme_byte, is_site, until};

/// Returns true if the text is an origin (RFC 6454, section 7), as browsers write one: `null`; or a
/// scheme, `://` and a host in lower case, with a port behind a `:` unless it is the scheme's own.
pub(crate) fn is_origin(text: &str) -> bool
    ensures { result ≡ is_origin text.now }
{
    match cut(text.as_bytes(), b':') {
        Some((scheme, behind)) => is_scheme(scheme) && is_authority(scheme, behind),
        None => text == "null",
    }
}

/// Returns what stands before and behind the first mark, if there is one.
fn cut(bytes: &[u8], mark: u8) -> Option<(&[u8], &[u8])>
    ensures { MatchOption result (has mark bytes.now ≡ false) (λ parts.
        (has mark bytes.now ≡ true) × (parts.0.now ≡ until mark bytes.now)
        × (parts.1.now ≡ behind mark bytes.now)) }
{
    match bytes.iter().position(|byte| *byte == mark) {
        Some(at) => Some((&bytes[..at], &bytes[at + 1..])),
        None => None,
    }
}

fn is_scheme(bytes: &[u8]) -> bool
    ensures { result ≡ is_scheme bytes.now }
{
    match bytes {
        [first, rest @ ..] => first.is_ascii_lowercase() && are_scheme_bytes(rest),
        [] => false,
    }
}

fn are_scheme_bytes(bytes: &[u8]) -> bool
    ensures { result ≡ list_all is_scheme_byte bytes.now }
{
    bytes.iter().all(|byte| is_scheme_byte(*byte))
}

fn is_scheme_byte(byte: u8) -> bool
    ensures { result ≡ is_scheme_byte byte }
{
    matches!(byte, b'a'..=b'z' | b'0'..=b'9' | b'+' | b'-' | b'.')
}

/// Returns true for `//` and a site.
fn is_authority(scheme: &[u8], bytes: &[u8]) -> bool
    ensures { result ≡ is_authority scheme.now bytes.now }
{
    match bytes {
        [b'/', b'/', site @ ..] => is_site(scheme, site),
        _ => false,
    }
}

/// Returns true for a host, alone or with a port. An IPv6 address stands between brackets.
fn is_site(scheme: &[u8], site: &[u8]) -> bool
    ensures { result ≡ is_site scheme.now site.now }
{
    match site {
        [b'[', rest @ ..] => is_addressed(scheme, rest),
        [] => false,
        _ => is_named(scheme, site),
    }
}

fn is_addressed(scheme: &[u8], site: &[u8]) -> bool
    ensures { result ≡ is_addressed scheme.now site.now }
{
    match cut(site, b']') {
        Some((address, rest)) => is_address(address) && ends_site(scheme, rest),
        None => false,
    }
}

fn is_named(scheme: &[u8], site: &[u8]) -> bool
    ensures { result ≡ is_named scheme.now site.now }
{
    match cut(site, b':') {
        Some((name, port)) => is_name(name) && is_port(scheme, port),
        None => is_name(site),
    }
}

fn ends_site(scheme: &[u8], bytes: &[u8]) -> bool
    ensures { result ≡ ends_site scheme.now bytes.now }
{
    match bytes {
        [] => true,
        [b':', port @ ..] => is_port(scheme, port),
        _ => false,
    }
}

fn is_name(bytes: &[u8]) -> bool
    ensures { result ≡ is_name bytes.now }
{
    !bytes.is_empty() && are_name_bytes(bytes)
}

fn are_name_bytes(bytes: &[u8]) -> bool
    ensures { result ≡ list_all is_name_byte bytes.now }
{
    bytes.iter().all(|byte| is_name_byte(*byte))
}

fn is_name_byte(byte: u8) -> bool
    ensures { result ≡ is_name_byte byte }
{
    matches!(byte, b'a'..=b'z' | b'0'..=b'9' | b'-' | b'.' | b'_')
}

fn is_address(bytes: &[u8]) -> bool
    ensures { result ≡ is_address bytes.now }
{
    !bytes.is_empty() && are_address_bytes(bytes)
}

fn are_address_bytes(bytes: &[u8]) -> bool
    ensures { result ≡ list_all is_address_byte bytes.now }
{
    bytes.iter().all(|byte| is_address_byte(*byte))
}

fn is_address_byte(byte: u8) -> bool
    ensures { result ≡ is_address_byte byte }
{
    matches!(byte, b'0'..=b'9' | b'a'..=b'f' | b':')
}

/// Returns true for a port that browsers write: they leave out the scheme's own.
fn is_port(scheme: &[u8], port: &[u8]) -> bool
    ensures { result ≡ is_port scheme.now port.now }
{
    is_number(port) && !is_default(scheme, port)
}

fn is_number(bytes: &[u8]) -> bool
    ensures { result ≡ is_number bytes.now }
{
    match bytes {
        [b'1'..=b'9', rest @ ..] => rest.len() <= 4 && are_digits(rest),
        _ => false,
    }
}

fn are_digits(bytes: &[u8]) -> bool
    ensures { result ≡ list_all is_ascii_digit bytes.now }
{
    bytes.iter().all(|byte| byte.is_ascii_digit())
}

fn is_default(scheme: &[u8], port: &[u8]) -> bool
    ensures { result ≡ is_default scheme.now port.now }
{
    is(scheme, "http") && is(port, "80") || is(scheme, "https") && is(port, "443")
}

fn is(bytes: &[u8], text: &str) -> bool
    ensures { result ≡ bytes_eq bytes.now text.now }
{
    bytes == text.as_bytes()
}

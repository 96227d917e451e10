//! The hosts that a request may name.
ghost use Rattle.std.specs.Prelude.{◌≡◌};
ghost use Rattle.std.specs.List.{list_all};
ghost use Rattle.std.specs.Char.{is_ascii_digit};
ghost use Rattle.relay_admin.specs.Host.{is_loopback, names, is_port};

/// True if the value of a field `Host` is `localhost`, `127.0.0.1` or `[::1]`, in any case, alone
/// or with a port.
pub(crate) fn is_loopback(host: &[u8]) -> bool
    ensures { result ≡ is_loopback host.now }
{
    names(host, "localhost") || names(host, "127.0.0.1") || names(host, "[::1]")
}

fn names(host: &[u8], name: &str) -> bool
    ensures { result ≡ names name.now host.now }
{
    match host.split_at_checked(name.len()) {
        Some((front, rest)) => front.eq_ignore_ascii_case(name.as_bytes()) && is_port(rest),
        None => false,
    }
}

/// True if the bytes behind a name are a port, or none.
fn is_port(bytes: &[u8]) -> bool
    ensures { result ≡ is_port bytes.now }
{
    match bytes {
        [] => true,
        [b':', digits @ ..] => !digits.is_empty() && are_digits(digits),
        _ => false,
    }
}

pub(crate) fn are_digits(bytes: &[u8]) -> bool
    ensures { result ≡ list_all is_ascii_digit bytes.now }
{
    bytes.iter().all(|byte| byte.is_ascii_digit())
}

//! Whether a browser sends a request for a web page of elsewhere. Any page can have it ask this address.
ghost use Rattle.std.specs.Prelude.{◌≡◌};
ghost use Rattle.std.specs.List.{list_all, list_any};
ghost use Rattle.admin_pages.specs.Hosts.{is_address, is_elsewhere, is_given, is_host, is_named, is_own_host, is_own_site, stands_in_address, texts};

/// Whether a field tells that the request is for a page of elsewhere: an Origin, a Sec-Fetch-Site of another site, or a Host that is not this
/// server's. `own` are the names that the server was given.
pub(crate) fn is_elsewhere(own: &[String], name: &[u8], value: &[u8]) -> bool
    ensures { result ≡ is_elsewhere (texts own.now) name.now value.now }
{
    is_host(name) && !is_own_host(own, value)
        || name.eq_ignore_ascii_case(b"origin")
        || name.eq_ignore_ascii_case(b"sec-fetch-site") && !is_own_site(value)
}

/// Whether a field is Host.
pub(crate) fn is_host(name: &[u8]) -> bool
    ensures { result ≡ is_host name.now }
{
    name.eq_ignore_ascii_case(b"host")
}

fn is_own_site(value: &[u8]) -> bool
    ensures { result ≡ is_own_site value.now }
{
    value == b"none".as_slice() || value == b"same-origin".as_slice()
}

fn is_own_host(own: &[String], value: &[u8]) -> bool
    ensures { result ≡ is_own_host (texts own.now) value.now }
{
    is_address(value) || is_named(value, b"localhost") || has_given(own, value)
}

// Whether it is one of the names that the server was given.
fn has_given(own: &[String], value: &[u8]) -> bool
    ensures { result ≡ list_any (is_given value.now) (texts own.now) }
{
    for name in own {
        if is_given(value, name.as_bytes()) {
            return true;
        }
    }
    false
}

fn is_given(value: &[u8], name: &[u8]) -> bool
    ensures { result ≡ is_given value.now name.now }
{
    !name.is_empty() && is_named(value, name)
}

// A name that has an address in DNS neither begins with a bracket nor has digits and dots alone.
fn is_address(value: &[u8]) -> bool
    ensures { result ≡ is_address value.now }
{
    !value.is_empty() && (value[0] == b'[' || has_address_bytes(value))
}

fn has_address_bytes(value: &[u8]) -> bool
    ensures { result ≡ list_all stands_in_address value.now }
{
    value.iter().all(|byte| stands_in_address(*byte))
}

fn stands_in_address(byte: u8) -> bool
    ensures { result ≡ stands_in_address byte }
{
    matches!(byte, b'0'..=b'9' | b'.' | b':')
}

// This name, with a port or without.
fn is_named(value: &[u8], name: &[u8]) -> bool
    ensures { result ≡ is_named value.now name.now }
{
    value.eq_ignore_ascii_case(name)
        || value.len() > name.len()
            && value[name.len()] == b':'
            && value[..name.len()].eq_ignore_ascii_case(name)
}

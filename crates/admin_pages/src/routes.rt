//! What a request's method and target ask.
ghost use Rattle.std.specs.Prelude.{◌≡◌};
ghost use Rattle.admin_pages.specs.Routes.{grace_of, target_of, route, seconds_from};

/// What is asked of the administration address.
#[derive(Clone, Copy, Debug, PartialEq, Eq)]
pub enum AdminRequest {
    /// `GET /health`.
    Health,
    /// `GET /ready`.
    Ready,
    /// `POST /ready`.
    SayReady,
    /// `GET /metrics`.
    Metrics,
    /// `POST /drain`, with the seconds that open connections have.
    Drain(u32),
}

/// Why a request is refused (RFC 9110, section 15.5).
#[derive(Clone, Copy, Debug, PartialEq, Eq)]
pub enum Refusal {
    /// It is no request of RFC 9112, has not one Host, or its grace is no number.
    BadRequest,
    /// A browser sends it for a web page of elsewhere.
    Forbidden,
    /// There is no such page.
    NotFound,
    /// The page has GET alone.
    GetOnly,
    /// The page has POST alone.
    PostOnly,
    /// The page has GET and POST.
    GetOrPostOnly,
    /// It has a body.
    HasBody,
    /// Its head has more than 8,192 bytes or 64 fields.
    HeadTooLarge,
}

/// The page that a target names.
#[derive(Clone, Copy)]
pub enum Target {
    Health,
    Ready,
    Metrics,
    Drain(u32),
    BadGrace,
    Elsewhere,
}

const GRACE: u32 = 30;

const MOST_GRACE: u32 = 86_400;

/// What a method asks of the page that a target names.
pub(crate) fn route(method: &[u8], target: &[u8]) -> Result<AdminRequest, Refusal>
    ensures { result ≡ route method.now target.now }
{
    let is_get = method == b"GET".as_slice();
    let is_post = method == b"POST".as_slice();
    match target_of(target) {
        Target::Health if is_get => Ok(AdminRequest::Health),
        Target::Ready if is_get => Ok(AdminRequest::Ready),
        Target::Ready if is_post => Ok(AdminRequest::SayReady),
        Target::Metrics if is_get => Ok(AdminRequest::Metrics),
        Target::Drain(grace) if is_post => Ok(AdminRequest::Drain(grace)),
        Target::BadGrace if is_post => Err(Refusal::BadRequest),
        Target::Health | Target::Metrics => Err(Refusal::GetOnly),
        Target::Ready => Err(Refusal::GetOrPostOnly),
        Target::Drain(_) | Target::BadGrace => Err(Refusal::PostOnly),
        Target::Elsewhere => Err(Refusal::NotFound),
    }
}

fn target_of(target: &[u8]) -> Target
    ensures { result ≡ target_of target.now }
{
    if target == b"/health".as_slice() {
        return Target::Health;
    }
    if target == b"/ready".as_slice() {
        return Target::Ready;
    }
    if target == b"/metrics".as_slice() {
        return Target::Metrics;
    }
    if target == b"/drain".as_slice() {
        return Target::Drain(GRACE);
    }
    if target.len() > 13 && &target[..13] == b"/drain?grace=".as_slice() {
        return grace_of(&target[13..]);
    }
    Target::Elsewhere
}

fn grace_of(digits: &[u8]) -> Target
    ensures { result ≡ grace_of digits.now }
{
    match seconds_of(digits) {
        Some(seconds) => Target::Drain(seconds),
        None => Target::BadGrace,
    }
}

fn seconds_of(digits: &[u8]) -> Option<u32>
    ensures { result ≡ seconds_from 0 digits.now }
{
    let mut seconds = 0u32;
    for digit in digits {
        if !digit.is_ascii_digit() {
            return None;
        }
        let more = seconds * 10 + u32::from(*digit - b'0');
        if more > MOST_GRACE {
            return None;
        }
        seconds = more;
    }
    Some(seconds)
}

//! The head of a request, as far as it has come.
ghost use Rattle.std.specs.Prelude.{◌≡◌, ◌<◌, ◌≤◌, ◌++◌, ℕ, List, length, map, All};
ghost use Rattle.admin_pages.specs.declared.heads.Reading.TheVariants.{Part};
ghost use Rattle.std.specs.List.{count_by, list_any};
ghost use Rattle.httparse.specs.Grammar.{HasNoRequest, MayBecomeRequest, ReadsRequest, RequestHead};
ghost use Rattle.httparse.specs.Spans.{IsHeaderWithin, IsRequestAt, IsRequestWithin, header_bytes};
ghost use Rattle.admin_pages.specs.Heads.{brings_body, field_brings_body, field_is_elsewhere, field_is_host, judged, reading_of, OnPart};
ghost use Rattle.admin_pages.specs.Hosts.{texts};

use crate::hosts::{is_elsewhere, is_host};
use crate::routes::{AdminRequest, Refusal, route};
use httparse::spans::{EMPTY_HEADER_SPAN, HeaderSpan, RequestSpans, parse_request};
use httparse::{Error, Status};

/// What the bytes of a connection come to.
#[derive(Clone, Copy, Debug, PartialEq, Eq)]
pub enum Reading {
    /// The head is not whole, and more bytes can make it so.
    Part,
    /// This is asked.
    Asked(AdminRequest),
    /// It is refused, and nothing else that comes on the connection matters.
    Refused(Refusal),
}

/// The most bytes of a head that is waited for.
const HEAD: usize = 8_192;

/// The most fields of a head.
const FIELDS: usize = 64;

/// Reads the first request of a connection from the bytes that have come so far (RFC 9112). A head may have 64 fields, and 8,192 bytes that do
/// not make it whole; one that can still come to be whole within these bounds is waited for. A request has exactly one Host (section 3.2), where it is of HTTP/1.0 at most one, and no body.
/// It is forbidden if a browser sends it for a web page of elsewhere. Then it has an Origin, a Sec-Fetch-Site that is neither `none` nor `same-origin`, or
/// another Host. Its own are addresses, `localhost` and `own`, the names that the server was given.
pub fn read_request(own: &[String], bytes: &[u8]) -> Reading
    ensures whole { (h : RequestHead) (rest : List ℕ) → ReadsRequest bytes.now h rest → length h.fields ≤ 64 → result ≡ judged (texts own.now) h }
    ensures waits { (more : List ℕ) (h : RequestHead) (rest : List ℕ) → ReadsRequest (bytes.now ++ more) h rest → length h.fields ≤ 64 → length bytes.now < 8192 → HasNoRequest bytes.now → result ≡ Part }
    ensures part { OnPart result ((length bytes.now < 8192) × HasNoRequest bytes.now × MayBecomeRequest bytes.now) }
{
    let mut headers = [EMPTY_HEADER_SPAN; FIELDS];
    match parse_request(bytes, &mut headers) {
        Ok(Status::Complete(head)) => match judge(own, bytes, &head, &headers) {
            Ok(asked) => Reading::Asked(asked),
            Err(refusal) => Reading::Refused(refusal),
        },
        Ok(Status::Partial) if bytes.len() < HEAD => Reading::Part,
        Ok(Status::Partial) | Err(Error::TooManyHeaders) => Reading::Refused(Refusal::HeadTooLarge),
        Err(_) => Reading::Refused(Refusal::BadRequest),
    }
}

fn judge(
    own: &[String],
    bytes: &[u8],
    head: &RequestSpans,
    headers: &[HeaderSpan],
) -> Result<AdminRequest, Refusal>
    requires within { IsRequestWithin bytes.now headers.now head.now }
    ensures { (h : RequestHead) → IsRequestAt bytes.now headers.now head.now h → reading_of result ≡ judged (texts own.now) h }
{
    let headers = &headers[..head.headers];
    let fields = tell_fields(bytes, headers);
    let is_old = head.version == 0;
    if fields.hosts > 1 || fields.hosts == 0 && !is_old {
        return Err(Refusal::BadRequest);
    }
    if comes_from_elsewhere(own, bytes, headers) {
        return Err(Refusal::Forbidden);
    }
    if fields.has_body {
        return Err(Refusal::HasBody);
    }
    route(head.method.of(bytes), head.path.of(bytes))
}

// How many fields are Host, and whether one announces a body.
#[derive(Clone, Copy)]
struct Fields {
    hosts: usize,
    has_body: bool,
}

fn tell_fields(bytes: &[u8], headers: &[HeaderSpan]) -> Fields
    requires { All (IsHeaderWithin (length bytes.now)) headers.now }
    ensures hosts { result.hosts ≡ count_by field_is_host (map (header_bytes bytes.now) headers.now) }
    ensures body { result.has_body ≡ list_any field_brings_body (map (header_bytes bytes.now) headers.now) }
{
    let mut hosts = 0usize;
    let mut has_body = false;
    for header in headers {
        let name = header.name.of(bytes);
        if is_host(name) {
            hosts += 1;
        }
        if brings_body(name, header.value.of(bytes)) {
            has_body = true;
        }
    }
    Fields { hosts, has_body }
}

fn comes_from_elsewhere(own: &[String], bytes: &[u8], headers: &[HeaderSpan]) -> bool
    requires { All (IsHeaderWithin (length bytes.now)) headers.now }
    ensures { result ≡ list_any (field_is_elsewhere (texts own.now)) (map (header_bytes bytes.now) headers.now) }
{
    for header in headers {
        if is_elsewhere(own, header.name.of(bytes), header.value.of(bytes)) {
            return true;
        }
    }
    false
}

fn brings_body(name: &[u8], value: &[u8]) -> bool
    ensures { result ≡ brings_body name.now value.now }
{
    name.eq_ignore_ascii_case(b"transfer-encoding")
        || name.eq_ignore_ascii_case(b"content-length") && value != b"0".as_slice()
}

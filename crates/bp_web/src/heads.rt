//! The head of a request, as httparse finds it, and the fields in it.
ghost use Rattle.std.specs.Prelude.{◌≡◌, ◌≤◌, All, drop, length, map, option_map, take};
ghost use Rattle.httparse.specs.Spans.{IsHeaderWithin, header_bytes};
ghost use Rattle.std.specs.Str.{str_eq_ignore_ascii_case};
ghost use Rattle.bp_web.specs.Heads.{FindsHead, IsWithin, has_head_field, value_of};

use httparse::Status;
use httparse::spans::{HeaderSpan, RequestSpans, parse_request};

/// The bytes within which a head ends.
pub const HEAD_LIMIT: usize = 16_384;

/// The most fields of a head.
pub const MAX_FIELDS: usize = 32;

/// What bytes begin with.
#[derive(Clone, Copy, Debug)]
pub enum Begin {
    /// A head, whose parts stand there.
    Head(RequestSpans),
    /// No head; more bytes may make one.
    Open,
    /// No head, whatever bytes follow.
    Closed,
}

/// The bytes within which a head ends.
pub fn start_of(bytes: &[u8]) -> &[u8]
    ensures { result.now ≡ take HEAD_LIMIT bytes.now }
{
    &bytes[..HEAD_LIMIT.min(bytes.len())]
}

/// What these bytes begin with. The room is that of a head's fields.
pub fn begin_of(start: &[u8], room: &mut [HeaderSpan]) -> Begin
    requires { length room.old ≡ MAX_FIELDS }
    ensures found { FindsHead start.now room.new result }
    ensures within { IsWithin start.now room.new result }
{
    match parse_request(start, room) {
        Ok(Status::Complete(spans)) => Begin::Head(spans),
        Ok(Status::Partial) => Begin::Open,
        Err(_) => Begin::Closed,
    }
}

/// What follows a head of so many bytes.
pub fn after(bytes: &[u8], len: usize) -> &[u8]
    requires { len ≤ length bytes.now }
    ensures { result.now ≡ drop len bytes.now }
{
    &bytes[len..]
}

/// The value of the field of that name, where there is exactly one.
pub fn only_named<'b>(start: &'b [u8], fields: &[HeaderSpan], name: &[u8]) -> Option<&'b [u8]>
    requires { All (IsHeaderWithin (length start.now)) fields.now }
    ensures { option_map (λ value. value.now) result
        ≡ value_of name.now (map (header_bytes start.now) fields.now) }
{
    let mut found = None;
    for field in fields {
        if is_named(field.name.of(start), name) {
            if found.is_some() {
                return None;
            }
            found = Some(field.value.of(start));
        }
    }
    found
}

/// Whether a field of that name stands there.
pub fn has_named(start: &[u8], fields: &[HeaderSpan], name: &[u8]) -> bool
    requires { All (IsHeaderWithin (length start.now)) fields.now }
    ensures { result ≡ has_head_field name.now (map (header_bytes start.now) fields.now) }
{
    for field in fields {
        if is_named(field.name.of(start), name) {
            return true;
        }
    }
    false
}

// Whether two names are one, without regard to ASCII case.
fn is_named(name: &[u8], other: &[u8]) -> bool
    ensures { result ≡ str_eq_ignore_ascii_case name.now other.now }
{
    name.eq_ignore_ascii_case(other)
}

// Requests as bytes.
ghost use Rattle.std.specs.Prelude.{◌≡◌, ◌≢◌, ◌≤◌, ◌++◌, All, IfNone, IfOk, IfSome, IsTrue, List, Result, codes, length, map, option_and_then, ℕ};
ghost use Rattle.httparse.specs.Spans.{IsHeaderWithin, header_bytes};
ghost use Rattle.sha2.specs.Sha256.{sha256};
ghost use Rattle.bp_web.specs.Calls.{call_of};
ghost use Rattle.bp_web.specs.Heads.{NeverBegins, start_of, value_of};
ghost use Rattle.bp_web.specs.Numbers.{number_of};
ghost use Rattle.bp_web.specs.Requests.{EndsAt, HttpReads, IsOpen, IsWhole, ReadAlike, asked_of, asking_at, body_length, data_of, given_length, wanted_by};
ghost use Rattle.bp_web.specs.declared.refusals.WebRefusal.{WebRefusal};
ghost use Rattle.bp_web.specs.declared.refusals.WebRefusal.TheVariants as refusals;
ghost use Rattle.bp_web.specs.declared.requests.Asked.{Asked};

use crate::calls::call_in;
use crate::heads::{
    Begin, HEAD_LIMIT, MAX_FIELDS, after, begin_of, has_named, only_named, start_of,
};
use crate::members::object_in;
use crate::refusals::WebRefusal;
use crate::router::RouteTable;
use crate::routes::{Route, route_in};
use bp_core::{OutOfMemory, number_in};
use bp_matter::Call;
use httparse::spans::{EMPTY_HEADER_SPAN, HeaderSpan};
use serde_json::Value;
use sha2::{Digest, Sha256};
use std::alloc::Global;

/// The most bytes of a body.
pub const MAX_BODY: usize = 1_048_576;

/// The most bytes of a request: those of the longest head and the longest body.
pub const MAX_REQUEST: usize = 1_064_960;

/// A call, and the key of the caller: the SHA-256 of what was presented.
#[derive(Debug, Drop)]
pub struct Asked {
    pub key: [u8; 32],
    pub call: Call,
}

/// What the head of a request asks for.
#[derive(Clone, Copy, Debug)]
pub struct Asking {
    pub route: Route,
    pub key: [u8; 32],
    /// How many bytes the body has.
    pub length: usize,
}

/// What the bytes of a request ask for: its call and key, or the first refusal in the order of
/// `request_of`. The bytes are all that came, or as many as `enough` asks for; what follows the
/// request is unread. The outcome is the only one that `HttpReads` has for these bytes.
///
/// ```text
/// read_request(alloc, b"GET /docs/1 HTTP/1.1\r\nDesk-Key: abc\r\n\r\n") // SeeDoc of document 1
/// read_request(alloc, b"GET /docs/0 HTTP/1.1\r\nDesk-Key: abc\r\n\r\n") // NoRoute
/// ```
pub fn read_request(alloc: Global, bytes: &[u8]) -> Result<Asked, WebRefusal>
    ensures reads { result ≢ Err refusals.OutOfMemory → HttpReads bytes.now result }
    ensures exact { (outcome : Result Asked WebRefusal) → HttpReads bytes.now outcome
        → result ≢ Err refusals.OutOfMemory → result ≡ outcome }
{
    let Ok(routes) = RouteTable::new(alloc) else {
        return Err(WebRefusal::OutOfMemory);
    };
    read_request_by(alloc, &routes, bytes)
}

/// The same by a table of the routes that was made before, as for many requests one after another.
pub fn read_request_by(
    alloc: Global,
    routes: &RouteTable,
    bytes: &[u8],
) -> Result<Asked, WebRefusal>
    ensures reads { result ≢ Err refusals.OutOfMemory → HttpReads bytes.now result }
    ensures exact { (outcome : Result Asked WebRefusal) → HttpReads bytes.now outcome
        → result ≢ Err refusals.OutOfMemory → result ≡ outcome }
{
    read(alloc, routes, bytes)
}

fn read(alloc: Global, routes: &RouteTable, bytes: &[u8]) -> Result<Asked, WebRefusal>
    ensures { result ≢ Err refusals.OutOfMemory → HttpReads bytes.now result }
{
    let start = start_of(bytes);
    let mut room = [EMPTY_HEADER_SPAN; MAX_FIELDS];
    match begin_of(start, &mut room) {
        Begin::Head(spans) => {
            let target = spans.path.of(start);
            let route = routes.find(spans.method.of(start), target);
            match asking_in(route, start, &room[..spans.headers]) {
                Ok(asking) => asked_in(alloc, asking, target, after(bytes, spans.len)),
                Err(refusal) => Err(refusal),
            }
        }
        Begin::Open => Err(WebRefusal::HeadRefused),
        Begin::Closed => Err(WebRefusal::HeadRefused),
    }
}

/// Whether more bytes of the request change nothing: at a whole request, at as many bytes as a head
/// may have without one, and where no bytes that follow can make a head. It takes no memory.
pub fn enough(bytes: &[u8]) -> bool
    ensures whole { IsWhole bytes.now → IsTrue result }
    ensures alike { IsTrue result → (more : List ℕ) → ReadAlike (bytes.now ++ more) bytes.now }
    ensures never { NeverBegins (start_of bytes.now) → IsTrue result }
    ensures most { MAX_REQUEST ≤ length bytes.now → IsTrue result }
{
    match whole_length(bytes) {
        Some(count) => count <= bytes.len(),
        None => false,
    }
}

/// How many bytes make the request whole, as soon as its first bytes tell; so that a loop which
/// reads needn't look at the head again. None while no head is there and one can come. Where none
/// can come, the bytes that are there are enough. It takes no memory.
///
/// ```text
/// whole_length(b"GET /docs/1 HTTP/1.1\r\nDesk-Key: abc\r\n\r\n") // Some(39)
/// whole_length(b"GET /docs/1 HTTP/1.1\r\nDesk-Key: abc\r\n")     // None
/// ```
pub fn whole_length(bytes: &[u8]) -> Option<usize>
    ensures ends { IfSome result (EndsAt bytes.now) }
    ensures most { IfSome result (λ count. count ≤ MAX_REQUEST) }
    ensures waits { IfNone result (IsOpen bytes.now) }
{
    let start = start_of(bytes);
    let mut room = [EMPTY_HEADER_SPAN; MAX_FIELDS];
    match begin_of(start, &mut room) {
        Begin::Head(spans) => {
            let route = route_in(spans.method.of(start), spans.path.of(start));
            Some(spans.len + wanted_in(route, start, &room[..spans.headers]))
        }
        Begin::Open => {
            if bytes.len() >= HEAD_LIMIT {
                Some(HEAD_LIMIT)
            } else {
                None
            }
        }
        Begin::Closed => Some(start.len()),
    }
}

// What a head asks for.
fn asking_in(
    route: Option<Route>,
    start: &[u8],
    fields: &[HeaderSpan],
) -> Result<Asking, WebRefusal>
    requires { All (IsHeaderWithin (length start.now)) fields.now }
    ensures { result ≡ asking_at route (map (header_bytes start.now) fields.now) }
{
    let Some(route) = route else {
        return Err(WebRefusal::NoRoute);
    };
    let Some(value) = only_named(start, fields, b"desk-key") else {
        return Err(WebRefusal::KeyMissing);
    };
    let key = digest_of(value);
    match body_len(route, start, fields) {
        Ok(length) => Ok(Asking { route, key, length }),
        Err(refusal) => Err(refusal),
    }
}

// How many bytes of body are to come after a head. It takes no digest of the key.
fn wanted_in(route: Option<Route>, start: &[u8], fields: &[HeaderSpan]) -> usize
    requires { All (IsHeaderWithin (length start.now)) fields.now }
    ensures { result ≡ wanted_by (asking_at route (map (header_bytes start.now) fields.now)) }
{
    let Some(route) = route else {
        return 0;
    };
    let Some(_) = only_named(start, fields, b"desk-key") else {
        return 0;
    };
    match body_len(route, start, fields) {
        Ok(length) => length,
        Err(_) => 0,
    }
}

/// The key of a caller who presents this.
pub fn digest_of(value: &[u8]) -> [u8; 32]
    ensures { result ≡ sha256 value.now }
{
    Sha256::digest(value)
}

// How many bytes of body belong to a request.
fn body_len(route: Route, start: &[u8], fields: &[HeaderSpan]) -> Result<usize, WebRefusal>
    requires { All (IsHeaderWithin (length start.now)) fields.now }
    ensures { result ≡ body_length route (map (header_bytes start.now) fields.now) }
{
    if route.is_get() {
        return Ok(0);
    }
    given_len(start, fields)
}

/// How many bytes of body a request says that it has (RFC 9112, section 6.2).
pub fn given_len(start: &[u8], fields: &[HeaderSpan]) -> Result<usize, WebRefusal>
    requires { All (IsHeaderWithin (length start.now)) fields.now }
    ensures { result ≡ given_length (map (header_bytes start.now) fields.now) }
{
    if has_named(start, fields, b"transfer-encoding") {
        return Err(WebRefusal::BodyRefused);
    }
    let Some(count) = content_length(start, fields) else {
        return Err(WebRefusal::BodyRefused);
    };
    if count <= MAX_BODY {
        Ok(count)
    } else {
        Err(WebRefusal::BodyLimit)
    }
}

// The number in the only Content-Length.
fn content_length(start: &[u8], fields: &[HeaderSpan]) -> Option<usize>
    requires { All (IsHeaderWithin (length start.now)) fields.now }
    ensures { result ≡ option_and_then number_of
        (value_of (codes "content-length") (map (header_bytes start.now) fields.now)) }
{
    let value = only_named(start, fields, b"content-length")?;
    let count = number_in(value)?;
    Some(count as usize)
}

// The call, where the body is whole and has the members.
fn asked_in(alloc: Global, asking: Asking, target: &[u8], after: &[u8]) -> Result<Asked, WebRefusal>
    ensures { result ≢ Err refusals.OutOfMemory → result ≡ asked_of asking target.now after.now }
{
    if after.len() < asking.length {
        return Err(WebRefusal::BodyRefused);
    }
    let key = asking.key;
    match call_of_body(alloc, asking.route, target, &after[..asking.length]) {
        Ok(Some(call)) => Ok(Asked { key, call }),
        Ok(None) => Err(WebRefusal::BodyRefused),
        Err(_) => Err(WebRefusal::OutOfMemory),
    }
}

fn call_of_body(
    alloc: Global,
    route: Route,
    target: &[u8],
    body: &[u8],
) -> Result<Option<Call>, OutOfMemory>
    ensures { IfOk result (λ call. call ≡ option_and_then (call_of route target.now)
        (data_of route body.now)) }
{
    if route.is_get() {
        return call_in(alloc, route, target, &Value::Null);
    }
    match object_in(alloc, body)? {
        Some(object) => call_in(alloc, route, target, &object),
        None => Ok(None),
    }
}

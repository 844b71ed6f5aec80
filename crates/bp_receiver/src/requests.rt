// Requests as bytes.
ghost use Rattle.std.specs.Prelude.{◌≡◌, ◌≢◌, ◌≤◌, ◌++◌, All, IfOk, IsTrue, List, Result, length, map, option_and_then, ℕ};
ghost use Rattle.httparse.specs.Spans.{IsHeaderWithin, header_bytes};
ghost use Rattle.serde_json.specs.View.{view};
ghost use Rattle.bp_web.specs.Heads.{NeverBegins, start_of};
ghost use Rattle.bp_web.specs.declared.refusals.WebRefusal.{WebRefusal};
ghost use Rattle.bp_web.specs.declared.refusals.WebRefusal.TheVariants as refusals;
ghost use Rattle.bp_receiver.specs.EventBodies.{event_at as event_spec, file_asked, grant_asked, said_at};
ghost use Rattle.bp_receiver.specs.EventRequests.{EventReadAlike, EventReads, IsWholeEvent, OwnWhole, ReadsOwn, event_asked, event_asking_at, event_body_length, is_no_route, event_wanted_by};
ghost use Rattle.bp_receiver.specs.declared.events.Event.{Event};

use crate::events::{Event, Wanted};
use crate::routes::{DeskRoute, route_in};
use crate::targets::path_in;
use bp_core::{OutOfMemory, StaffNo};
use bp_web::heads::{Begin, MAX_FIELDS, after, begin_of, only_named, start_of};
use bp_web::members::{number_in, object_in, text_in};
use bp_web::targets::name_in;
use bp_web::{
    Asked, MAX_REQUEST, RouteTable, WebRefusal, digest_of, enough, given_len, read_request_by,
};
use httparse::spans::{EMPTY_HEADER_SPAN, HeaderSpan};
use serde_json::Value;
use std::alloc::Global;

/// What the head of a request of the desk's own asks for.
#[derive(Clone, Copy, Debug)]
pub struct Asking {
    pub route: DeskRoute,
    pub key: [u8; 32],
    /// How many bytes the body has.
    pub length: usize,
}

/// What the bytes of a request ask of the desk: a call by `read_request` of `bp_web`, or one of the
/// desk's own events, or the first refusal in the same order. The bytes are all that came, or as many
/// as `event_enough` asks for. The outcome is the only one that `EventReads` has for these bytes.
///
/// ```text
/// read_event(alloc, b"GET /granted HTTP/1.1\r\nDesk-Key: abc\r\n\r\n") // Want List
/// read_event(alloc, b"GET /granted/Q HTTP/1.1\r\nDesk-Key: abc\r\n\r\n") // NoRoute
/// ```
pub fn read_event(alloc: Global, bytes: &[u8]) -> Result<Event, WebRefusal>
    ensures reads { result ≢ Err refusals.OutOfMemory → EventReads bytes.now result }
    ensures exact { (outcome : Result Event WebRefusal) → EventReads bytes.now outcome
        → result ≢ Err refusals.OutOfMemory → result ≡ outcome }
{
    let Ok(routes) = RouteTable::new(alloc) else {
        return Err(WebRefusal::OutOfMemory);
    };
    read_event_by(alloc, &routes, bytes)
}

/// The same by a table of the routes of calls that was made before.
pub fn read_event_by(alloc: Global, routes: &RouteTable, bytes: &[u8]) -> Result<Event, WebRefusal>
    ensures reads { result ≢ Err refusals.OutOfMemory → EventReads bytes.now result }
    ensures exact { (outcome : Result Event WebRefusal) → EventReads bytes.now outcome
        → result ≢ Err refusals.OutOfMemory → result ≡ outcome }
{
    read(alloc, routes, bytes)
}

fn read(alloc: Global, routes: &RouteTable, bytes: &[u8]) -> Result<Event, WebRefusal>
    ensures { result ≢ Err refusals.OutOfMemory → EventReads bytes.now result }
{
    match read_request_by(alloc, routes, bytes) {
        Ok(asked) => Ok(review_of(asked)),
        Err(refusal) => {
            if is_no_route(refusal) {
                read_own(alloc, bytes)
            } else {
                Err(refusal)
            }
        }
    }
}

fn is_no_route(refusal: WebRefusal) -> bool
    ensures { result ≡ is_no_route refusal }
{
    matches!(refusal, WebRefusal::NoRoute)
}

fn review_of(asked: Asked) -> Event
    ensures { result ≡ Event.Review asked.key asked.call }
{
    let Asked { key, call } = asked;
    Event::Review { key, call }
}

// What a request of the desk's own asks for, of bytes that a head begins.
fn read_own(alloc: Global, bytes: &[u8]) -> Result<Event, WebRefusal>
    ensures { result ≢ Err refusals.OutOfMemory → ReadsOwn bytes.now result }
{
    let start = start_of(bytes);
    let mut room = [EMPTY_HEADER_SPAN; MAX_FIELDS];
    match begin_of(start, &mut room) {
        Begin::Head(spans) => {
            let target = spans.path.of(start);
            let route = route_in(spans.method.of(start), target);
            match asking_in(route, start, &room[..spans.headers]) {
                Ok(asking) => asked_in(alloc, asking, target, after(bytes, spans.len)),
                Err(refusal) => Err(refusal),
            }
        }
        Begin::Open => Err(WebRefusal::HeadRefused),
        Begin::Closed => Err(WebRefusal::HeadRefused),
    }
}

/// Whether more bytes of the request change nothing: at a whole request, at as many bytes as a head
/// may have without one, and where no bytes that follow can make a head. It takes no memory.
pub fn event_enough(bytes: &[u8]) -> bool
    ensures whole { IsWholeEvent bytes.now → IsTrue result }
    ensures alike { IsTrue result → (more : List ℕ) → EventReadAlike (bytes.now ++ more) bytes.now }
    ensures never { NeverBegins (start_of bytes.now) → IsTrue result }
    ensures most { MAX_REQUEST ≤ length bytes.now → IsTrue result }
{
    if !enough(bytes) {
        return false;
    }
    own_is_whole(bytes)
}

// Whether the body of a request of the desk's own is whole, where the bytes are one.
fn own_is_whole(bytes: &[u8]) -> bool
    ensures { OwnWhole bytes.now result }
{
    let start = start_of(bytes);
    let mut room = [EMPTY_HEADER_SPAN; MAX_FIELDS];
    match begin_of(start, &mut room) {
        Begin::Head(spans) => {
            let method = spans.method.of(start);
            let target = spans.path.of(start);
            let route = route_in(method, target);
            let wanted = wanted_in(route, start, &room[..spans.headers]);
            let left = after(bytes, spans.len);
            wanted <= left.len()
        }
        Begin::Open => true,
        Begin::Closed => true,
    }
}

// What a head asks for.
fn asking_in(
    route: Option<DeskRoute>,
    start: &[u8],
    fields: &[HeaderSpan],
) -> Result<Asking, WebRefusal>
    requires { All (IsHeaderWithin (length start.now)) fields.now }
    ensures { result ≡ event_asking_at route (map (header_bytes start.now) fields.now) }
{
    let Some(route) = route else {
        return Err(WebRefusal::NoRoute);
    };
    let Some(value) = only_named(start, fields, b"desk-key") else {
        return Err(WebRefusal::KeyMissing);
    };
    let key = digest_of(value);
    match body_len(route, start, fields) {
        Ok(length) => Ok(Asking { route, key, length }),
        Err(refusal) => Err(refusal),
    }
}

// How many bytes of body are to come after a head.
fn wanted_in(route: Option<DeskRoute>, start: &[u8], fields: &[HeaderSpan]) -> usize
    requires { All (IsHeaderWithin (length start.now)) fields.now }
    ensures { result
        ≡ event_wanted_by (event_asking_at route (map (header_bytes start.now) fields.now)) }
{
    match asking_in(route, start, fields) {
        Ok(asking) => asking.length,
        Err(_) => 0,
    }
}

// How many bytes of body belong to a request.
fn body_len(route: DeskRoute, start: &[u8], fields: &[HeaderSpan]) -> Result<usize, WebRefusal>
    requires { All (IsHeaderWithin (length start.now)) fields.now }
    ensures { result ≡ event_body_length route (map (header_bytes start.now) fields.now) }
{
    if !route.has_body() {
        return Ok(0);
    }
    given_len(start, fields)
}

// The event, where the body is whole and has the members.
fn asked_in(alloc: Global, asking: Asking, target: &[u8], after: &[u8]) -> Result<Event, WebRefusal>
    ensures { result ≢ Err refusals.OutOfMemory → result ≡ event_asked asking target.now after.now }
{
    if after.len() < asking.length {
        return Err(WebRefusal::BodyRefused);
    }
    match event_in(alloc, &asking, target, &after[..asking.length]) {
        Ok(Some(event)) => Ok(event),
        Ok(None) => Err(WebRefusal::BodyRefused),
        Err(_) => Err(WebRefusal::OutOfMemory),
    }
}

fn event_in(
    alloc: Global,
    asking: &Asking,
    target: &[u8],
    body: &[u8],
) -> Result<Option<Event>, OutOfMemory>
    ensures { IfOk result (λ event. event
        ≡ option_and_then (event_spec asking.now.route asking.now.key target.now)
        (said_at asking.now.route body.now)) }
{
    if !asking.route.has_body() {
        return event_at(alloc, asking, target, &Value::Null);
    }
    match object_in(alloc, body)? {
        Some(object) => event_at(alloc, asking, target, &object),
        None => Ok(None),
    }
}

// The event of a route, where target and body have what it asks for.
fn event_at(
    alloc: Global,
    asking: &Asking,
    target: &[u8],
    body: &Value,
) -> Result<Option<Event>, OutOfMemory>
    ensures { IfOk result (λ event. event
        ≡ event_spec asking.now.route asking.now.key target.now (view body.now)) }
{
    let key = asking.key;
    match asking.route {
        DeskRoute::Grant => grant_in(alloc, key, body),
        DeskRoute::List => Ok(Some(Event::Want {
            key,
            wanted: Wanted::List,
        })),
        DeskRoute::File => file_in(alloc, key, target),
    }
}

fn grant_in(alloc: Global, key: [u8; 32], body: &Value) -> Result<Option<Event>, OutOfMemory>
    ensures { IfOk result (λ event. event ≡ grant_asked key (view body.now)) }
{
    let Some(staff) = number_in(body, "staff") else {
        return Ok(None);
    };
    let Some(id) = text_in(alloc, body, "id")? else {
        return Ok(None);
    };
    Ok(Some(Event::Grant {
        key,
        staff: StaffNo(staff),
        id,
    }))
}

fn file_in(alloc: Global, key: [u8; 32], target: &[u8]) -> Result<Option<Event>, OutOfMemory>
    ensures { IfOk result (λ event. event ≡ file_asked key target.now) }
{
    let Some(id) = name_in(alloc, target)? else {
        return Ok(None);
    };
    let Some(path) = path_in(alloc, target)? else {
        return Ok(None);
    };
    let wanted = Wanted::File { id, path };
    Ok(Some(Event::Want { key, wanted }))
}

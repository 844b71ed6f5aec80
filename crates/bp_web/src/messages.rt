//! An HTTP reply as bytes (RFC 9112).
ghost use Rattle.std.specs.Prelude.{◌≡◌, IfOk, false, string_bytes};
ghost use Rattle.http.specs.StatusCode.{IsStatusCode};
ghost use Rattle.serde_json.specs.View.{view};
ghost use Rattle.serde_json.specs.Written.{has_float};
ghost use Rattle.bp_web.specs.Messages.{fields_text, json_message, line_text, message_text, phrase};

use bp_core::{Bytes, OutOfMemory};
use http::StatusCode;
use serde_json::Value;
use std::alloc::{AllocError, Global};

// Room for the head of a reply.
const HEAD_ROOM: usize = 256;

/// The reply of this status with this value as compact JSON.
pub fn json_bytes(alloc: Global, status: u16, value: &Value) -> Result<Bytes, OutOfMemory>
    requires code { IsStatusCode status }
    requires whole { has_float (view value.now) ≡ false }
    ensures { IfOk result (λ bytes. bytes ≡ message_text (json_message status (view value.now))) }
{
    let body = value.to_vec(alloc)?;
    message_bytes(alloc, status, "application/json", &body)
}

/// The reply of this status with a body of this kind.
pub fn message_bytes(
    alloc: Global,
    status: u16,
    kind: &str,
    body: &[u8],
) -> Result<Bytes, OutOfMemory>
    requires { IsStatusCode status }
    ensures { IfOk result (λ bytes. bytes ≡ message_text (record {
      status = status;
      kind = kind.now;
      body = body.now;
    })) }
{
    let line = status_line(alloc, status, kind)?;
    let fields = last_fields(alloc, body.len())?;
    let mut bytes = Vec::with_capacity(alloc, body.len().saturating_add(HEAD_ROOM))?;
    bytes.extend_from_slice(line.as_bytes())?;
    bytes.extend_from_slice(fields.as_bytes())?;
    bytes.extend_from_slice(body)?;
    Ok(Bytes::from_vec(bytes))
}

// The status line, and the field that says what the body is.
fn status_line(alloc: Global, status: u16, kind: &str) -> Result<String, AllocError>
    requires { IsStatusCode status }
    ensures { IfOk result (λ line. string_bytes line ≡ line_text status kind.now) }
{
    let phrase = phrase_of(status);
    format!(in alloc; "HTTP/1.1 {status} {phrase}\r\nContent-Type: {kind}\r\n")
}

// The other fields, and the empty line.
fn last_fields(alloc: Global, len: usize) -> Result<String, AllocError>
    ensures { IfOk result (λ fields. string_bytes fields ≡ fields_text len) }
{
    format!(in alloc; "Content-Length: {len}\r\nConnection: close\r\n\r\n")
}

// The phrase that goes with a status.
fn phrase_of(status: u16) -> &'static str
    requires { IsStatusCode status }
    ensures { result.now ≡ phrase status }
{
    match StatusCode::from_u16(status) {
        Ok(code) => code.canonical_reason().unwrap_or(""),
        Err(_) => "",
    }
}

// The reply to each answer of the desk.
ghost use Rattle.std.specs.Prelude.{◌≡◌, IfOk};
ghost use Rattle.serde_json.specs.View.{view};
ghost use Rattle.bp_web.specs.Messages.{json_message, message_text};
ghost use Rattle.bp_receiver.specs.EventReplies.{file_message, given_message, granted_data, list_data};

use crate::events::Given;
use crate::grants::GrantedRow;
use bp_core::{Bytes, OutOfMemory};
use bp_matter::Reply;
use bp_web::bytes_of_reply;
use bp_web::messages::{json_bytes, message_bytes};
use serde_json::{Value, json};
use std::alloc::{AllocError, Global};

/// The bytes of what was given, head and body (RFC 9112): a reply to a call as `bytes_of_reply` of
/// `bp_web` has it, a file as it is, and the rest as compact JSON. Refusals are sent by
/// `reply_bytes` there.
pub fn given_bytes(alloc: Global, given: &Given) -> Result<Bytes, OutOfMemory>
    ensures { IfOk result (λ bytes. bytes ≡ message_text (given_message given.now)) }
{
    match given {
        Given::Review(reply) => bytes_of_reply(alloc, reply),
        Given::Granted => bytes_of_reply(alloc, &Reply::Done),
        Given::Ids(rows) => bytes_of_list(alloc, rows.as_slice()),
        Given::File(bytes) => bytes_of_file(alloc, bytes.as_slice()),
    }
}

fn bytes_of_list(alloc: Global, rows: &[GrantedRow]) -> Result<Bytes, OutOfMemory>
    ensures { IfOk result (λ bytes. bytes
        ≡ message_text (json_message 200 (list_data rows.now))) }
{
    let value = list_value(alloc, rows)?;
    json_bytes(alloc, 200, &value)
}

// What is granted, as JSON.
#[tactic(auto, unfolding(crate::specs::EventReplies::list_data))]
fn list_value(alloc: Global, rows: &[GrantedRow]) -> Result<Value, AllocError>
    ensures { IfOk result (λ value. view value ≡ list_data rows.now) }
{
    let mut values = Vec::new(alloc);
    for row in rows {
        values.push(granted_value(alloc, row)?)?;
    }
    Ok(Value::Array(values))
}

fn granted_value(alloc: Global, row: &GrantedRow) -> Result<Value, AllocError>
    ensures { IfOk result (λ value. view value ≡ granted_data row.now) }
{
    json!(in alloc; {
        "first": row.span.first,
        "id": row.id.as_str(),
        "last": row.span.last
    })
}

fn bytes_of_file(alloc: Global, bytes: &[u8]) -> Result<Bytes, OutOfMemory>
    ensures { IfOk result (λ sent. sent ≡ message_text (file_message bytes.now)) }
{
    message_bytes(alloc, 200, "application/octet-stream", bytes)
}

// The reply to each answer.
ghost use Rattle.std.specs.Prelude.{◌≡◌, IfOk};
ghost use Rattle.http.specs.StatusCode.{IsStatusCode};
ghost use Rattle.bp_tiff.specs.Tiff.{tiff_of};
ghost use Rattle.bp_tiff.specs.declared.form.Form.TheVariants.{G4};
ghost use Rattle.bp_web.specs.Messages.{json_message, message_text};
ghost use Rattle.bp_web.specs.Replies.{other_message, reply_message, reply_text, rule_data, rule_status, web_message};

use crate::messages::{json_bytes, message_bytes};
use crate::refusals::WebRefusal;
use crate::values::{
    doc_value, done_value, fields_value, found_value, people_value, production_value,
    productions_value, refusal_value, staff_value, states_value, words_value,
};
use bp_core::{Bytes, OutOfMemory, Rule, RuleKind};
use bp_matter::{KeptPage, Reply};
use bp_tiff::write_strip;
use std::alloc::Global;

/// What is sent back.
#[derive(Debug, Drop)]
pub enum Answer {
    /// The call was made, and this is its reply.
    Reply(Reply),
    /// The call breaks this rule.
    Rule(Rule),
    /// The request wasn't read.
    Web(WebRefusal),
    /// The keeper failed.
    KeeperFault,
    /// The journal has room for no more calls than these.
    JournalFull(u64),
    OutOfMemory,
}

/// What is sent for want of memory, without taking memory: `reply_text` of `OutOfMemory`.
pub const NO_MEMORY: &[u8] =
    b"HTTP/1.1 507 Insufficient Storage\r\nContent-Type: application/json\r\nContent-Length: 54\r\nConnection: close\r\n\r\n{\"a\":0,\"b\":0,\"line\":0,\"name\":\"OutOfMemory\",\"rule\":108}";

/// The bytes of an answer, head and body (RFC 9112). A page is a Group 4 file, everything else
/// compact JSON.
///
/// ```text
/// reply_bytes(alloc, &Answer::Reply(Reply::Done))
/// // HTTP/1.1 200 OK
/// // Content-Type: application/json
/// // Content-Length: 13
/// // Connection: close
/// //
/// // {"done":true}
/// ```
pub fn reply_bytes(alloc: Global, answer: &Answer) -> Result<Bytes, OutOfMemory>
    ensures { IfOk result (λ bytes. bytes ≡ reply_text answer.now) }
{
    match answer {
        Answer::Reply(reply) => bytes_of_reply(alloc, reply),
        Answer::Rule(rule) => bytes_of_rule(alloc, rule),
        Answer::Web(refusal) => bytes_of_refusal(alloc, *refusal),
        Answer::JournalFull(count) => other_bytes(alloc, 429, 106, "JournalFull", *count),
        Answer::KeeperFault => other_bytes(alloc, 503, 107, "KeeperFault", 0),
        Answer::OutOfMemory => bytes_of_refusal(alloc, WebRefusal::OutOfMemory),
    }
}

/// The bytes of the reply to a call, as `reply_bytes` has them for an answer with this reply.
pub fn bytes_of_reply(alloc: Global, reply: &Reply) -> Result<Bytes, OutOfMemory>
    ensures { IfOk result (λ bytes. bytes ≡ message_text (reply_message reply.now)) }
{
    match reply {
        Reply::Staff(staff) => {
            let value = staff_value(alloc, *staff)?;
            json_bytes(alloc, 200, &value)
        }
        Reply::Doc(view) => {
            let value = doc_value(alloc, view)?;
            json_bytes(alloc, 200, &value)
        }
        Reply::Image(page) => {
            let file = page_file(alloc, page)?;
            message_bytes(alloc, 200, "image/tiff", file.as_slice())
        }
        Reply::Words(words) => {
            let value = words_value(alloc, words.as_slice())?;
            json_bytes(alloc, 200, &value)
        }
        Reply::Done => {
            let value = done_value(alloc)?;
            json_bytes(alloc, 200, &value)
        }
        Reply::Produced(production) => {
            let value = production_value(alloc, production)?;
            json_bytes(alloc, 200, &value)
        }
        Reply::States(rows) => {
            let value = states_value(alloc, rows.as_slice())?;
            json_bytes(alloc, 200, &value)
        }
        Reply::Values(rows) => {
            let value = fields_value(alloc, rows.as_slice())?;
            json_bytes(alloc, 200, &value)
        }
        Reply::People(rows) => {
            let value = people_value(alloc, rows.as_slice())?;
            json_bytes(alloc, 200, &value)
        }
        Reply::Productions(rows) => {
            let value = productions_value(alloc, rows.as_slice())?;
            json_bytes(alloc, 200, &value)
        }
        Reply::Found(found) => {
            let value = found_value(alloc, found)?;
            json_bytes(alloc, 200, &value)
        }
    }
}

// The Group 4 file of a page: its strip is there already.
fn page_file(alloc: Global, page: &KeptPage) -> Result<Bytes, OutOfMemory>
    ensures { IfOk result (λ bytes. bytes ≡ tiff_of G4 page.now) }
{
    let frame = page.frame();
    write_strip(
        alloc,
        frame.width,
        frame.height,
        frame.xres,
        frame.yres,
        frame.unit,
        page.strip(),
    )
}

fn bytes_of_rule(alloc: Global, rule: &Rule) -> Result<Bytes, OutOfMemory>
    ensures { IfOk result (λ bytes. bytes
        ≡ message_text (json_message (rule_status rule.now.kind) (rule_data rule.now))) }
{
    let number = u64::from(rule.number());
    let line = u64::from(rule.line);
    let value = refusal_value(alloc, number, rule.name(), line, rule.a, rule.b)?;
    json_bytes(alloc, status_of(rule.kind), &value)
}

// The status of a broken rule.
fn status_of(kind: RuleKind) -> u16
    ensures value { result ≡ rule_status kind }
    ensures code { IsStatusCode result }
{
    match kind {
        RuleKind::KeyUnknown => 401,
        RuleKind::RoleRefused => 403,
        RuleKind::NoDocument => 404,
        RuleKind::NoPage => 404,
        RuleKind::NoProduction => 404,
        RuleKind::NoFile => 404,
        _ => 409,
    }
}

fn bytes_of_refusal(alloc: Global, refusal: WebRefusal) -> Result<Bytes, OutOfMemory>
    ensures { IfOk result (λ bytes. bytes ≡ message_text (web_message refusal)) }
{
    match refusal {
        WebRefusal::HeadRefused => other_bytes(alloc, 400, 101, "HeadRefused", 0),
        WebRefusal::BodyRefused => other_bytes(alloc, 400, 102, "BodyRefused", 0),
        WebRefusal::BodyLimit => other_bytes(alloc, 413, 103, "BodyLimit", 0),
        WebRefusal::KeyMissing => other_bytes(alloc, 401, 104, "KeyMissing", 0),
        WebRefusal::NoRoute => other_bytes(alloc, 404, 105, "NoRoute", 0),
        WebRefusal::OutOfMemory => other_bytes(alloc, 507, 108, "OutOfMemory", 0),
    }
}

// A refusal that is no rule of a call, with one value.
fn other_bytes(
    alloc: Global,
    status: u16,
    number: u64,
    name: &str,
    a: u64,
) -> Result<Bytes, OutOfMemory>
    requires { IsStatusCode status }
    ensures { IfOk result (λ bytes. bytes
        ≡ message_text (other_message status number name.now a)) }
{
    let value = refusal_value(alloc, number, name, 0, a, 0)?;
    json_bytes(alloc, status, &value)
}

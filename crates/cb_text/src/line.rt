//! The line of output of a request and its reply.

ghost use Rattle.std.specs.Prelude.{◌≡◌, ◌++◌, OnOk, OnErr, IfOk};
ghost use Rattle.std.specs.Io.{StartsWith};
ghost use Rattle.cb_types.specs.Table.{IsReplyOf};
ghost use Rattle.cb_text.specs.Line.{answer_line, subject_text};

use crate::reply::push_reply;
use crate::verb::verb;
use crate::word::{push_number, push_word};
use cb_types::{Bytes, Lane, NoMemory, Reply, Request};
use itoa::Buffer;
use std::alloc::Global;

/// The line of output that tells a request of a lane and its reply, with its line feed. The reply is
/// one that a line of this request may be answered.
pub fn line_text(
    alloc: Global,
    lane: Lane,
    request: &Request,
    reply: &Reply,
) -> Result<Bytes, NoMemory>
    requires { IsReplyOf request.now reply.now }
    ensures text { IfOk result (λ text. text ≡ answer_line lane request.now reply.now) }
{
    let mut text = Vec::new(alloc);
    push_line(&mut text, lane, request, reply)?;
    Ok(Bytes::from(text))
}

/// Adds the line of output that tells a request of a lane and its reply at the end of a text. Where
/// memory lacks the text is as it was.
pub fn push_line(
    text: &mut Vec<u8>,
    lane: Lane,
    request: &Request,
    reply: &Reply,
) -> Result<(), NoMemory>
    requires { IsReplyOf request.now reply.now }
    ensures text { OnOk result (text.new.items
        ≡ text.old.items ++ answer_line lane request.now reply.now) }
    ensures error { OnErr result (text.new.items ≡ text.old.items) }
{
    let before = text.len();
    let pushed = push_parts(text, lane, request, reply);
    if pushed.is_err() {
        text.truncate(before);
    }
    pushed
}

/// Adds the parts of a line one after the other, as far as there is memory.
fn push_parts(
    text: &mut Vec<u8>,
    lane: Lane,
    request: &Request,
    reply: &Reply,
) -> Result<(), NoMemory>
    ensures text { OnOk result (text.new.items
        ≡ text.old.items ++ answer_line lane request.now reply.now) }
    ensures kept { StartsWith text.new.items text.old.items }
{
    text.extend_from_slice(Buffer::new().format(lane.n).as_bytes())?;
    push_word(text, verb(request).as_bytes())?;
    push_subject(text, request)?;
    push_reply(text, reply)?;
    text.push(b'\n')?;
    Ok(())
}

/// Adds the node or the name of a request, where it has one.
fn push_subject(text: &mut Vec<u8>, request: &Request) -> Result<(), NoMemory>
    ensures text { OnOk result (text.new.items ≡ text.old.items ++ subject_text request.now) }
    ensures kept { StartsWith text.new.items text.old.items }
{
    match request {
        Request::Crash { node } => push_number(text, u64::from(node.n)),
        Request::Join { node } => push_number(text, u64::from(node.n)),
        _ => match request.name() {
            Some(name) => push_word(text, name.as_slice()),
            None => Ok(()),
        },
    }
}

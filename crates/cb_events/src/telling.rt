//! Replies as lines.

ghost use Rattle.std.specs.Prelude.{◌≡◌, ◌++◌, IfOk, OnOk};
ghost use Rattle.std.specs.List.{flat_map};
ghost use Rattle.cb_events.specs.Told.{no_config, rest_line, told_line, told_text};

use cb_text::reply::push_reply;
use cb_text::word::{push_counted, push_number, push_version, push_word};
use cb_types::{NoMemory, Reply};
use std::alloc::Global;

/// Adds the words of a reply at the end, each after a space.
fn push_told(text: &mut Vec<u8>, reply: &Reply) -> Result<(), NoMemory>
    ensures { OnOk result (text.new.items ≡ text.old.items ++ told_text reply.now) }
{
    match reply {
        Reply::Made { handle, version } => {
            push_counted(text, b"made", u64::from(handle.n))?;
            push_version(text, *version)
        }
        Reply::Swapped { frame } => push_counted(text, b"swapped", u64::from(*frame)),
        Reply::Word { word } => push_counted(text, b"word", *word),
        Reply::Stored { left } => push_counted(text, b"stored", u64::from(*left)),
        Reply::NotStored { left } => push_counted(text, b"notstored", u64::from(*left)),
        Reply::Held { seat } => push_counted(text, b"held", u64::from(*seat)),
        Reply::Stays => push_word(text, b"stays"),
        Reply::Claimed => push_word(text, b"claimed"),
        Reply::NotClaimed => push_word(text, b"notclaimed"),
        Reply::NotHeld => push_word(text, b"notheld"),
        Reply::Crowded => push_word(text, b"crowded"),
        Reply::NoOrder => push_word(text, b"noorder"),
        Reply::Direct => push_word(text, b"direct"),
        Reply::Fetched { set, position } => {
            push_counted(text, b"fetched", set.n)?;
            push_number(text, u64::from(*position))
        }
        _ => push_reply(text, reply),
    }
}

/// Adds the line of a reply at the end.
fn push_line(text: &mut Vec<u8>, reply: &Reply) -> Result<(), NoMemory>
    ensures { OnOk result (text.new.items ≡ text.old.items ++ told_line reply.now) }
{
    text.extend_from_slice(b"reply")?;
    push_told(text, reply)?;
    text.push(b'\n')?;
    Ok(())
}

/// The lines of replies, and the last line, that so many bytes were not read.
pub(crate) fn replies_text(
    alloc: Global,
    replies: &[Reply],
    left: usize,
) -> Result<Vec<u8>, NoMemory>
    ensures { IfOk result (λ text.
        text.items ≡ flat_map told_line replies.now ++ rest_line left) }
{
    let mut text = Vec::new(alloc);
    for reply in replies {
        push_line(&mut text, reply)?;
    }
    text.extend_from_slice(b"rest")?;
    push_number(&mut text, left as u64)?;
    text.push(b'\n')?;
    Ok(text)
}

/// The text where there is no configuration.
pub(crate) fn refusal_text(alloc: Global) -> Result<Vec<u8>, NoMemory>
    ensures { IfOk result (λ text. text.items ≡ no_config) }
{
    let mut text = Vec::new(alloc);
    text.extend_from_slice(b"no configuration\n")?;
    Ok(text)
}

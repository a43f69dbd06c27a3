//! What passes wrote and read of objects, and whether it is one history.
use crate::told::{Number, Plain, Told};
use cb_types::NoMemory;

/// The object that may be freed.
pub(crate) const MORTAL: usize = 3;

/// The word that a free leaves.
pub(crate) const FREED: u64 = u64::MAX;

/// A version of an object all of whose words are alike, written or read.
#[derive(Clone, Copy)]
pub(crate) struct Note {
    object: usize,
    version: u64,
    word: u64,
    is_written: bool,
}

/// The version that a call told of, written with this word or read with its own.
fn note_of(object: usize, word: u64, told: Told) -> Option<Note> {
    match told {
        Told::Count(Number::Version, version) => Some(Note {
            object,
            version,
            word,
            is_written: true,
        }),
        Told::Bytes { version, word, .. } => Some(Note {
            object,
            version,
            word,
            is_written: false,
        }),
        _ => None,
    }
}

/// Whether no call is wrong that tells so.
fn is_right(object: usize, told: Told) -> bool {
    match told {
        Told::Just(Plain::Torn) | Told::Just(Plain::Worn) | Told::Just(Plain::Other) => false,
        Told::Step(..) => false,
        Told::Just(Plain::Freed) => object == MORTAL,
        _ => true,
    }
}

/// Notes what a call told that would have written this word; whether no call is wrong that tells so.
pub(crate) fn take_note(
    notes: &mut Vec<Note>,
    object: usize,
    word: u64,
    told: Told,
) -> Result<bool, NoMemory> {
    if let Some(note) = note_of(object, word, told) {
        notes.push(note)?;
    }
    Ok(is_right(object, told))
}

/// The one word that was written with a version of an object, 0 for the first; None where none or
/// more than one was.
fn written(notes: &[Note], object: usize, version: u64) -> Option<u64> {
    let mut found = if version == 1 { Some(0u64) } else { None };
    for note in notes {
        if note.is_written && note.object == object && note.version == version {
            if found.is_some() {
                return None;
            }
            found = Some(note.word);
        }
    }
    found
}

/// One more than the versions of an object that were written.
pub(crate) fn last(notes: &[Note], object: usize) -> u64 {
    let mut last = 1u64;
    for note in notes {
        if note.is_written && note.object == object {
            last = last.saturating_add(1);
        }
    }
    last
}

/// The word of an object's last version; None where its versions were not written from the second
/// to the last, once each, or one was read with another word than was written.
pub(crate) fn last_word(notes: &[Note], object: usize) -> Option<u64> {
    let last = last(notes, object);
    for note in notes {
        if note.object == object
            && (note.version > last || written(notes, object, note.version) != Some(note.word))
        {
            return None;
        }
    }
    written(notes, object, last)
}

//! The calls on one object that a value keeps. All calls of the runtime stand here: above, nothing
//! sees a reply.
ghost use Rattle.std.specs.Prelude.{◌≡◌, ℕ, List, ◌+◌, ◌-◌, ◌<◌, ◌≤◌, true, false, [], ◌∷◌, length};
ghost use Rattle.std.specs.Prelude.{slice_set, take, Some, Ok, IfOk, OnErr, OnOk};
ghost use Rattle.cb_types.specs.declared.reply.Reply.TheVariants as answer;
ghost use Rattle.cb_shared.specs.Passes.{IsPassOf, record_of};
ghost use Rattle.cb_shared.specs.Recalls.{first_version_of};
ghost use Rattle.cb_farmap.specs.declared.kept.KeptObject.{KeptObject};
ghost use Rattle.cb_farmap.specs.Calls.{AskMake, AskRead, AskWrite, Goes, Tells, trouble};
ghost use Rattle.cb_farmap.specs.Changes.{IsCalm, IsLoose, IsSole, Makes, Rewrites, with_next};
ghost use Rattle.cb_farmap.specs.Objects.{IsObject, bytes_at, object_at};

use crate::kept::{Cannot, KeptObject, Objects};
use cb_shared::{Pass, Shared};
use cb_types::{Bytes, NoMemory, Reply};
use std::alloc::Global;
use std::sync::Wait;

/// The bytes of an object at its kept version. Refused by any reply but its bytes; Foreign where
/// they are those of another version.
pub(crate) fn read_kept<R: Wait>(
    rt: &R,
    alloc: Global,
    shared: &Shared,
    pass: &mut Pass,
    kept: KeptObject,
) -> Result<Bytes, Cannot>
    requires of { IsPassOf shared.now pass.old }
    requires object { IsObject (record_of pass.old).written kept }
    ensures of { IsPassOf shared.now pass.new }
    ensures goes { Goes shared.now.config (first_version_of shared.now) (AskRead kept ∷ [])
        (trouble result) (record_of pass.old) (record_of pass.new) }
    ensures bytes { IfOk result (λ bytes. bytes ≡ bytes_at (record_of pass.old).written kept) }
    ensures calm { IsSole (record_of pass.old) kept → IsLoose (record_of pass.old) kept
        → IsCalm (trouble result) }
{
    let read = shared.read(rt, alloc, pass, kept.handle);
    shared.recall(pass);
    bytes_read(kept, read)
}

/// The bytes that were read of an object at its kept version, or why there are none.
fn bytes_read(kept: KeptObject, read: Result<Reply, NoMemory>) -> Result<Bytes, Cannot>
    ensures tells { Tells (AskRead kept) read (trouble result) }
    ensures bytes { IfOk result (λ bytes. read ≡ Ok (answer.Bytes kept.version bytes)) }
{
    match read {
        Ok(Reply::Bytes { version, bytes }) => {
            if version == kept.version {
                Ok(bytes)
            } else {
                Err(Cannot::Foreign {
                    handle: kept.handle,
                    kept: kept.version,
                    found: version,
                })
            }
        }
        Ok(reply) => Err(Cannot::Refused { reply }),
        Err(_) => Err(Cannot::NoMemory),
    }
}

/// Writes bytes into the object with this index at its kept version, and keeps its next one.
/// Refused by any reply but a version; Foreign where that is another one; both keep nothing, and so
/// does running out of memory.
#[inline(always)]
pub(crate) fn write_kept<R: Wait>(
    rt: &R,
    alloc: Global,
    shared: &Shared,
    pass: &mut Pass,
    kept: &mut Objects,
    o: usize,
    at: u32,
    bytes: &[u8],
) -> Result<(), Cannot>
    requires of { IsPassOf shared.now pass.old }
    requires there { o < length kept.old }
    requires object { IsObject (record_of pass.old).written (object_at kept.old o) }
    requires within { at + length bytes.now ≤ 1024 }
    ensures of { IsPassOf shared.now pass.new }
    ensures goes { Goes shared.now.config (first_version_of shared.now)
        (AskWrite (object_at kept.old o) at bytes.now ∷ []) (trouble result)
        (record_of pass.old) (record_of pass.new) }
    ensures wrote { OnOk result (Rewrites (record_of pass.old).written (object_at kept.old o)
        (with_next (object_at kept.old o)) at bytes.now (record_of pass.new).written) }
    ensures done { OnOk result
        (kept.new ≡ slice_set kept.old o (with_next (object_at kept.old o))) }
    ensures stays { OnErr result (kept.new ≡ kept.old) }
    ensures calm { IsSole (record_of pass.old) (object_at kept.old o)
        → IsLoose (record_of pass.old) (object_at kept.old o) → IsCalm (trouble result) }
{
    let object = kept.at(o);
    let wrote = shared.write(rt, alloc, pass, object.handle, at, bytes);
    shared.recall(pass);
    if keep_written(kept, o, &wrote) {
        Ok(())
    } else {
        Err(unwritten(object, wrote))
    }
}

/// Keeps the version one above the kept one of the object with this index, where its write was
/// answered that, and says whether it was.
#[inline(always)]
fn keep_written(kept: &mut Objects, o: usize, wrote: &Result<Reply, NoMemory>) -> bool
    requires there { o < length kept.old }
    ensures yes { result ≡ true
        → (wrote.now ≡ Ok (answer.Version ((object_at kept.old o).version + 1)))
        × (kept.new ≡ slice_set kept.old o (with_next (object_at kept.old o))) }
    ensures no { result ≡ false
        → (wrote.now ≡ Ok (answer.Version ((object_at kept.old o).version + 1)) → ⊥)
        × (kept.new ≡ kept.old) }
{
    let object = kept.at(o);
    match wrote {
        Ok(Reply::Version { version }) => {
            let version = *version;
            if version > object.version && version - object.version == 1 {
                kept.set(
                    o,
                    KeptObject {
                        handle: object.handle,
                        version,
                    },
                );
                true
            } else {
                false
            }
        }
        Ok(_) => false,
        Err(_) => false,
    }
}

/// Why a write of an object was not answered the version above its kept one.
#[inline(always)]
fn unwritten(object: KeptObject, wrote: Result<Reply, NoMemory>) -> Cannot
    requires other { wrote ≡ Ok (answer.Version (object.version + 1)) → ⊥ }
    ensures tells { (at : ℕ) (bytes : List ℕ)
        → Tells (AskWrite object at bytes) wrote (Some result) }
{
    match wrote {
        Ok(Reply::Version { version }) => Cannot::Foreign {
            handle: object.handle,
            kept: object.version,
            found: version.saturating_sub(1),
        },
        Ok(reply) => Cannot::Refused { reply },
        Err(_) => Cannot::NoMemory,
    }
}

/// Makes an object of these bytes, and keeps it after the others. Takes the memory for its place
/// before the make; without Made the objects are as they were.
pub(crate) fn make_kept<R: Wait>(
    rt: &R,
    alloc: Global,
    shared: &Shared,
    pass: &mut Pass,
    kept: &mut Objects,
    bytes: &[u8],
) -> Result<(), Cannot>
    requires of { IsPassOf shared.now pass.old }
    requires size { length bytes.now ≡ 1024 }
    ensures of { IsPassOf shared.now pass.new }
    ensures goes { Goes shared.now.config (first_version_of shared.now) (AskMake bytes.now ∷ [])
        (trouble result) (record_of pass.old) (record_of pass.new) }
    ensures made { IfOk result (λ _. Makes (record_of pass.old).written kept.old kept.new bytes.now
        (record_of pass.new).written) }
    ensures stays { OnErr result (kept.new ≡ kept.old) }
    ensures calm { IsCalm (trouble result) }
{
    kept.push_blank()?;
    let made = shared.make(rt, alloc, pass, bytes);
    shared.recall(pass);
    let answer = made_of(made);
    settle(kept, answer)
}

/// What was made.
fn made_of(made: Result<Reply, NoMemory>) -> Result<KeptObject, Cannot>
    ensures tells { (bytes : List ℕ) → Tells (AskMake bytes) made (trouble result) }
    ensures made { IfOk result (λ k. made ≡ Ok (answer.Made k.handle k.version)) }
{
    match made {
        Ok(Reply::Made { handle, version }) => Ok(KeptObject { handle, version }),
        Ok(reply) => Err(Cannot::Refused { reply }),
        Err(_) => Err(Cannot::NoMemory),
    }
}

/// Puts what was made in the last place, or takes that away.
fn settle(kept: &mut Objects, made: Result<KeptObject, Cannot>) -> Result<(), Cannot>
    requires some { 1 ≤ length kept.old }
    ensures same { trouble result ≡ trouble made }
    ensures done { IfOk result (λ _. (k : KeptObject) × (made ≡ Ok k)
        × (kept.new ≡ slice_set kept.old (length kept.old - 1) k)) }
    ensures undone { OnErr result (kept.new ≡ take (length kept.old - 1) kept.old) }
{
    match made {
        Ok(k) => {
            kept.set(kept.len() - 1, k);
            Ok(())
        }
        Err(cannot) => {
            kept.pop();
            Err(cannot)
        }
    }
}

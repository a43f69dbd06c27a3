//! Encoders for C: made, used and sized.

ghost use Rattle.std.specs.Prelude.{◌≡◌, ◌<◌, ◌↔◌, None, Some, IfOk, IsTrue};
ghost use Rattle.cb_gf256.specs.InRange.{IsInRange};
ghost use Rattle.carbink_c.specs.Encoder.{shape_in, shape_of, AreSized};
ghost use Rattle.carbink_c.specs.Encoder.{BeginsEncoder, MakesParities};
ghost use Rattle.carbink_c.specs.Status.{IsNumberOf};

use crate::buffers::size_of_rows;
use crate::encoder::Encoder;
use crate::parities::put_parities;
use crate::prepared::CarbinkEncoder;
use crate::status::{Status, refused_shape};
use cb_code::coefficients;
use cb_gf256::NoMemory;
use std::alloc::{AllocError, Global};
use std::mem;

/// Makes an encoder of the code of `k` data rows and `r` parities for rows of `len` bytes, where
/// the handle holds none. Where the answer is not Done, the handle stays as it is.
#[unsafe(no_mangle)]
pub extern "C" fn carbink_encoder_new(
    alloc: Global,
    handle: &mut CarbinkEncoder,
    k: u32,
    r: u32,
    len: u32,
) -> u32
    ensures { IsNumberOf (BeginsEncoder (record { k = k; r = r; len = len }) (shape_in handle.old)
        (shape_in handle.new)) result }
{
    begun(alloc, handle, k, r, len).number()
}

fn begun(alloc: Global, handle: &mut CarbinkEncoder, k: u32, r: u32, len: u32) -> Status
    ensures { BeginsEncoder (record { k = k; r = r; len = len }) (shape_in handle.old)
        (shape_in handle.new) result }
{
    if handle.holds() {
        return Status::HasEncoder;
    }
    if let Some(refused) = refused_shape(k, r, len) {
        return refused;
    }
    put_new(alloc, handle, k, r, len)
}

/// Puts an encoder in. Where there is no memory, the handle stays as it is.
fn put_new(alloc: Global, handle: &mut CarbinkEncoder, k: u32, r: u32, len: u32) -> Status
    requires none { handle.old.kept.encoder ≡ None }
    requires in_range { IsInRange k r }
    requires some { 0 < len }
    ensures { BeginsEncoder (record { k = k; r = r; len = len }) (shape_in handle.old)
        (shape_in handle.new) result }
{
    match boxed(alloc, k, r, len) {
        Ok(boxed) => {
            handle.put(boxed);
            Status::Done
        }
        Err(NoMemory) => Status::NoMemory,
    }
}

/// An encoder of this code in a block of its own, for rows of so many bytes. The only error is out
/// of memory.
fn boxed(alloc: Global, k: u32, r: u32, len: u32) -> Result<Box<Encoder>, NoMemory>
    requires in_range { IsInRange k r }
    ensures { IfOk result (λ boxed. shape_of boxed.value ≡ record { k = k; r = r; len = len }) }
{
    let code = coefficients(k, r);
    match Box::new(alloc, Encoder { k, len, code }) {
        Ok(boxed) => Ok(boxed),
        Err(failed) => Err(AllocError::from(failed).into()),
    }
}

/// Makes the parities of data rows by the encoder: `given` has its `k` rows of `len` bytes one
/// after another, and `parities` takes its `r` parities so. Where the answer is not Done,
/// `parities` stays as it is. It takes no memory.
#[unsafe(no_mangle)]
pub extern "C" fn carbink_encoder_encode(
    alloc: Global,
    handle: &mut CarbinkEncoder,
    given: &[u8],
    parities: &mut [u8],
) -> u32
    ensures ends { IsNumberOf (MakesParities (shape_in handle.old) given.now parities.old
        parities.new) result }
    ensures same { shape_in handle.new ≡ shape_in handle.old }
{
    encoded(alloc, handle, given, parities).number()
}

fn encoded(alloc: Global, handle: &mut CarbinkEncoder, given: &[u8], parities: &mut [u8]) -> Status
    ensures ends { MakesParities (shape_in handle.old) given.now parities.old parities.new result }
    ensures same { shape_in handle.new ≡ shape_in handle.old }
{
    match handle.take(alloc) {
        Some(boxed) => {
            let status = encoded_by(&boxed, given, parities);
            handle.put(boxed);
            status
        }
        None => Status::NoEncoder,
    }
}

fn encoded_by(e: &Encoder, given: &[u8], parities: &mut [u8]) -> Status
    ensures { MakesParities (Some (shape_of e.now)) given.now parities.old parities.new result }
{
    if !are_sized(e, given, parities) {
        return Status::BadBuffer;
    }
    put_parities(&e.code, e.k, e.len, given, parities);
    Status::Done
}

/// Whether the buffers have as many bytes as the rows of the encoder.
fn are_sized(e: &Encoder, given: &[u8], parities: &[u8]) -> bool
    ensures { IsTrue result ↔ AreSized (shape_of e.now) given.now parities.now }
{
    let r = e.code.parities();
    given.len() == size_of_rows(e.k, e.len) && parities.len() == size_of_rows(r, e.len)
}

/// Gives the encoder's memory back, where the handle holds one; it holds none then.
#[unsafe(no_mangle)]
pub extern "C" fn carbink_encoder_free(alloc: Global, handle: &mut CarbinkEncoder)
    ensures { shape_in handle.new ≡ None }
{
    if let Some(boxed) = handle.take(alloc) {
        mem::drop(boxed);
    }
}

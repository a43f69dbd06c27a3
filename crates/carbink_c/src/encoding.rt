//! Parities of the rows in a buffer, into another buffer.

ghost use Rattle.std.specs.Prelude.{◌≡◌, ◌*◌, length};
ghost use Rattle.cb_gf256.specs.Block.{cut_rows};
ghost use Rattle.carbink_c.specs.Status.{EndsInPlace, IsNumberOf};
ghost use Rattle.carbink_c.specs.Made.{AreParities};

use crate::buffers::size_of_rows;
use crate::parities::put_parities;
use crate::status::{Status, refused_shape};
use cb_code::coefficients;

/// Makes the `r` parities of `k` data rows of `len` bytes each: `given` has the data rows one after
/// another, and `parities` takes the parities so. The data rows followed by the parities are a code
/// word then. Where the answer is not Done, `parities` stays as it is. It takes no memory.
#[unsafe(no_mangle)]
pub extern "C" fn carbink_encode(k: u32, r: u32, len: u32, given: &[u8], parities: &mut [u8]) -> u32
    ensures { IsNumberOf (EndsInPlace k r len
        ((length given.now ≡ k * len) × (length parities.old ≡ r * len))
        (parities.new ≡ parities.old)
        (AreParities k r (cut_rows k len given.now) (cut_rows r len parities.new))) result }
{
    encoded(k, r, len, given, parities).number()
}

fn encoded(k: u32, r: u32, len: u32, given: &[u8], parities: &mut [u8]) -> Status
    ensures { EndsInPlace k r len
        ((length given.now ≡ k * len) × (length parities.old ≡ r * len))
        (parities.new ≡ parities.old)
        (AreParities k r (cut_rows k len given.now) (cut_rows r len parities.new)) result }
{
    if let Some(refused) = refused_shape(k, r, len) {
        return refused;
    }
    if given.len() != size_of_rows(k, len) || parities.len() != size_of_rows(r, len) {
        return Status::BadBuffer;
    }
    put_parities(&coefficients(k, r), k, len, given, parities);
    Status::Done
}

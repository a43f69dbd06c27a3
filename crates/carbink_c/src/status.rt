//! How a call on rows ends, as a number for C.

ghost use Rattle.std.specs.Prelude.{◌≡◌, IfSome, IfNone, ◌<◌};
ghost use Rattle.cb_gf256.specs.InRange.{IsInRange};
ghost use Rattle.carbink_c.specs.Status.{status_number, IsRefusedShape};

/// How a call ends.
#[derive(Clone, Copy)]
pub enum Status {
    /// The call did its work.
    Done,
    /// There is no code of these k and r: k is 1 to 16, r is 1 to 4.
    BadCode,
    /// Rows have no bytes.
    BadLength,
    /// A buffer has not as many bytes as its rows.
    BadBuffer,
    /// The positions are not those that the call takes.
    BadPositions,
    /// There was no memory.
    NoMemory,
    /// The handle holds no encoder.
    NoEncoder,
    /// The handle holds an encoder already.
    HasEncoder,
}

impl Status {
    /// The number by which C knows it.
    pub fn number(self) -> u32
        ensures { result ≡ status_number self }
    {
        match self {
            Status::Done => 0,
            Status::BadCode => 1,
            Status::BadLength => 2,
            Status::BadBuffer => 3,
            Status::BadPositions => 4,
            Status::NoMemory => 5,
            Status::NoEncoder => 12,
            Status::HasEncoder => 13,
        }
    }
}

/// Why there are no rows of `len` bytes of a code of these k and r, if there are none.
pub(crate) fn refused_shape(k: u32, r: u32, len: u32) -> Option<Status>
    ensures some { IfSome result (IsRefusedShape k r len) }
    ensures none { IfNone result (IsInRange k r × (0 < len)) }
{
    if k < 1 || k > 16 || r < 1 || r > 4 {
        return Some(Status::BadCode);
    }
    if len < 1 {
        return Some(Status::BadLength);
    }
    None
}

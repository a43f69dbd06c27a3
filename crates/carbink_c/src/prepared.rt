//! The handle by which C holds an encoder.

ghost use Rattle.std.specs.Prelude.{◌≡◌, Option, Some, None, is_some};
ghost use Rattle.std.specs.Option.{option_map};

use crate::encoder::Encoder;
use crate::kept::KeptEncoder;
use std::alloc::Global;
use std::mem;

/// What C holds: an encoder, or none. All its bytes 0 is one that holds none.
#[repr(C)]
pub struct CarbinkEncoder {
    there: bool,
    pub(crate) kept: KeptEncoder,
    pub ghost tied: { there ≡ is_some kept.encoder },
}

impl CarbinkEncoder {
    fn blank(alloc: Global) -> CarbinkEncoder
        ensures { result.kept.encoder ≡ None }
    {
        CarbinkEncoder {
            there: false,
            kept: KeptEncoder::blank(alloc),
        }
    }

    fn of(boxed: Box<Encoder>) -> CarbinkEncoder
        ensures { result.kept.encoder ≡ Some boxed.value }
    {
        CarbinkEncoder {
            there: true,
            kept: KeptEncoder::of(boxed),
        }
    }

    fn into_box(self) -> Option<Box<Encoder>>
        ensures { option_map (λ boxed. boxed.value) result ≡ self.kept.encoder }
    {
        let CarbinkEncoder { there, kept } = self;
        if there {
            Some(kept.into_box())
        } else {
            kept.end();
            None
        }
    }

    /// Whether there is an encoder.
    pub(crate) fn holds(&self) -> bool
        ensures { result ≡ is_some self.now.kept.encoder }
    {
        self.there
    }

    /// Takes the encoder out, where there is one.
    pub(crate) fn take(&mut self, alloc: Global) -> Option<Box<Encoder>>
        ensures encoder { option_map (λ boxed. boxed.value) result ≡ self.old.kept.encoder }
        ensures none { self.new.kept.encoder ≡ None }
    {
        mem::replace(self, CarbinkEncoder::blank(alloc)).into_box()
    }

    /// Puts an encoder in, where there is none.
    pub(crate) fn put(&mut self, boxed: Box<Encoder>)
        requires { self.old.kept.encoder ≡ None }
        ensures { self.new.kept.encoder ≡ Some boxed.value }
    {
        let CarbinkEncoder { there: _, kept } = mem::replace(self, CarbinkEncoder::of(boxed));
        kept.end();
    }
}

//! A world, or an encoder, behind a plain pointer: C may hold a pointer to bytes, and none to a
//! type with a `Vec` inside.
ghost use Rattle.std.specs.Prelude.{◌≡◌, Option, Some, None, IsSome};
ghost use Rattle.carbink_c.specs.declared.encoder.Encoder.{Encoder};
ghost use Rattle.carbink_c.specs.declared.held.Held.{Held};
ghost use Rattle.carbink_c.specs.Kept.{kept_owns, kept_coded};
ghost use Rattle.carbink_c.specs.KeptEncoder.{encoder_owns, encoder_coded};

mod parts;

use crate::encoder::Encoder;
use crate::held::Held;
use parts::Parts;
use std::alloc::Global;
use std::marker::{Model, Send};

/// The block of a box with a world, or nothing: which of the two stands beside it.
#[repr(C)]
pub struct Kept {
    at: *mut u8,
    alloc: Global,
    pub ghost world: { Option Held } by { kept_coded },
}

impl Model for Kept {
    ghost also_owns = { λ s. kept_owns s.alloc s.at s.world };
}

// It may go to another thread as the box may that it keeps: `proofs/Crosses.antt` asks for it.
unsafe impl Send for Kept {}

impl Kept {
    /// Nothing, after the null pointer.
    pub(crate) fn blank(alloc: Global) -> Kept
        ensures { result.world ≡ None }
    {
        Kept {
            at: std::ptr::null_mut(),
            alloc,
        }
    }

    /// The block of this box.
    pub(crate) fn of(boxed: Box<Held>) -> Kept
        ensures { result.world ≡ Some boxed.value }
    {
        Kept::of_parts(Parts::of(boxed))
    }

    /// The box again.
    pub(crate) fn into_box(self) -> Box<Held>
        requires { IsSome self.world }
        ensures { self.world ≡ Some result.value }
    {
        self.into_parts().into_box()
    }

    fn of_parts(parts: Parts<Held, Global>) -> Kept
        ensures { result.world ≡ Some parts.value }
    {
        let Parts { ptr, alloc } = parts;
        let at = ptr as *mut u8;
        Kept { at, alloc }
    }

    fn into_parts(self) -> Parts<Held, Global>
        requires { IsSome self.world }
        ensures { self.world ≡ Some result.value }
    {
        let Kept { at, alloc } = self;
        let ptr = at as *mut Held;
        Parts { ptr, alloc }
    }

    /// Ends one that keeps nothing.
    pub(crate) fn end(self)
        requires { self.world ≡ None }
    {
        let Kept { at: _, alloc: _ } = self;
    }
}

/// The block of a box with an encoder, or nothing: which of the two stands beside it.
#[repr(C)]
pub struct KeptEncoder {
    at: *mut u8,
    alloc: Global,
    pub ghost encoder: { Option Encoder } by { encoder_coded },
}

impl Model for KeptEncoder {
    ghost also_owns = { λ s. encoder_owns s.alloc s.at s.encoder };
}

unsafe impl Send for KeptEncoder {}

impl KeptEncoder {
    /// Nothing, after the null pointer.
    pub(crate) fn blank(alloc: Global) -> KeptEncoder
        ensures { result.encoder ≡ None }
    {
        KeptEncoder {
            at: std::ptr::null_mut(),
            alloc,
        }
    }

    /// The block of this box.
    pub(crate) fn of(boxed: Box<Encoder>) -> KeptEncoder
        ensures { result.encoder ≡ Some boxed.value }
    {
        KeptEncoder::of_parts(Parts::of(boxed))
    }

    /// The box again.
    pub(crate) fn into_box(self) -> Box<Encoder>
        requires { IsSome self.encoder }
        ensures { self.encoder ≡ Some result.value }
    {
        self.into_parts().into_box()
    }

    fn of_parts(parts: Parts<Encoder, Global>) -> KeptEncoder
        ensures { result.encoder ≡ Some parts.value }
    {
        let Parts { ptr, alloc } = parts;
        let at = ptr as *mut u8;
        KeptEncoder { at, alloc }
    }

    fn into_parts(self) -> Parts<Encoder, Global>
        requires { IsSome self.encoder }
        ensures { self.encoder ≡ Some result.value }
    {
        let KeptEncoder { at, alloc } = self;
        let ptr = at as *mut Encoder;
        Parts { ptr, alloc }
    }

    /// Ends one that keeps nothing.
    pub(crate) fn end(self)
        requires { self.encoder ≡ None }
    {
        let KeptEncoder { at: _, alloc: _ } = self;
    }
}

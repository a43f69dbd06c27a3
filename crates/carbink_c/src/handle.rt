//! The handle by which C holds a world.

ghost use Rattle.std.specs.Prelude.{◌≡◌, Option, Some, None, is_some};
ghost use Rattle.std.specs.Option.{option_map};

use crate::held::Held;
use crate::kept::Kept;
use std::alloc::Global;
use std::mem;

/// What C holds: a world, or none. All its bytes 0 is one that holds none.
#[repr(C)]
pub struct CarbinkWorld {
    there: bool,
    pub(crate) kept: Kept,
    pub ghost tied: { there ≡ is_some kept.world },
}

impl CarbinkWorld {
    fn blank(alloc: Global) -> CarbinkWorld
        ensures { result.kept.world ≡ None }
    {
        CarbinkWorld {
            there: false,
            kept: Kept::blank(alloc),
        }
    }

    fn of(boxed: Box<Held>) -> CarbinkWorld
        ensures { result.kept.world ≡ Some boxed.value }
    {
        CarbinkWorld {
            there: true,
            kept: Kept::of(boxed),
        }
    }

    fn into_box(self) -> Option<Box<Held>>
        ensures { option_map (λ boxed. boxed.value) result ≡ self.kept.world }
    {
        let CarbinkWorld { there, kept } = self;
        if there {
            Some(kept.into_box())
        } else {
            kept.end();
            None
        }
    }

    /// Whether there is a world.
    pub(crate) fn holds(&self) -> bool
        ensures { result ≡ is_some self.now.kept.world }
    {
        self.there
    }

    /// Takes the world out, where there is one.
    pub(crate) fn take(&mut self, alloc: Global) -> Option<Box<Held>>
        ensures world { option_map (λ boxed. boxed.value) result ≡ self.old.kept.world }
        ensures none { self.new.kept.world ≡ None }
    {
        mem::replace(self, CarbinkWorld::blank(alloc)).into_box()
    }

    /// Puts a world in, where there is none.
    pub(crate) fn put(&mut self, boxed: Box<Held>)
        requires { self.old.kept.world ≡ None }
        ensures { self.new.kept.world ≡ Some boxed.value }
    {
        let CarbinkWorld { there: _, kept } = mem::replace(self, CarbinkWorld::of(boxed));
        kept.end();
    }
}

//! Where each far object lies.

ghost use Rattle.std.specs.Prelude.{◌≡◌, ◌<◌, length, Some, None, replicate, slice_set, IfOk};
ghost use Rattle.cb_world.specs.Homes.{home_at};

use cb_member::NoMemory;
use std::alloc::Global;
use std::marker::Model;

/// Where a far object lies: in a span-set, at a position, in a slot of the position's span.
#[derive(Clone, Copy)]
pub struct Home {
    pub set: u64,
    pub position: u32,
    pub slot: u32,
}

/// For each handle the home of its object, where it is far. All its memory is taken when it is
/// made.
#[derive(Drop)]
pub struct Homes {
    homes: Vec<Option<Home>>,
}

impl Model for Homes {
    ghost use Rattle.std.specs.Prelude.{List, Option};
    ghost use Rattle.cb_world.specs.declared.homes.Home.{Home};

    ghost Value = { List (Option Home) };

    ghost view = { λ a. a.homes.items };
}

impl Homes {
    /// So many handles without a home.
    pub fn new(alloc: Global, handles: u32) -> Result<Homes, NoMemory>
        ensures empty { IfOk result (λ homes. homes ≡ replicate handles None) }
    {
        let mut homes = Vec::with_capacity(alloc, handles as usize)?;
        for _ in 0..handles {
            homes.push(None)?;
        }
        Ok(Homes { homes })
    }

    /// The home of the handle's object.
    pub fn at(&self, handle: u32) -> Option<Home>
        requires { handle < length self.now }
        ensures home { result ≡ home_at self.now handle }
    {
        self.homes[handle as usize]
    }

    /// Gives the handle's object a home.
    pub fn put(&mut self, handle: u32, home: Home)
        requires { handle < length self.old }
        ensures homes { self.new ≡ slice_set self.old handle (Some home) }
    {
        self.homes[handle as usize] = Some(home);
    }

    /// Takes the home of the handle's object away.
    pub fn clear(&mut self, handle: u32)
        requires { handle < length self.old }
        ensures homes { self.new ≡ slice_set self.old handle None }
    {
        self.homes[handle as usize] = None;
    }
}

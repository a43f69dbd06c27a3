//! An object that an array or a map keeps, at the version that it wrote last.

ghost use Rattle.std.specs.Prelude.{◌≡◌, ◌<◌, [], ◌∷◌, ◌++◌, ◌-◌, length, slice_set, take, OnErr, OnOk};
ghost use Rattle.cb_farmap.specs.Objects.{blank, object_at};
ghost use Rattle.cb_farmap.specs.Stops.{cannot_of, stop_of};

use cb_types::{Handle, NoMemory, Reply};
use std::alloc::Global;
use std::marker::Model;

/// An object of an array or of a map, at the version at which its value wrote it last.
#[derive(Clone, Copy)]
pub struct KeptObject {
    pub handle: Handle,
    pub version: u64,
}

/// Why an array or a map gives one answer for good.
#[derive(Clone, Copy)]
pub enum Stop {
    /// An object of it was freed.
    Freed,
    /// Somebody else wrote an object of it: the version that was kept, and the one that was found.
    Foreign {
        handle: Handle,
        kept: u64,
        found: u64,
    },
}

/// Why a call on an array or a map is not answered.
#[derive(Drop)]
pub enum Cannot {
    /// There is no memory.
    NoMemory,
    /// A call of the runtime was answered by this reply, which is not its success.
    Refused {
        reply: Reply,
    },
    /// Somebody else wrote this object: the version that was kept, and the one that was found.
    Foreign {
        handle: Handle,
        kept: u64,
        found: u64,
    },
}

impl From<NoMemory> for Cannot {
    ghost use Rattle.std.specs.Prelude.{◌≡◌};
    ghost use Rattle.cb_farmap.specs.declared.kept.Cannot.TheVariants as cannot;

    ghost from_gives = { λ _ c. c ≡ cannot.NoMemory };

    fn from(_refused: NoMemory) -> Cannot {
        Cannot::NoMemory
    }
}

impl From<Stop> for Cannot {
    ghost use Rattle.std.specs.Prelude.{◌≡◌};
    ghost use Rattle.cb_farmap.specs.Stops.{cannot_of};

    ghost from_gives = { λ stop c. c ≡ cannot_of stop };

    /// The answer that is given for good; takes no memory.
    fn from(stop: Stop) -> Cannot {
        match stop {
            Stop::Freed => Cannot::Refused {
                reply: Reply::Freed,
            },
            Stop::Foreign {
                handle,
                kept,
                found,
            } => Cannot::Foreign {
                handle,
                kept,
                found,
            },
        }
    }
}

impl Cannot {
    /// Why the value gives this answer for good from here on; None where the next call is made as
    /// if this one had not been.
    pub(crate) fn stop(&self) -> Option<Stop>
        ensures { result ≡ stop_of self.now }
    {
        match self {
            Cannot::Refused {
                reply: Reply::Freed,
            } => Some(Stop::Freed),
            Cannot::Foreign {
                handle,
                kept,
                found,
            } => Some(Stop::Foreign {
                handle: *handle,
                kept: *kept,
                found: *found,
            }),
            _ => None,
        }
    }
}

/// The objects of an array, or of a bucket of a map, in order. Contracts see them as a list.
#[derive(Drop)]
pub struct Objects {
    items: Vec<KeptObject>,
}

impl Model for Objects {
    ghost use Rattle.std.specs.Prelude.{List};
    ghost use Rattle.cb_farmap.specs.declared.kept.KeptObject.{KeptObject};

    ghost Value = { List KeptObject };

    ghost view = { λ a. a.items.items };
}

impl Objects {
    /// No objects; takes no memory.
    pub(crate) fn new(alloc: Global) -> Objects
        ensures empty { result ≡ [] }
    {
        Objects {
            items: Vec::new(alloc),
        }
    }

    /// How many there are.
    pub(crate) fn len(&self) -> usize
        ensures { result ≡ length self.now }
    {
        self.items.len()
    }

    /// The object with this index.
    pub(crate) fn at(&self, i: usize) -> KeptObject
        requires within { i < length self.now }
        ensures { result ≡ object_at self.now i }
    {
        self.items[i]
    }

    /// Puts an object in the place of the one with this index; takes no memory.
    pub(crate) fn set(&mut self, i: usize, object: KeptObject)
        requires within { i < length self.old }
        ensures { self.new ≡ slice_set self.old i object }
    {
        self.items[i] = object;
    }

    /// Adds a blank at the end, for an object that is to be made. Running out of memory leaves the
    /// list as it was.
    pub(crate) fn push_blank(&mut self) -> Result<(), NoMemory>
        ensures ok { OnOk result (self.new ≡ self.old ++ blank ∷ []) }
        ensures err { OnErr result (self.new ≡ self.old) }
    {
        let blank = KeptObject {
            handle: Handle { n: 0 },
            version: 0,
        };
        self.items.push(blank)?;
        Ok(())
    }

    /// Takes the last one away.
    pub(crate) fn pop(&mut self)
        ensures { self.new ≡ take (length self.old - 1) self.old }
    {
        self.items.pop();
    }
}

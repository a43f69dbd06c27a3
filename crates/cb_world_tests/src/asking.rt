//! What the tests ask of a pass, and of a second one that is split off it.
use crate::told::Told;
use cb_types::NoMemory;

/// What a turn does.
#[derive(Clone, Copy)]
pub(crate) enum Deed {
    Read,
    Free,
    Filter,
    Evict,
    Begin,
    Ship,
    Commit,
    Abort,
    Rebuild,
    Crash(u8),
    Join(u8),
}

/// A turn on the object with this number, and what it is to tell.
pub(crate) type Made = (usize, Deed, Told);

/// What a second pass does between the two turns of an order.
pub(crate) type Between = (Option<Made>, Option<Made>);

/// A call on an object.
#[derive(Clone, Copy)]
pub(crate) enum Call {
    /// A pin, which stays with the pass, and a look at all words.
    Hold,
    /// A pin, a look at all words, and the pin given back.
    Look,
    WriteHere,
    Read,
    Write,
    Free,
    Turn(Deed),
    /// A batch begins, its order is run, and its parities are installed.
    Install,
    /// The object's rows are handed out in an order, which is left.
    Fetch,
    /// The object's rows are handed out in an order, it is run, and its row is landed.
    Land,
    /// A pass with the share 1 is split off, and left out.
    Leave,
}

/// Who makes a call.
#[derive(Clone, Copy)]
pub(crate) enum By {
    /// The pass itself.
    Itself,
    /// A second pass, which is split off with the share 1 and taken in.
    Second,
    /// The pass itself, while a second one has the object pinned.
    Beside,
    /// The pass itself, with turns of a second one between the two of an order.
    Between(Between),
}

/// A pass that knows objects. The tables walk over any such, so that their proofs do not reach the
/// types of a runtime.
pub(crate) trait Asks {
    // What follows is the same caller, which may ask.
    ghost keeps: { Self → Self → Type 0 };

    /// A call on the object with this number; Other where there is none.
    fn ask(&mut self, i: usize, by: By, call: Call, bytes: &[u8]) -> Result<Told, NoMemory>
        requires { keeps self.old self.old }
        ensures { keeps self.old self.new };

    // It may ask again.
    ghost again: { (a b : Self) → keeps a b → keeps b b };

    // It is the same after more calls.
    ghost more: { (a b c : Self) → keeps a b → keeps b c → keeps a c };
}

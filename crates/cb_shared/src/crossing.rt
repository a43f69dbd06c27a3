//! A runtime is shared between threads, and its passes and pins go to them.
use crate::pass::{Pass, Pin};
use crate::runtime::Shared;

fn moves<T: Send>(item: &T) {
    let _item = item;
}

fn shares<T: Sync>(item: &T) {
    let _item = item;
}

/// A runtime may be used by several threads at once, and it, a pass and a pin may be handed to
/// another thread.
pub(crate) fn crosses(shared: &Shared, pass: &Pass, pin: &Pin) {
    moves(shared);
    shares(shared);
    moves(pass);
    moves(pin);
}

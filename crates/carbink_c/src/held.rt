//! A world in a field of its own, with its drop written out.

use cb_world::World;

/// A world in a field of its own, with its drop written out: what drops one here drops none of the
/// world's parts one by one.
pub struct Held {
    pub(crate) world: World,
}

impl Drop for Held {
    fn drop(self) {
        let Held { world } = self;
        world.end();
    }
}

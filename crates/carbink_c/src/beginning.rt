//! The begin of a world, of the sizes that C gives.

ghost use Rattle.std.specs.Prelude.{◌≡◌, IfOk, None};
ghost use Rattle.cb_types.specs.Config.{IsAccepted};
ghost use Rattle.cb_world.specs.World.{empty_world};
ghost use Rattle.carbink_c.specs.Handle.{IsSoundIn, world_of};
ghost use Rattle.carbink_c.specs.Outcome.{IsOutcomeOf};
ghost use Rattle.carbink_c.specs.WorldEnds.{NewEnds, config_of};

use crate::handle::CarbinkWorld;
use crate::held::Held;
use crate::outcome::Outcome;
use cb_types::{Config, NoMemory};
use cb_world::World;
use std::alloc::Global;

/// The sizes of a world, as `cb_types::Config` has them; a world on one thread has no workers.
#[repr(C)]
#[derive(Drop)]
pub struct CarbinkConfig {
    /// Data positions of a span-set, 1 to 16.
    pub k: u32,
    /// Parity positions of a span-set, 1 to 4.
    pub r: u32,
    /// Memory nodes, k + r to 64.
    pub nodes: u32,
    /// Frames of local memory, of 4,096 bytes each, 1 to 4,096.
    pub frames: u32,
    /// Rows that a node holds at the most, 1 to 4,096.
    pub room: u32,
    /// Objects that can be made, 1 to 65,536.
    pub handles: u32,
}

/// Makes the empty world of these sizes, where the handle holds none: no object was made, all
/// frames are free, and all nodes are up. Where the answer is not Done, the handle stays as it is.
#[unsafe(no_mangle)]
pub extern "C" fn carbink_world_new(
    alloc: Global,
    world: &mut CarbinkWorld,
    config: &CarbinkConfig,
) -> u32
    requires sound { IsSoundIn (world_of world.old) }
    ensures ends { IsOutcomeOf (NewEnds (config_of config.now) (world_of world.old)
        (world_of world.new)) result }
    ensures sound { IsSoundIn (world_of world.new) }
{
    begun(alloc, world, config).number()
}

fn begun(alloc: Global, world: &mut CarbinkWorld, config: &CarbinkConfig) -> Outcome
    requires sound { IsSoundIn (world_of world.old) }
    ensures ends { NewEnds (config_of config.now) (world_of world.old) (world_of world.new) result }
    ensures sound { IsSoundIn (world_of world.new) }
{
    if world.holds() {
        return Outcome::HasWorld;
    }
    let config = sizes(config);
    if let Err(field) = config.check() {
        return Outcome::BadSize(field);
    }
    put_new(alloc, world, config)
}

/// Puts the empty world in. Where there is no memory, the handle stays as it is.
fn put_new(alloc: Global, world: &mut CarbinkWorld, config: Config) -> Outcome
    requires none { world.old.kept.world ≡ None }
    requires config { IsAccepted config }
    ensures ends { NewEnds config (world_of world.old) (world_of world.new) result }
    ensures sound { IsSoundIn (world_of world.new) }
{
    match held(alloc, config) {
        Ok(held) => {
            world.put(held);
            Outcome::Done
        }
        Err(NoMemory) => Outcome::NoMemory,
    }
}

/// The configuration.
fn sizes(config: &CarbinkConfig) -> Config
    ensures { result ≡ config_of config.now }
{
    Config {
        k: config.k,
        r: config.r,
        nodes: config.nodes,
        frames: config.frames,
        room: config.room,
        handles: config.handles,
        turns: 0,
    }
}

/// The empty world in a block of its own. The only error is out of memory.
fn held(alloc: Global, config: Config) -> Result<Box<Held>, NoMemory>
    requires { IsAccepted config }
    ensures { IfOk result (λ held. held.value.world ≡ empty_world config) }
{
    let world = World::new(alloc, config)?;
    Ok(Box::new(alloc, Held { world })?)
}

//! A scrub of a world with a wrong row.

ghost use Rattle.std.specs.Prelude.{◌≡◌, ◌+◌, ◌*◌, ◌^◌, ◌<◌, ◌≤◌, ℕ, IfOk, IfSome, IsTrue};
ghost use Rattle.cb_world.specs.Sound.{Sound};
ghost use Rattle.cb_world.specs.World.{IsSoundWorld};
ghost use Rattle.cb_world.specs.declared.shown.Shown.{Shown};
ghost use Rattle.cb_scrub_world.specs.Scrub.{MayScrub};
ghost use Rattle.cb_scrub_world.specs.Spoilt.{IsSoundAgain, IsSpoilt};
ghost use Rattle.cb_scrub_world.specs.Standing.{RowStands};
ghost use Rattle.cb_world_tests.specs.Shards.{IsFirstSets};

use crate::acting::{Act, Row, are_told};
use crate::seats::AtSeats;
use crate::told::Told;
use cb_lanes::{Side, run_lines};
use cb_member::Shard;
use cb_script::{Mode, read_script};
use cb_scrub::Found;
use cb_scrub_world::{Scrubbed, scrub_next};
use cb_set::is_lost;
use cb_types::NoMemory;
use cb_world::{Far, World};
use std::alloc::Global;
use std::test::Fail;

/// Two objects, of two bytes and of 17, leave as the data positions 0 and 1 of a set.
const SCRIPT: &[u8] = b"carbink 1 k=2 r=2 nodes=6 frames=8 room=64 handles=2 turns=0\n\
    1 make a 0a0b\n1 make b 0c0c0c0c0c0c0c0c0c0c0c0c0c0c0c0c0c\n1 evict\n";

/// The world that the lines of a script lead to, which stands in parts.
pub(crate) fn world_of(alloc: Global, parts: &[&[u8]]) -> Result<World, NoMemory>
    ensures { IfOk result IsSoundWorld }
{
    let mut text = Vec::new(alloc);
    for part in parts {
        text.extend_from_slice(part)?;
    }
    let Ok(script) = read_script(alloc, text.as_slice(), Mode::Seq) else {
        return Err(NoMemory);
    };
    let end = run_lines(alloc, &script, Side::Nodes)?;
    Ok(end.world)
}

/// The shard of a position of the first set, where the set has two parities or more, its spans have
/// a page at least, and the shard is not lost.
fn kept_shard(far: &Far, position: u32) -> Option<Shard>
    requires { MayScrub far.now }
    ensures stands { IfSome result (λ shard. (pages : ℕ) × (1 ≤ pages)
        × RowStands far.now.nodes pages shard) }
    ensures shard { IfSome result (IsFirstSets far.now position) }
{
    let set = far.sets.committed(0)?;
    if set.r() < 2 || set.pages() == 0 || position >= set.k() + set.r() {
        return None;
    }
    let shard = set.shard(position);
    if is_lost(&far.members, shard) {
        return None;
    }
    Some(shard)
}

/// Adds 5 to the first byte of the row of a position of the first set.
fn spoil(far: &mut Far, position: u32) -> bool
    requires { MayScrub far.old }
    ensures may { MayScrub far.new }
    ensures given { far.new.nodes.given ≡ far.old.nodes.given }
    ensures spoilt { IsTrue result → IsSpoilt far.old 0 far.new }
{
    let Some(shard) = kept_shard(far, position) else {
        return false;
    };
    far.nodes.spoil(shard.node, shard.key, 0, 5);
    true
}

/// Whether this is what a scrub of the set whose row is spoilt answers.
fn tells_the_row(scrubbed: Scrubbed) -> bool
    ensures { IsTrue result → scrubbed ≡ Scrubbed.Set (record { n = 0 }) (Found.One 1) }
{
    match scrubbed {
        Scrubbed::Set {
            set,
            found: Found::One { position },
        } => set.n == 0 && position == 1,
        _ => false,
    }
}

/// Spoils the row of position 1 of the first set, and scrubs the set. That there is no such row, or
/// another finding, is told as out of memory.
fn spoil_and_scrub(alloc: Global, far: &mut Far) -> Result<(), NoMemory>
    requires may { MayScrub far.old }
    requires given { far.old.nodes.given < 2 ^ 61 }
    ensures may { MayScrub far.new }
    ensures given { far.new.nodes.given ≤ far.old.nodes.given + 20 }
    ensures sound { IfOk result (λ _. (s : Shown) → Sound s far.old → IsSoundAgain s far.old far.new) }
{
    if !spoil(far, 1) {
        return Err(NoMemory);
    }
    let scrubbed = scrub_next(alloc, far, None)?;
    if !tells_the_row(scrubbed) {
        return Err(NoMemory);
    }
    Ok(())
}

/// Whether few rows were given out for the turns that were counted.
fn few_were_given(far: &Far) -> bool
    ensures { IsTrue result
        → (far.now.nodes.given + 40 ≤ 2 ^ 20) × (1 ≤ far.now.counts.turns) }
{
    far.nodes.given() <= 1_000_000 && far.counts.turns >= 1
}

/// Spoils the row, and scrubs the set twice; whether it is clean at last. What else comes of it is
/// told as out of memory.
fn scrub_twice(alloc: Global, far: &mut Far) -> Result<bool, NoMemory>
    requires may { MayScrub far.old }
    ensures given { IfOk result (λ _. far.new.nodes.given ≤ 2 ^ 20 * far.old.counts.turns) }
    ensures sound { IfOk result (λ _. (s : Shown) → Sound s far.old → IsSoundAgain s far.old far.new) }
{
    if !few_were_given(far) {
        return Err(NoMemory);
    }
    spoil_and_scrub(alloc, far)?;
    let scrubbed = scrub_next(alloc, far, None)?;
    Ok(matches!(
        scrubbed,
        Scrubbed::Set {
            found: Found::Clean,
            ..
        }
    ))
}

/// The same in a world, which is sound again.
fn scrub_world(alloc: Global, world: &mut World) -> Result<bool, NoMemory>
    requires { IsSoundWorld world.old }
    ensures { IfOk result (λ _. IsSoundWorld world.new) }
{
    scrub_twice(alloc, &mut world.far)
}

/// Both objects have their bytes, which a read of the core brings in where they are far.
static BOTH: [Row; 2] = [
    (
        0,
        0,
        Act::Read,
        Told::Bytes {
            version: 1,
            len: 2,
            word: 0x0b0a,
        },
    ),
    (
        0,
        1,
        Act::Read,
        Told::Bytes {
            version: 1,
            len: 17,
            word: 0x0c0c_0c0c_0c0c_0c0c,
        },
    ),
];

/// Whether the set is clean and both objects have their bytes, once a row was spoilt and scrubbed.
fn reads_as_before(alloc: Global, world: &mut World) -> Result<bool, NoMemory>
    requires { IsSoundWorld world.old }
{
    let clean = scrub_world(alloc, world)?;
    let mut seats = AtSeats { alloc, world };
    let shown = are_told(&mut seats, &BOTH, &[]);
    let AtSeats { alloc: _, world: _ } = seats;
    Ok(shown? && clean)
}

/// The same in the world of the script.
fn holds(alloc: Global) -> Result<bool, NoMemory> {
    let mut world = world_of(alloc, &[SCRIPT])?;
    let holds = reads_as_before(alloc, &mut world);
    world.end();
    holds
}

#[test]
fn a_spoilt_row_is_made_right_and_the_core_reads_both_objects(rt: HostRuntime) -> Result<(), Fail> {
    assert!(rt; matches!(holds(rt.alloc()), Ok(true)));
    Ok(())
}

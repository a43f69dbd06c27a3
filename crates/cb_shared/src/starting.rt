//! A runtime is opened.

ghost use Rattle.std.specs.Prelude.{◌≡◌, ℕ, ◌+◌, ◌*◌, ◌≤◌, [], ◌∷◌, length, slice_index, Some};
ghost use Rattle.std.specs.Prelude.{IfOk};
ghost use Rattle.cb_types.specs.Config.{IsAccepted};
ghost use Rattle.cb_world.specs.Empty.{empty_far};
ghost use Rattle.cb_rule.specs.Steps.{opener};
ghost use Rattle.cb_rule.specs.Words.{base};
ghost use Rattle.cb_shared.specs.Passes.{IsRuntimeBegun};
ghost use Rattle.cb_shared.specs.Standing.{TableStands};

use crate::board::{Board, SeatAt, Words};
use crate::boxed_far::BoxedFar;
use crate::handles::no_pins;
use crate::pass::Pass;
use crate::runtime::Shared;
use crate::setup::Setup;
use atomic_table::{Table, TableRule};
use cb_rule::View;
use cb_types::{Config, NoMemory};
use cb_world::Far;
use std::alloc::Global;

/// The share of the first pass; the shares of all passes sum to it.
pub const WHOLE: u32 = 64;

impl Shared {
    /// The runtime of a configuration with no objects, and its first pass, which has the whole
    /// share. A make gives version 1. Takes the memory of all words and of the far state.
    pub fn new(alloc: Global, config: Config) -> Result<(Shared, Pass), NoMemory>
        requires accepted { IsAccepted config }
        ensures begun { IfOk result (λ r. IsRuntimeBegun 1 config r.0 r.1) }
    {
        Shared::with_first_version(alloc, config, 1)
    }

    /// The same, and a make gives the version `first`. What stands between any two steps at the
    /// table that it makes is a clause, since a later call can name no moment.
    pub fn with_first_version(
        alloc: Global,
        config: Config,
        first: u64,
    ) -> Result<(Shared, Pass), NoMemory>
        requires accepted { IsAccepted config }
        requires first { 1 ≤ first }
        ensures begun { IfOk result (λ r. IsRuntimeBegun first config r.0 r.1) }
        ensures stands { TableStands ⟦<Words as TableRule<Option<BoxedFar>, View, Setup>>⟧.holds }
    {
        let count = 1 + 2 * config.handles as usize + 512 * config.frames as usize;
        let words = vec![in alloc; 0u64; count]?;
        let (board, seat) = open_board(alloc, words.as_slice(), &Setup { config, first })?;
        let pass = Pass {
            seat,
            share: WHOLE,
            pins: no_pins(),
            tries: None,
        };
        Ok((Shared { config, board }, pass))
    }

    /// The configuration.
    pub fn config(&self) -> Config
        ensures { result ≡ self.now.config }
    {
        self.config
    }
}

/// The table of these words, which are 0, with the far state of no objects in its slot, and its
/// first seat.
fn open_board(alloc: Global, words: &[u64], about: &Setup) -> Result<(Board, SeatAt), NoMemory>
    requires accepted { IsAccepted about.now.config }
    requires first { 1 ≤ about.now.first }
    requires long { length words.now ≡ base about.now.config + 512 * about.now.config.frames }
    requires zeros { (i : ℕ) → slice_index words.now i ≡ 0 }
    ensures counts { IfOk result (λ t. (t.0.shared.table_id.words ≡ length words.now)
        × (t.0.shared.table_id.slots ≡ 1)) }
    ensures key { IfOk result (λ t. t.0.shared.key ≡ about.now) }
    ensures seat { IfOk result (λ t. (t.1.table_id ≡ t.0.shared.table_id)
        × (t.1.me ≡ (opener about.now.config, []))) }
{
    let slots = first_slots(alloc, about)?;
    match Table::new(alloc, words, slots, about) {
        Ok(opened) => Ok(opened),
        Err(_refused) => Err(NoMemory),
    }
}

/// One slot, with the far state of no objects.
fn first_slots(alloc: Global, about: &Setup) -> Result<Vec<Option<BoxedFar>>, NoMemory>
    requires accepted { IsAccepted about.now.config }
    requires first { 1 ≤ about.now.first }
    ensures { IfOk result (λ slots. slots.items
        ≡ Some (empty_far about.now.first about.now.config) ∷ []) }
{
    let mut slots = Vec::with_capacity(alloc, 1)?;
    let far = Far::new(alloc, about.first, about.config)?;
    slots.push(Some(BoxedFar::new(alloc, far)?))?;
    Ok(slots)
}

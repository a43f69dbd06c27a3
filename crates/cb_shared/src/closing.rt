//! A runtime is closed.
ghost use Rattle.std.specs.Prelude.{◌≡◌, ◌<◌, ◌≤◌, true, false, replicate, IfOk, IfErr};
ghost use Rattle.cb_types.specs.Config.{IsAccepted};
ghost use Rattle.cb_world.specs.Empty.{empty_words};
ghost use Rattle.cb_world.specs.Seats.{idle_seat};
ghost use Rattle.cb_shared.specs.Closing.{IsClosedBy, RefusesToClose};
ghost use Rattle.cb_shared.specs.Passes.{IsPassOf, record_of};

use crate::filling::{fill_memory, fill_objects, take_far};
use crate::pass::Pass;
use crate::refused::CloseRefused;
use crate::runtime::Shared;
use crate::seal::{Draft, Seal};
use crate::seats::give_back;
use crate::starting::WHOLE;
use cb_types::{Config, NoMemory};
use cb_world::{PlainDesk, Seats, World};
use std::alloc::Global;

/// The parts of a world that take memory, made before the table is closed.
struct Still {
    desk: PlainDesk,
    seats: Seats,
}

impl Shared {
    /// Closes the runtime with the pass that has the whole share: gives its pins back, and answers
    /// the world that the words and the far state are, with a seal of that world and of the record
    /// of the pass. Out comes exactly where the share is below 64; NoMemory where there is no
    /// memory for the words of the world, which is taken before anything changes. Waits for nobody.
    pub fn close(self, alloc: Global, pass: Pass) -> Result<(World, Seal), CloseRefused>
        requires of { IsPassOf self pass }
        ensures closed { IfOk result (λ r. IsClosedBy self pass r.0 r.1) }
        ensures refused { IfErr result (λ e. RefusesToClose self pass e) }
    {
        let share = pass.share;
        if is_part(share) {
            return Err(CloseRefused::Out {
                shared: self,
                pass,
                share,
            });
        }
        match still_world(alloc, self.config) {
            Ok(still) => Ok(close_whole(self, pass, still)),
            Err(_none) => Err(CloseRefused::NoMemory { shared: self, pass }),
        }
    }
}

/// Whether a share is less than the whole one.
fn is_part(share: u32) -> bool
    ensures part { result ≡ true → share < 64 }
    ensures whole { result ≡ false → 64 ≤ share }
{
    share < WHOLE
}

/// Words that are 0, and idle seats.
fn still_world(alloc: Global, config: Config) -> Result<Still, NoMemory>
    requires { IsAccepted config }
    ensures desk { IfOk result (λ still. still.desk ≡ empty_words config) }
    ensures seats { IfOk result (λ still. still.seats ≡ replicate 64 idle_seat) }
{
    let seats = Seats::new(alloc)?;
    let desk = PlainDesk::new(alloc, config)?;
    Ok(Still { desk, seats })
}

/// Closes the runtime with the pass that has the whole share, and gives the memory of the table
/// back.
fn close_whole(shared: Shared, pass: Pass, still: Still) -> (World, Seal)
    requires of { IsPassOf shared pass }
    requires whole { (record_of pass).share ≡ 64 }
    requires desk { still.desk ≡ empty_words shared.config }
    requires seats { still.seats ≡ replicate 64 idle_seat }
    ensures { IsClosedBy shared pass result.0 result.1 }
{
    let Shared { config, board } = shared;
    let mut pass = pass;
    give_back(&board.shared, &mut pass, &config);
    let Pass { seat, .. } = pass;
    let draft = Draft::of(&seat);
    let rows = board.close_with(seat);
    let Still { desk, seats } = still;
    let mut desk = desk;
    fill_objects(&rows, &mut desk, &config);
    fill_memory(&rows, &mut desk, &config);
    let far = take_far(rows);
    let world = World { desk, far, seats };
    let seal = draft.seal(&world);
    (world, seal)
}

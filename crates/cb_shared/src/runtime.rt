//! The shared runtime.

ghost use Rattle.std.specs.Prelude.{◌≡◌, ◌+◌, ◌*◌, ◌≤◌};

use crate::board::Board;
use cb_types::Config;

/// The shared runtime: a table of atomic words at which every pass steps. The far state lies in its
/// one slot while no turn is under way.
#[derive(Drop)]
pub struct Shared {
    pub(crate) config: Config,
    pub(crate) board: Board,
    ghost counts: { board.shared.table_id.words
        ≡ 1 + config.handles + config.handles + 512 * config.frames },
    ghost slots: { board.shared.table_id.slots ≡ 1 },
    ghost key: { board.shared.key.config ≡ config },
    ghost first: { 1 ≤ board.shared.key.first },
}

//! The code and the one-thread world for callers in C: each export makes one call of a crate below
//! and states its clauses again. `include/carbink.h` declares the exports.
#![tactic(auto)]

mod asking;
mod beginning;
mod buffers;
mod encoder;
mod encoding;
mod ending;
mod event;
mod examining;
mod handle;
mod held;
mod kept;
mod mending;
mod outcome;
mod parities;
mod prepared;
mod preparing;
mod reply;
mod solving;
mod status;
mod stepping;
mod telling;
mod testing;
mod version;

pub use beginning::{CarbinkConfig, carbink_world_new};
pub use encoder::Encoder;
pub use encoding::carbink_encode;
pub use ending::{carbink_world_free, carbink_world_given};
pub use event::{CarbinkEvent, Verb};
pub use examining::{CarbinkFound, carbink_examine};
pub use handle::CarbinkWorld;
pub use held::Held;
pub use kept::{Kept, KeptEncoder};
pub use mending::carbink_mend;
pub use outcome::Outcome;
pub use prepared::CarbinkEncoder;
pub use preparing::{carbink_encoder_encode, carbink_encoder_free, carbink_encoder_new};
pub use reply::CarbinkReply;
pub use solving::carbink_solve;
pub use status::Status;
pub use stepping::carbink_world_step;
pub use testing::carbink_is_word;
pub use version::carbink_version;

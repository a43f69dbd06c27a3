//! What a runtime is set up with.

use cb_types::Config;

/// What the rule of a table is about: the configuration, and the version that a make gives, which
/// is at least 1.
#[derive(Clone, Copy)]
pub struct Setup {
    pub config: Config,
    pub first: u64,
}

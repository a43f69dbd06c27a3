//! The temperature of a span.

/// The temperature of a span: whether its objects were in use of late.
#[derive(Clone, Copy, Debug, PartialEq, Eq, Hash)]
pub enum Temp {
    Hot,
    Cold,
}

//! A line of a script with its reply.

use crate::handle::Lane;
use crate::reply::Reply;
use crate::request::Request;

/// A line of a script with its reply. The header is line 1.
#[derive(Drop)]
pub struct Answer {
    pub lane: Lane,
    pub line: u32,
    pub request: Request,
    pub reply: Reply,
}

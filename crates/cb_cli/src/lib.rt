//! The command line of `carbink`, as far as it needs no lanes: the words and the command that they
//! name, how a run ends and its exit status, the texts that it puts, and how bytes are taken from a
//! source and put into a sink.
#![tactic(auto)]

pub mod input;
pub mod lanes;
pub mod outcome;
pub mod output;
pub mod pieces;
pub mod texts;
pub mod verdict;
pub mod words;

pub use input::{TakeError, take_all};
pub use lanes::different_lanes;
pub use outcome::{Due, Failure, status};
pub use output::{PutFailed, put_all, put_pieces};
pub use pieces::Pieces;
pub use texts::{WORDS_REFUSED, answers_text, script_fault_text, script_ok_text, with_given};
pub use verdict::Verdict;
pub use words::{Asked, Command, Plan, asked_of};

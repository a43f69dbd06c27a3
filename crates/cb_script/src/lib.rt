//! The script: what a user writes, one request a line after a header. The reader accepts exactly
//! the scripts that are in the form, and tells the first fault of every other input; the printer
//! gives a script's text back.
#![tactic(auto)]

mod contents;
pub mod cut;
pub mod digits;
pub mod fault;
pub mod header;
mod known;
pub mod laws;
mod line;
mod name;
pub mod number;
mod phrase;
pub mod print;
pub mod read;
mod request;
pub mod script;
pub mod verb;

pub use cut::{first_line, words_into};
pub use digits::spelled_bytes;
pub use fault::{Reason, ScriptFault};
pub use header::header_of;
pub use laws::script_laws;
pub use number::{number_of, setting_of};
pub use print::print_script;
pub use read::read_script;
pub use script::{Line, Lines, Mode, Script};
pub use verb::is_word;

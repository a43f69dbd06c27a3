//! Commands on an array and a map as text: what a user writes, a command a line after a script's
//! header, and what is printed of each. The reader takes exactly the texts in the form, and tells
//! the first line that is not. A plain list and a plain map say what each command owes.
#![tactic(auto)]

pub mod command;
pub mod laws;
mod line;
pub mod read;
pub mod said;
mod verb;

pub use command::{FarAnswer, FarCommand, FarCommands};
pub use laws::{plain_laws, text_laws};
pub use read::{FarText, TextFault, read_commands};
pub use said::{line_refused_text, saids_text};

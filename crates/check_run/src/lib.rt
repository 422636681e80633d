//! What a call of `classfile_check` does: the words are read, each file that they name is read and checked, and its line goes
//! to a writer. Files come from any store.
#![tactic(auto)]

mod check;
mod files;
mod line;
mod status;
mod words;

pub use check::{Checked, check_class, rewritten};
pub use files::check_all;
pub use status::Status;

//! What the rules of an agent's set make of a class file. The crate holds definitions, in `specs/`: constants that an edit needs
//! (`Constants`), how the code of a method is edited (`Codes`), the six kinds of edit (`Edits`), and the turn of a set (`Turns`). Their laws
//! are the contract of `edit_laws`, and `edit_rows` has each kind of rule computed on a class by `javac`.
#![tactic(auto)]

mod laws;

pub use laws::{edit_laws, edit_rows};

//! The forms of a file: its words and lists, or the one fault for which it has none.
//!
//! `forms` reads a whole file. What a token, a form and a fault are is said in `specs/`: `Bytes`, `Comments`
//! and `Tokens` go from the bytes to the tokens, `Trees` says what forms are, with which tokens they are
//! written and where they lie, and `TextFaults` says what can be wrong. `Words` and `Lines` say how words are
//! compared and places are shown.
#![tactic(auto)]

mod fault;
mod form;
pub mod laws;
mod lines;
mod reader;
mod reading;
mod scan;
mod words;

pub use fault::{MAX_DEPTH, TextEnd, TextFault};
pub use form::{Form, FormList, Span};
pub use lines::line_column;
pub use reader::{MAX_BYTES, forms};
pub use words::{folded_word, same_word, small_copy, small_word, word};

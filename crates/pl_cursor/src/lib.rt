//! The answers of a reduced join one by one, in class order and without memory, from any place on.
//!
//! What an answer is, and a cursor as its callers see it, stands in `specs/Cursor.antt`. The tables are those
//! of a full reduction (Yannakakis 1981), so no choice of rows ends before an answer does, and each answer
//! takes a number of probes that only the number of classes bounds: the enumeration of an acyclic join with
//! constant delay.
#![tactic(auto)]

mod cursor;
pub mod laws;
mod layout;
mod narrow;
mod position;

pub use cursor::Cursor;

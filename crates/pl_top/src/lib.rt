//! The top call: from the words and the bytes of the files to the printed text and the exit status.
//!
//! What it promises stands in `specs/`: which words are a request (`Request`), what the answer to a request
//! is (`Answer`), how a run ends (`Run`), and what a run of `plan` says of its task (`Planning`); `laws` says
//! that over told files a request has one answer. What is printed stands in the printer's `Texts`, in
//! `Listing` and in `Searching`, what files state and what their faults are in the checker's definitions.
#![tactic(auto)]

mod ending;
pub mod laws;
mod listing;
mod make_request;
mod making;
mod plan_options;
mod planning;
mod reaching;
mod reading;
mod refusal;
mod request;
mod running;
mod search_end;
mod searching;
mod starting;
mod successors;
mod summary;
mod validating;
mod words;

pub use running::run;
pub use words::Words;

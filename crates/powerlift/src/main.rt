//! The program `powerlift`: the top call over the real files and streams.
#![tactic(auto)]

ghost use Rattle.std.specs.Prelude.{◌≡◌, ◌<◌};

use pl_io::{ErrSink, FileShelf, OutSink};
use pl_steps::Steps;
use pl_top::{Words, run};
use std::env;
use std::io::ErrorKind;
use std::marker::Brand;
use std::process::ExitCode;
use std::sync::ledger::{Blank, Ledger};

/// Why the top call can't be made.
enum NoWords {
    /// There is no memory for the words.
    Memory,
    /// The system does not give the words as text.
    System,
}

fn main(rt: HostRuntime) -> ExitCode {
    let status = match words_of(&rt) {
        Ok(words) => run_uncounted::<Brand>(&rt, &words, Blank::new(1)),
        Err(NoWords::Memory) => 8,
        Err(NoWords::System) => 9,
    };
    ExitCode::from(status)
}

/// The words after the program's name.
fn words_of(rt: &HostRuntime) -> Result<Words, NoWords> {
    let args = match env::args(rt) {
        Ok(args) => args,
        Err(error) if error.kind() == ErrorKind::OutOfMemory => return Err(NoWords::Memory),
        Err(_) => return Err(NoWords::System),
    };
    let mut words = Words::new(rt.alloc());
    for word in args.skip(1) {
        if words.push(&word).is_err() {
            return Err(NoWords::Memory);
        }
    }
    Ok(words)
}

/// The top call over the real files and streams, with a counter that nobody reads.
fn run_uncounted<L: Ledger>(rt: &HostRuntime, words: &Words, blank: Blank) -> u8
    requires name { blank.name ≡ L.name }
    requires parts { blank.parts ≡ L.parts }
    requires some { 0 < blank.parts }
{
    let mut steps = Steps::<L>::new(blank);
    let mut shelf = FileShelf::new(rt);
    let mut out = OutSink::new(rt);
    let mut err = ErrSink::new(rt);
    run(
        rt.alloc(),
        words,
        &mut shelf,
        &mut out,
        &mut err,
        &mut steps,
    )
}

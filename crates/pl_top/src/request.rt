//! The request that some words are.

ghost use Rattle.std.specs.Prelude.{◌≡◌, ◌<◌, ◌≤◌, Option, Some, length, drop};
ghost use Rattle.std.specs.Option.{option_map};
ghost use Rattle.pl_top.specs.Request as spec;
ghost use Rattle.pl_top.specs.Asked.{named, options_named};

use crate::make_request::make_of;
use crate::plan_options::{PlanOptions, plan_options_of};
use crate::words::Words;
use itoa::Buffer;
use pl_make::Kind;

/// What a run is asked for, with the names of its files.
#[derive(Clone, Copy, Debug)]
pub enum Request<'w> {
    /// Judge a plan.
    Validate {
        /// The name of the domain file.
        domain: &'w str,
        /// The name of the problem file.
        problem: &'w str,
        /// The name of the plan file.
        plan: &'w str,
    },
    /// List applicable steps.
    Successors {
        /// The name of the domain file.
        domain: &'w str,
        /// The name of the problem file.
        problem: &'w str,
        /// Of which state, from which step on, and how many.
        options: Options<'w>,
    },
    /// Find a plan.
    Plan {
        /// The name of the domain file.
        domain: &'w str,
        /// The name of the problem file.
        problem: &'w str,
        /// By which search, with how many states at most, and what is printed.
        options: PlanOptions,
    },
    /// Make a task and find a plan of it.
    Make {
        /// Of which kind it is.
        kind: Kind,
        /// In which size.
        n: u32,
        /// From what is drawn.
        start: u64,
    },
}

/// The options of `successors`.
#[derive(Clone, Copy, Debug)]
pub struct Options<'w> {
    /// The file of the plan after which the steps are listed.
    pub after: Option<&'w str>,
    /// The text of the step past which they are listed.
    pub past: Option<&'w str>,
    /// How many are printed at most.
    pub count: Option<u32>,
}

/// The request that the words are, or none where they are no request. It takes no memory.
pub fn request_of(words: &Words) -> Option<Request<'_>>
    ensures { option_map named result ≡ spec.request_of words.now }
{
    if words.len() == 0 {
        return None;
    }
    let command = words.word(0);
    if command == "validate" {
        return validate_of(words);
    }
    if command == "successors" {
        return successors_of(words);
    }
    if command == "plan" {
        return plan_of(words);
    }
    if command == "make" {
        return make_of(words);
    }
    None
}

/// The request of the words after `validate`.
fn validate_of(words: &Words) -> Option<Request<'_>>
    requires { 0 < length words.now }
    ensures { option_map named result ≡ spec.validate_of (drop 1 words.now) }
{
    if words.len() != 4 {
        return None;
    }
    let (domain, problem, plan) = (words.word(1), words.word(2), words.word(3));
    if is_file_name(domain) && is_file_name(problem) && is_file_name(plan) {
        return Some(Request::Validate {
            domain,
            problem,
            plan,
        });
    }
    None
}

/// The request of the words after `successors`.
fn successors_of(words: &Words) -> Option<Request<'_>>
    requires { 0 < length words.now }
    ensures { option_map named result ≡ spec.successors_of (drop 1 words.now) }
{
    if words.len() < 3 {
        return None;
    }
    let (domain, problem) = (words.word(1), words.word(2));
    if !is_file_name(domain) {
        return None;
    }
    if !is_file_name(problem) {
        return None;
    }
    let options = options_of(words)?;
    Some(Request::Successors {
        domain,
        problem,
        options,
    })
}

/// The request of the words after `plan`.
fn plan_of(words: &Words) -> Option<Request<'_>>
    requires { 0 < length words.now }
    ensures { option_map named result ≡ spec.plan_of (drop 1 words.now) }
{
    if words.len() < 3 {
        return None;
    }
    let (domain, problem) = (words.word(1), words.word(2));
    if !is_file_name(domain) {
        return None;
    }
    if !is_file_name(problem) {
        return None;
    }
    let options = plan_options_of(words)?;
    Some(Request::Plan {
        domain,
        problem,
        options,
    })
}

/// The options that the words after two file names are.
fn options_of(words: &Words) -> Option<Options<'_>>
    requires { 3 ≤ length words.now }
    ensures { option_map options_named result ≡ spec.with_all (drop 3 words.now) (Some spec.no_options) }
{
    let mut options = Options {
        after: None,
        past: None,
        count: None,
    };
    let mut at = 3;
    while words.len() - at >= 2 {
        options = with_option(options, words.word(at), words.word(at + 1))?;
        at += 2;
    }
    if at < words.len() {
        return None;
    }
    Some(options)
}

/// The options with a further one.
fn with_option<'w>(options: Options<'w>, name: &str, value: &'w str) -> Option<Options<'w>>
    ensures { option_map options_named result ≡ spec.with_option (options_named options.entry) name.now
        value.now }
{
    if name == "--after" {
        return with_after(options, value);
    }
    if name == "--past" {
        return with_past(options, value);
    }
    if name == "--count" {
        return with_count(options, value);
    }
    None
}

/// The options with a plan file.
fn with_after<'w>(options: Options<'w>, name: &'w str) -> Option<Options<'w>>
    ensures { option_map options_named result ≡ spec.with_after (options_named options.entry) name.now }
{
    if options.after.is_some() {
        return None;
    }
    if !is_file_name(name) {
        return None;
    }
    Some(Options {
        after: Some(name),
        past: options.past,
        count: options.count,
    })
}

/// The options with the text of a step, which may be any word.
fn with_past<'w>(options: Options<'w>, text: &'w str) -> Option<Options<'w>>
    ensures { option_map options_named result ≡ spec.with_past (options_named options.entry) text.now }
{
    if options.past.is_some() {
        return None;
    }
    Some(Options {
        after: options.after,
        past: Some(text),
        count: options.count,
    })
}

/// The options with a number of steps.
fn with_count<'w>(options: Options<'w>, word: &str) -> Option<Options<'w>>
    ensures { option_map options_named result ≡ spec.with_count (options_named options.entry) word.now }
{
    if options.count.is_some() {
        return None;
    }
    let number = count(word)?;
    Some(Options {
        after: options.after,
        past: options.past,
        count: Some(number),
    })
}

/// The number of which the word is the decimal text, without leading zeros.
pub fn count(word: &str) -> Option<u32>
    ensures { result ≡ spec.count_of word.now }
{
    let Ok(number) = word.parse::<u32>() else {
        return None;
    };
    let mut digits = Buffer::new();
    if digits.format(number) != word {
        return None;
    }
    Some(number)
}

/// Whether a word can name a file: any word that doesn't begin with `--`.
fn is_file_name(word: &str) -> bool
    ensures { result ≡ spec.is_file_name word.now }
{
    !word.starts_with("--")
}

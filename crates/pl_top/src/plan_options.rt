//! The options of `plan`.

ghost use Rattle.std.specs.Prelude.{◌≡◌, ◌<◌, ◌≤◌, IfNone, IfSome, None, Some, drop, length};
ghost use Rattle.std.specs.Option.{option_map};
ghost use Rattle.pl_top.specs.Request as spec;
ghost use Rattle.pl_top.specs.Asked.{kind_named, plan_options_named};

use crate::request::count;
use crate::words::Words;

/// The searches that `plan` can go by.
#[derive(Clone, Copy, Debug)]
pub enum Kind {
    /// Breadth-first.
    Bfs,
    /// Greedy best-first, by the number of unmet goal literals.
    Gbfs,
    /// Breadth-first over the states that have a new atom.
    Iw1,
    /// The same with a new atom or a new pair of atoms.
    Iw2,
}

/// The options of `plan`.
#[derive(Clone, Copy, Debug)]
pub struct PlanOptions {
    /// By which search.
    pub search: Option<Kind>,
    /// How many states are registered at most.
    pub limit: Option<u32>,
    /// Whether the counts of the search are printed.
    pub stats: bool,
}

/// The options that the words after two file names are.
pub fn plan_options_of(words: &Words) -> Option<PlanOptions>
    requires { 3 ≤ length words.now }
    ensures { option_map plan_options_named result
        ≡ spec.with_each (drop 3 words.now) (Some spec.no_plan_options) }
{
    let mut options = PlanOptions {
        search: None,
        limit: None,
        stats: false,
    };
    let mut at = 3;
    while at < words.len() {
        let (next, behind) = with_next(options, words, at)?;
        options = next;
        at = behind;
    }
    Some(options)
}

/// The options with the one that begins at word `at`, and the place behind it.
fn with_next(options: PlanOptions, words: &Words, at: usize) -> Option<(PlanOptions, usize)>
    requires { at < length words.now }
    ensures none { IfNone result
        (spec.with_each (drop at words.now) (Some (plan_options_named options)) ≡ None) }
    ensures on { IfSome result (λ next. (at < next.1) × (next.1 ≤ length words.now)) }
    ensures rest { IfSome result (λ next.
        spec.with_each (drop at words.now) (Some (plan_options_named options))
        ≡ spec.with_each (drop next.1 words.now) (Some (plan_options_named next.0))) }
{
    let len = words.len();
    let name = words.word(at);
    if name == "--stats" {
        let options = with_stats(options)?;
        return Some((options, at + 1));
    }
    if len - at == 1 {
        return None;
    }
    let options = with_value(options, name, words.word(at + 1))?;
    Some((options, at + 2))
}

/// The options with the counts.
fn with_stats(options: PlanOptions) -> Option<PlanOptions>
    ensures { option_map plan_options_named result ≡ spec.with_stats (plan_options_named options) }
{
    if options.stats {
        return None;
    }
    Some(PlanOptions {
        search: options.search,
        limit: options.limit,
        stats: true,
    })
}

/// The options with a further one that has a value.
fn with_value(options: PlanOptions, name: &str, value: &str) -> Option<PlanOptions>
    ensures { option_map plan_options_named result
        ≡ spec.with_value (plan_options_named options) name.now value.now }
{
    if name == "--search" {
        return with_search(options, value);
    }
    if name == "--limit" {
        return with_limit(options, value);
    }
    None
}

/// The options with a search.
fn with_search(options: PlanOptions, word: &str) -> Option<PlanOptions>
    ensures { option_map plan_options_named result ≡ spec.with_search (plan_options_named options) word.now }
{
    if options.search.is_some() {
        return None;
    }
    let search = search_named(word)?;
    Some(PlanOptions {
        search: Some(search),
        limit: options.limit,
        stats: options.stats,
    })
}

/// The search that a word names.
fn search_named(word: &str) -> Option<Kind>
    ensures { option_map kind_named result ≡ spec.search_named word.now }
{
    if word == "bfs" {
        return Some(Kind::Bfs);
    }
    if word == "gbfs" {
        return Some(Kind::Gbfs);
    }
    if word == "iw1" {
        return Some(Kind::Iw1);
    }
    if word == "iw2" {
        return Some(Kind::Iw2);
    }
    None
}

/// The options with a limit.
fn with_limit(options: PlanOptions, word: &str) -> Option<PlanOptions>
    ensures { option_map plan_options_named result ≡ spec.with_limit (plan_options_named options) word.now }
{
    if options.limit.is_some() {
        return None;
    }
    let limit = limit(word)?;
    Some(PlanOptions {
        search: options.search,
        limit: Some(limit),
        stats: options.stats,
    })
}

/// The limit of which the word is the text.
fn limit(word: &str) -> Option<u32>
    ensures { result ≡ spec.limit_within (spec.count_of word.now) }
{
    let number = count(word)?;
    if number < 1 {
        return None;
    }
    if number > 4294967294 {
        return None;
    }
    Some(number)
}

//! The chain of places.

ghost use Rattle.std.specs.Prelude.{◌≡◌, ◌++◌, ◌+◌, ◌*◌, ◌≤◌, ◌<◌, ◌^◌, length, IfOk, OnOk};
ghost use Rattle.std.specs.List.{flat_map};
ghost use Rattle.pl_task.specs.Types.{numbers_below};
ghost use Rattle.pl_make.specs.Texts.{hop_domain as hop_domain_text, hop_problem as hop_problem_text};
ghost use Rattle.pl_make.specs.Texts.{links_of, seed_after, next_seed, place_of};

use crate::writing::{put_atom, put_names, put_number};
use std::alloc::{AllocError, Global};

/// The domain.
pub fn hop_domain(alloc: Global) -> Result<Vec<u8>, AllocError>
    ensures text { IfOk result (λ text. text.items ≡ hop_domain_text) }
{
    Vec::from_slice(
        alloc,
        b"(define (domain hop)\n(:predicates (at ?x) (link ?x ?y))\n(:action hop :parameters (?x ?y)\n:precondition (and (at ?x) (link ?x ?y))\n:effect (and (not (at ?x)) (at ?y))))\n",
    )
}

/// The problem of `n` places, with the links that are drawn from `start`.
pub fn hop_problem(alloc: Global, n: u32, start: u64) -> Result<Vec<u8>, AllocError>
    requires some { 1 ≤ n }
    ensures text { IfOk result (λ text. text.items ≡ hop_problem_text n start) }
{
    let mut text = Vec::from_slice(alloc, b"(define (problem hop)\n(:objects")?;
    put_names(&mut text, b"p", n)?;
    text.extend_from_slice(b")\n(:init (at p0)\n")?;
    put_links(&mut text, n, start)?;
    text.extend_from_slice(b")\n(:goal (at p")?;
    put_number(&mut text, n - 1)?;
    text.extend_from_slice(b")))\n")?;
    Ok(text)
}

/// Appends the links of all places.
#[tactic(auto, using(crate::proofs::Numbers::pieces))]
fn put_links(text: &mut Vec<u8>, n: u32, start: u64) -> Result<(), AllocError>
    requires some { 1 ≤ n }
    ensures text { OnOk result (text.new.items ≡ text.old.items ++
        flat_map (links_of n start) (numbers_below n)) }
{
    let mut seed = start;
    for i in 0..n {
        seed = next(seed);
        put_links_of(text, n, i, seed)?;
    }
    Ok(())
}

/// Appends the links of a place, where `seed` stands for the drawn one.
fn put_links_of(text: &mut Vec<u8>, n: u32, i: u32, seed: u64) -> Result<(), AllocError>
    requires place { i < n }
    ensures text { (start : _) → seed ≡ seed_after start (i + 1) →
        OnOk result (text.new.items ≡ text.old.items ++ links_of n start i) }
{
    if i + 1 < n {
        put_atom(text, b"link", b"p", i, i + 1)?;
    }
    put_atom(text, b"link", b"p", i, drawn(n, seed))
}

/// The seed after a drawing.
fn next(seed: u64) -> u64
    ensures { result ≡ next_seed seed }
{
    seed.wrapping_mul(6364136223846793005)
        .wrapping_add(1442695040888963407)
}

/// The place that a seed stands for.
fn drawn(n: u32, seed: u64) -> u32
    requires some { 1 ≤ n }
    ensures { result ≡ place_of n seed }
{
    (seed / 8589934592 % u64::from(n)) as u32
}

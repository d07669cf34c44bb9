//! The wide join.

ghost use Rattle.std.specs.Prelude.{◌≡◌, ◌++◌, ◌+◌, ◌*◌, ◌≤◌, ◌<◌, ◌^◌, length, codes, IfOk, OnOk};
ghost use Rattle.std.specs.List.{flat_map};
ghost use Rattle.pl_task.specs.Types.{numbers_below};
ghost use Rattle.pl_make.specs.Texts.{wide_domain as wide_domain_text, wide_problem as wide_problem_text};
ghost use Rattle.pl_make.specs.Texts.{pairs_text, relation_text, last_relation_text, atom_line};
ghost use Rattle.pl_make.specs.Texts.{relation_name};

use crate::writing::{put_names, put_number};
use std::alloc::{AllocError, Global};

/// The domain.
pub fn wide_domain(alloc: Global) -> Result<Vec<u8>, AllocError>
    ensures text { IfOk result (λ text. text.items ≡ wide_domain_text) }
{
    Vec::from_slice(
        alloc,
        b"(define (domain wide)\n(:predicates (r1 ?x ?y) (r2 ?x ?y) (r3 ?x ?y) (r4 ?x ?y) (r5 ?x ?y) (r6 ?x ?y) (r7 ?x ?y) (done))\n(:action pass :parameters (?a ?b ?c ?d ?e ?f ?g ?h)\n:precondition (and (r1 ?a ?b) (r2 ?b ?c) (r3 ?c ?d) (r4 ?d ?e) (r5 ?e ?f) (r6 ?f ?g) (r7 ?g ?h))\n:effect (done)))\n",
    )
}

/// The problem with blocks of `n` objects.
pub fn wide_problem(alloc: Global, n: u32) -> Result<Vec<u8>, AllocError>
    requires few { n ≤ 100 }
    ensures text { IfOk result (λ text. text.items ≡ wide_problem_text n) }
{
    let mut text = Vec::from_slice(alloc, b"(define (problem wide)\n(:objects")?;
    put_names(&mut text, b"o", 8 * n + 8)?;
    text.extend_from_slice(b")\n(:init\n")?;
    put_relations(&mut text, n)?;
    put_last_relation(&mut text, n)?;
    text.extend_from_slice(b")\n(:goal (done)))\n")?;
    Ok(text)
}

/// Appends the first six relations.
#[tactic(auto, using(crate::proofs::Numbers::pieces))]
fn put_relations(text: &mut Vec<u8>, n: u32) -> Result<(), AllocError>
    requires few { n ≤ 100 }
    ensures text { OnOk result (text.new.items ≡ text.old.items ++
        flat_map (λ i. relation_text n (i + 1)) (numbers_below 6)) }
{
    for k in 0..6 {
        put_relation(text, n, k + 1)?;
    }
    Ok(())
}

/// Appends relation `k` of the first six.
fn put_relation(text: &mut Vec<u8>, n: u32, k: u32) -> Result<(), AllocError>
    requires few { n ≤ 100 }
    requires first { 1 ≤ k }
    requires last { k ≤ 6 }
    ensures text { OnOk result (text.new.items ≡ text.old.items ++ relation_text n k) }
{
    put_pairs(text, k, n, n * (k - 1), n * k)?;
    put_pair(text, k, 7 * n + k - 1, 7 * n + k)
}

/// Appends the last relation, whose pairs begin at objects of their own.
fn put_last_relation(text: &mut Vec<u8>, n: u32) -> Result<(), AllocError>
    requires few { n ≤ 100 }
    ensures text { OnOk result (text.new.items ≡ text.old.items ++ last_relation_text n) }
{
    put_pairs(text, 7, n, 7 * n + 8, 7 * n + 8)?;
    put_pair(text, 7, 7 * n + 6, 7 * n + 7)
}

/// Appends the pairs of the `n` objects from `left` on with the `n` objects from `right` on.
#[tactic(auto, using(crate::proofs::Numbers::pieces))]
fn put_pairs(text: &mut Vec<u8>, k: u32, n: u32, left: u32, right: u32) -> Result<(), AllocError>
    requires left { left + n < 2 ^ 32 }
    requires right { right + n < 2 ^ 32 }
    ensures text { OnOk result (text.new.items ≡ text.old.items ++ pairs_text k n left right) }
{
    for i in 0..n {
        put_pairs_of(text, k, left + i, n, right)?;
    }
    Ok(())
}

/// Appends the pairs of one object with the `n` objects from `right` on.
#[tactic(auto, using(crate::proofs::Numbers::pieces))]
fn put_pairs_of(
    text: &mut Vec<u8>,
    k: u32,
    object: u32,
    n: u32,
    right: u32,
) -> Result<(), AllocError>
    requires right { right + n < 2 ^ 32 }
    ensures text { OnOk result (text.new.items ≡ text.old.items ++
        flat_map (λ j. atom_line (relation_name k) (codes "o") object (right + j)) (numbers_below n)) }
{
    for j in 0..n {
        put_pair(text, k, object, right + j)?;
    }
    Ok(())
}

/// Appends the line of a pair of relation `k`.
fn put_pair(text: &mut Vec<u8>, k: u32, left: u32, right: u32) -> Result<(), AllocError>
    ensures text { OnOk result (text.new.items ≡ text.old.items ++ atom_line (relation_name k)
        (codes "o") left right) }
{
    text.extend_from_slice(b"(r")?;
    put_number(text, k)?;
    text.extend_from_slice(b" o")?;
    put_number(text, left)?;
    text.extend_from_slice(b" o")?;
    put_number(text, right)?;
    text.extend_from_slice(b")\n")
}

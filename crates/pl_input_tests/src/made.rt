//! Small texts worked out by hand, and how long the largest ones are.

use pl_make::{Kind, make};
use std::alloc::Global;
use std::test::Fail;

const HOP: &str = "(define (domain hop)
(:predicates (at ?x) (link ?x ?y))
(:action hop :parameters (?x ?y)
:precondition (and (at ?x) (link ?x ?y))
:effect (and (not (at ?x)) (at ?y))))
";

const HOP_2: &str = "(define (problem hop)
(:objects p0 p1)
(:init (at p0)
(link p0 p1)
(link p0 p1)
(link p1 p0)
)
(:goal (at p1)))
";

const HOP_3: &str = "(define (problem hop)
(:objects p0 p1 p2)
(:init (at p0)
(link p0 p1)
(link p0 p2)
(link p1 p2)
(link p1 p2)
(link p2 p0)
)
(:goal (at p2)))
";

const WIDE: &str = "(define (domain wide)
(:predicates (r1 ?x ?y) (r2 ?x ?y) (r3 ?x ?y) (r4 ?x ?y) (r5 ?x ?y) (r6 ?x ?y) (r7 ?x ?y) (done))
(:action pass :parameters (?a ?b ?c ?d ?e ?f ?g ?h)
:precondition (and (r1 ?a ?b) (r2 ?b ?c) (r3 ?c ?d) (r4 ?d ?e) (r5 ?e ?f) (r6 ?f ?g) (r7 ?g ?h))
:effect (done)))
";

const WIDE_1: &str = "(define (problem wide)
(:objects o0 o1 o2 o3 o4 o5 o6 o7 o8 o9 o10 o11 o12 o13 o14 o15)
(:init
(r1 o0 o1)
(r1 o7 o8)
(r2 o1 o2)
(r2 o8 o9)
(r3 o2 o3)
(r3 o9 o10)
(r4 o3 o4)
(r4 o10 o11)
(r5 o4 o5)
(r5 o11 o12)
(r6 o5 o6)
(r6 o12 o13)
(r7 o15 o15)
(r7 o13 o14)
)
(:goal (done)))
";

#[test]
fn small_tasks(rt: HostRuntime) -> Result<(), Fail> {
    let alloc = rt.alloc();
    let hop = make(alloc, Kind::Hop, 2, 0)?;
    assert_eq!(rt; hop.domain.as_slice(), HOP.as_bytes());
    assert_eq!(rt; hop.problem.as_slice(), HOP_2.as_bytes());
    let drawn = make(alloc, Kind::Hop, 3, 7)?;
    assert_eq!(rt; drawn.problem.as_slice(), HOP_3.as_bytes());
    let wide = make(alloc, Kind::Wide, 1, 7)?;
    assert_eq!(rt; wide.domain.as_slice(), WIDE.as_bytes());
    assert_eq!(rt; wide.problem.as_slice(), WIDE_1.as_bytes());
    Ok(())
}

#[test]
fn largest_tasks(rt: HostRuntime) -> Result<(), Fail> {
    let alloc = rt.alloc();
    let hop = make(alloc, Kind::Hop, 1000, u64::MAX)?;
    assert_eq!(rt; hop.problem.as_slice().len(), 38511);
    let wide = make(alloc, Kind::Wide, 100, 0)?;
    assert_eq!(rt; wide.problem.as_slice().len(), 1043094);
    Ok(())
}

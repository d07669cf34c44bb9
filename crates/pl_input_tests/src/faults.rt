//! Worked files, whose first fault was read off the rules by hand.

use pl_check::{CheckEnd, FaultKind, FileRole, InputFault, check};
use std::alloc::{AllocError, Global};
use std::test::Fail;

/// Where the piece of a case stands: in this file, between these texts. The other file has no fault.
#[derive(Clone, Copy)]
struct Slot {
    file: FileRole,
    front: &'static str,
    back: &'static str,
}

const DOMAIN: Slot = Slot {
    file: FileRole::Domain,
    front: "",
    back: "",
};

const SECTION: Slot = Slot {
    file: FileRole::Domain,
    front: "(define (domain d) ",
    back: ")",
};

const TYPES: Slot = Slot {
    file: FileRole::Domain,
    front: "(define (domain d) (:types ",
    back: "))",
};

const CONSTANTS: Slot = Slot {
    file: FileRole::Domain,
    front: "(define (domain d) (:types t) (:constants ",
    back: "))",
};

const PREDICATES: Slot = Slot {
    file: FileRole::Domain,
    front: "(define (domain d) (:types t) (:predicates ",
    back: "))",
};

const PAIRS: Slot = Slot {
    file: FileRole::Domain,
    front: "(define (domain d) (:constants c) (:predicates (p ?x) (q)) (:action a ",
    back: "))",
};

const PARAMETERS: Slot = Slot {
    file: FileRole::Domain,
    front: "(define (domain d) (:types t) (:action a :parameters ",
    back: "))",
};

const CONDITION: Slot = Slot {
    file: FileRole::Domain,
    front: "(define (domain d) (:constants c) (:predicates (p ?x) (q))
        (:action a :parameters (?x) :precondition ",
    back: "))",
};

const EFFECT: Slot = Slot {
    file: FileRole::Domain,
    front: "(define (domain d) (:constants c) (:predicates (p ?x) (q))
        (:action a :parameters (?x) :effect ",
    back: "))",
};

const PROBLEM: Slot = Slot {
    file: FileRole::Problem,
    front: "",
    back: "",
};

const PART: Slot = Slot {
    file: FileRole::Problem,
    front: "(define (problem p) ",
    back: ")",
};

const OBJECTS: Slot = Slot {
    file: FileRole::Problem,
    front: "(define (problem p) (:objects ",
    back: "))",
};

const INIT: Slot = Slot {
    file: FileRole::Problem,
    front: "(define (problem p) (:objects o) (:init ",
    back: "))",
};

const GOAL: Slot = Slot {
    file: FileRole::Problem,
    front: "(define (problem p) (:objects o) (:goal ",
    back: "))",
};

/// The domain of a case whose piece stands in the problem.
const PLAIN_DOMAIN: &str = "(define (domain d) (:types t) (:constants c) (:predicates (p ?x) (q))
    (:action a :parameters (?x) :effect (p ?x)))";

/// The problem of a case whose piece stands in the domain.
const PLAIN_PROBLEM: &str = "(define (problem p))";

/// A piece of a file and the kind of its first fault. The `@` marks the place of the fault, and isn't part of
/// the file.
type Case = (Slot, &'static str, FaultKind);

const FAULTS: &[Case] = &[
    // Text faults.
    (DOMAIN, "(define @\u{e9}", FaultKind::BadByte),
    (DOMAIN, "(define)@)(", FaultKind::StrayClose),
    (DOMAIN, "@((define)", FaultKind::Unclosed),
    // A file is one form.
    (DOMAIN, "@", FaultKind::NotOneForm),
    (DOMAIN, " ; (define)\n@", FaultKind::NotOneForm),
    (DOMAIN, "@define ()", FaultKind::NotOneForm),
    (DOMAIN, "(define (domain d)) @() ()", FaultKind::NotOneForm),
    (PROBLEM, "\n@", FaultKind::NotOneForm),
    (PROBLEM, "@p", FaultKind::NotOneForm),
    (PROBLEM, "(define (problem p))\n@p", FaultKind::NotOneForm),
    // The faults inside the first form come before a second form.
    (DOMAIN, "(define (domain d) @x) ()", FaultKind::BadForm),
    // The `define` list and the title.
    (DOMAIN, "@()", FaultKind::BadForm),
    (DOMAIN, "@(define)", FaultKind::BadForm),
    (DOMAIN, "@(define d)", FaultKind::BadForm),
    (DOMAIN, "@(defined (domain d))", FaultKind::BadForm),
    (DOMAIN, "@((define) (domain d))", FaultKind::BadForm),
    (DOMAIN, "(define @())", FaultKind::BadForm),
    (DOMAIN, "(define @(domain))", FaultKind::BadForm),
    (DOMAIN, "(define @(domain d e))", FaultKind::BadForm),
    (DOMAIN, "(define @(domain ?d))", FaultKind::BadForm),
    (DOMAIN, "(define @(domain (d)))", FaultKind::BadForm),
    (DOMAIN, "(define @(problem d))", FaultKind::BadForm),
    (PROBLEM, "(DEFINE @(DOMAIN p))", FaultKind::BadForm),
    // Sections.
    (SECTION, "@x", FaultKind::BadForm),
    (SECTION, "@:types", FaultKind::BadForm),
    (SECTION, "@()", FaultKind::BadForm),
    (SECTION, "@(types)", FaultKind::BadForm),
    (SECTION, "@((:types))", FaultKind::BadForm),
    (SECTION, "@(:functions)", FaultKind::Unsupported),
    (SECTION, "@(:init)", FaultKind::Unsupported),
    (PART, "@(:predicates)", FaultKind::Unsupported),
    (PART, "@(:action a)", FaultKind::Unsupported),
    (SECTION, "(:types a) @(:TYPES)", FaultKind::Duplicate),
    (PART, "(:init) (:goal) @(:init)", FaultKind::Duplicate),
    (PART, "@(:domain)", FaultKind::BadForm),
    (PART, "@(:domain d e)", FaultKind::BadForm),
    (PART, "@(:domain (d))", FaultKind::BadForm),
    (PART, "@(:domain ?d)", FaultKind::BadForm),
    (PART, "@(:goal () ())", FaultKind::BadForm),
    (SECTION, "@(:action)", FaultKind::BadForm),
    (SECTION, "@(:action (a))", FaultKind::BadForm),
    (SECTION, "@(:action :a)", FaultKind::BadForm),
    (SECTION, "@(:action a :effect)", FaultKind::BadForm),
    // A section of the other file that has the wrong shape, too, and a repeated one.
    (SECTION, "@(:goal () ())", FaultKind::BadForm),
    (SECTION, "@(:goal ())", FaultKind::Unsupported),
    (SECTION, "@(:domain)", FaultKind::BadForm),
    (PART, "@(:action)", FaultKind::BadForm),
    (PART, "(:domain d) @(:domain)", FaultKind::BadForm),
    (PART, "(:domain d) @(:domain d)", FaultKind::Duplicate),
    (
        SECTION,
        "(:requirements :a b 1) (:types @(a))",
        FaultKind::BadForm,
    ),
    (SECTION, "(:requirements :a @())", FaultKind::BadForm),
    (PART, "(:requirements @(:a))", FaultKind::BadForm),
    // Typed lists of names.
    (TYPES, "@- a", FaultKind::BadForm),
    (TYPES, "a @-", FaultKind::BadForm),
    (TYPES, "a - b @- c", FaultKind::BadForm),
    (TYPES, "a - @- b", FaultKind::BadForm),
    (TYPES, "a - @-", FaultKind::BadForm),
    (TYPES, "@?a", FaultKind::BadForm),
    (TYPES, "@(a)", FaultKind::BadForm),
    (TYPES, "a - @?b", FaultKind::BadForm),
    (TYPES, "a - @(either b c)", FaultKind::BadForm),
    (CONSTANTS, "a - @u", FaultKind::UnknownType),
    (CONSTANTS, "a - T @:b", FaultKind::BadForm),
    (CONSTANTS, "a - @:t", FaultKind::BadForm),
    (CONSTANTS, "a - @(either t)", FaultKind::BadForm),
    (OBJECTS, "a - object b - @u", FaultKind::UnknownType),
    (OBJECTS, "a b @-", FaultKind::BadForm),
    (OBJECTS, "a @?b", FaultKind::BadForm),
    // Typed lists of variables.
    (PARAMETERS, "@x", FaultKind::BadForm),
    (PARAMETERS, "@?x", FaultKind::BadForm),
    (PARAMETERS, "(@x)", FaultKind::BadForm),
    (PARAMETERS, "(@?)", FaultKind::BadForm),
    (PARAMETERS, "(@(?x))", FaultKind::BadForm),
    (PARAMETERS, "(@- t)", FaultKind::BadForm),
    (PARAMETERS, "(?x @-)", FaultKind::BadForm),
    (PARAMETERS, "(?x ?y @?X)", FaultKind::Duplicate),
    (PARAMETERS, "(?x - t @?x - t)", FaultKind::Duplicate),
    (PARAMETERS, "(?x - @u)", FaultKind::UnknownType),
    (PARAMETERS, "(?x - @?t)", FaultKind::BadForm),
    (PARAMETERS, "(?x - @())", FaultKind::BadForm),
    (PARAMETERS, "(?x - @(t))", FaultKind::BadForm),
    (PARAMETERS, "(?x - @(either))", FaultKind::BadForm),
    (PARAMETERS, "(?x - (either @?t))", FaultKind::BadForm),
    (PARAMETERS, "(?x - (either t @(t)))", FaultKind::BadForm),
    (PARAMETERS, "(?x - (either t @u))", FaultKind::UnknownType),
    (PREDICATES, "(p @x)", FaultKind::BadForm),
    (PREDICATES, "(p ?x ?x - @u)", FaultKind::UnknownType),
    (PREDICATES, "(p ?x - @(either))", FaultKind::BadForm),
    // Declarations of predicates.
    (PREDICATES, "@p", FaultKind::BadForm),
    (PREDICATES, "@()", FaultKind::BadForm),
    (PREDICATES, "@(?p)", FaultKind::BadForm),
    (PREDICATES, "@((p))", FaultKind::BadForm),
    (PREDICATES, "@(= ?x ?y)", FaultKind::BadForm),
    (PREDICATES, "@(scale-up)", FaultKind::BadForm),
    (PREDICATES, "(p) (q) @(P ?x)", FaultKind::Duplicate),
    // Only the elements of `:predicates` themselves are declarations; the arity counts each variable among
    // the elements.
    (
        SECTION,
        "(:action a :effect @(q)) (:predicates ((q)))",
        FaultKind::UnknownPredicate,
    ),
    (
        SECTION,
        "(:constants c) (:action a :effect @(p c)) (:predicates (p ?x - ?y))",
        FaultKind::WrongArity,
    ),
    // Actions and their pairs.
    (
        SECTION,
        "(:action a) (:action b) (:action @A)",
        FaultKind::Duplicate,
    ),
    (PAIRS, "@effect ()", FaultKind::BadForm),
    (PAIRS, "@(:effect) ()", FaultKind::BadForm),
    (PAIRS, "@:vars ()", FaultKind::Unsupported),
    (PAIRS, ":effect () @:EFFECT ()", FaultKind::Duplicate),
    // The first `:parameters` alone counts, and a word there has none.
    (
        PAIRS,
        ":effect (p @?y) :parameters (?x) :parameters (?y)",
        FaultKind::UnknownName,
    ),
    (
        PAIRS,
        ":effect (p @?x) :parameters x :parameters (?x)",
        FaultKind::UnknownName,
    ),
    (
        PAIRS,
        ":effect (q) :parameters @x :parameters (?x)",
        FaultKind::BadForm,
    ),
    // Conditions.
    (CONDITION, "@x", FaultKind::BadForm),
    (CONDITION, "@(())", FaultKind::BadForm),
    (CONDITION, "@(?x)", FaultKind::BadForm),
    (CONDITION, "@(:and)", FaultKind::BadForm),
    (CONDITION, "@(- c)", FaultKind::BadForm),
    (CONDITION, "(and () (q) @x)", FaultKind::BadForm),
    (
        CONDITION,
        "(and (and (q)) (and @(z)))",
        FaultKind::UnknownPredicate,
    ),
    (CONDITION, "@(not)", FaultKind::BadForm),
    (CONDITION, "@(not (q) (q))", FaultKind::BadForm),
    (CONDITION, "(not @q)", FaultKind::BadForm),
    (CONDITION, "(not @())", FaultKind::BadForm),
    (CONDITION, "(not @((q)))", FaultKind::BadForm),
    (CONDITION, "(not @(and))", FaultKind::Unsupported),
    (CONDITION, "(not @(not (q)))", FaultKind::Unsupported),
    (CONDITION, "(not @(= ?x))", FaultKind::WrongArity),
    (CONDITION, "(not @(z))", FaultKind::UnknownPredicate),
    (CONDITION, "(not @(p))", FaultKind::WrongArity),
    (CONDITION, "(not (= ?x @z))", FaultKind::UnknownName),
    (CONDITION, "@(=)", FaultKind::WrongArity),
    (CONDITION, "@(= ?x c c)", FaultKind::WrongArity),
    (CONDITION, "(= c @())", FaultKind::BadForm),
    (CONDITION, "@(or (q))", FaultKind::Unsupported),
    (CONDITION, "@(forall (?y) (q))", FaultKind::Unsupported),
    (CONDITION, "@(< ?x)", FaultKind::Unsupported),
    (CONDITION, "@(z ?y)", FaultKind::UnknownPredicate),
    (CONDITION, "@(p)", FaultKind::WrongArity),
    (CONDITION, "@(Q c)", FaultKind::WrongArity),
    // Terms.
    (CONDITION, "(p @(c))", FaultKind::BadForm),
    (CONDITION, "(p @:c)", FaultKind::BadForm),
    (CONDITION, "(p @-)", FaultKind::BadForm),
    (CONDITION, "(p @?)", FaultKind::BadForm),
    (CONDITION, "(p @?y)", FaultKind::UnknownName),
    (CONDITION, "(p @z)", FaultKind::UnknownName),
    // Effects.
    (EFFECT, "@x", FaultKind::BadForm),
    (EFFECT, "@(= ?x ?x)", FaultKind::Unsupported),
    (EFFECT, "@(= ?x)", FaultKind::Unsupported),
    (EFFECT, "(not @(= ?x c))", FaultKind::Unsupported),
    (EFFECT, "(and (q) @(when (q) (q)))", FaultKind::Unsupported),
    (EFFECT, "(and (not (q)) @(z))", FaultKind::UnknownPredicate),
    (EFFECT, "@(p ?x c)", FaultKind::WrongArity),
    (EFFECT, "(not (p @?z))", FaultKind::UnknownName),
    // The atoms of `:init`.
    (INIT, "@q", FaultKind::BadForm),
    (INIT, "(q) @()", FaultKind::BadForm),
    (INIT, "@(?x)", FaultKind::BadForm),
    (INIT, "@(not (q))", FaultKind::Unsupported),
    (INIT, "@(= o o)", FaultKind::Unsupported),
    (INIT, "@(and)", FaultKind::Unsupported),
    (INIT, "@(z o)", FaultKind::UnknownPredicate),
    (INIT, "@(p)", FaultKind::WrongArity),
    (INIT, "(p @?x)", FaultKind::UnknownName),
    (INIT, "(p o) (p c) (p @z)", FaultKind::UnknownName),
    // The goal.
    (GOAL, "@q", FaultKind::BadForm),
    (GOAL, "@(= o o)", FaultKind::Unsupported),
    (GOAL, "(not @(= o o))", FaultKind::Unsupported),
    (GOAL, "(and (q) @(or))", FaultKind::Unsupported),
    (GOAL, "(and (p o) (p @?x))", FaultKind::UnknownName),
    (GOAL, "(not @(p o o))", FaultKind::WrongArity),
    // In `c - - b` the name b stands in type position, so it is no object.
    (OBJECTS, "c - @- b", FaultKind::BadForm),
    (
        SECTION,
        "(:predicates (p ?x)) (:action a :effect (p @b)) (:constants c - - b)",
        FaultKind::UnknownName,
    ),
    // What is declared counts whatever faults stand around it.
    (
        SECTION,
        "(:predicates (p ?x)) (:action a :effect (p b)) (:constants @(c) b)",
        FaultKind::BadForm,
    ),
];

/// Two marked files and the kind of their first fault.
const PAIRS_OF_FILES: &[(&str, &str, FaultKind)] = &[
    // A text fault comes before any other, the domain's before the problem's.
    ("(define (domain d) x)", "@(", FaultKind::Unclosed),
    ("x @)", "(", FaultKind::StrayClose),
    // Any fault of the domain comes before one of the problem.
    ("(define (domain d) @x)", "x", FaultKind::BadForm),
    ("(define (domain d)) @x", "x", FaultKind::NotOneForm),
    // A constant is an object of the problem, and an object one of the domain.
    (
        "(define (domain d) (:predicates (p ?x)) (:action a :effect (p o)))",
        "(define (problem p) (:objects o) (:init (p o)) @x)",
        FaultKind::BadForm,
    ),
];

/// A piece that stands so many times between two texts of a domain, and the kind of the first fault, if there
/// is one.
struct Repeated {
    front: &'static str,
    piece: &'static str,
    count: usize,
    back: &'static str,
    kind: Option<FaultKind>,
}

const REPEATED: &[Repeated] = &[
    Repeated {
        front: "",
        piece: "(",
        count: 200,
        back: "@( x",
        kind: Some(FaultKind::TooDeep),
    },
    Repeated {
        front: "(define (domain d) (:predicates (p ",
        piece: "?x ",
        count: 64,
        back: ")))",
        kind: None,
    },
    Repeated {
        front: "(define (domain d) (:predicates @(p ",
        piece: "?x ",
        count: 65,
        back: ")))",
        kind: Some(FaultKind::TooMany),
    },
    // A declaration that stands again with too many arguments.
    Repeated {
        front: "(define (domain d) (:predicates (p) @(p ",
        piece: "?x ",
        count: 65,
        back: ")))",
        kind: Some(FaultKind::Duplicate),
    },
    // Each item of parameters counts, whatever it is.
    Repeated {
        front: "(define (domain d) (:action a :parameters (@x ",
        piece: "x ",
        count: 63,
        back: ")))",
        kind: Some(FaultKind::BadForm),
    },
    Repeated {
        front: "(define (domain d) (:action a :parameters @(x ",
        piece: "x ",
        count: 64,
        back: ")))",
        kind: Some(FaultKind::TooMany),
    },
    Repeated {
        front: "(define (domain d) (:predicates (q)) (:action a :precondition (and ",
        piece: "(q)",
        count: 1024,
        back: ")))",
        kind: None,
    },
    Repeated {
        front: "(define (domain d) (:predicates (q)) (:action a :precondition @(and ",
        piece: "(q)",
        count: 1025,
        back: ")))",
        kind: Some(FaultKind::TooMany),
    },
    // Faulty atoms and equalities count, and all elements of a `not`; what stands under other heads doesn't.
    Repeated {
        front: "(define (domain d) (:action a :precondition @(and (z z) ",
        piece: "(and (=))",
        count: 1024,
        back: ")))",
        kind: Some(FaultKind::TooMany),
    },
    Repeated {
        front: "(define (domain d) (:predicates (q)) (:action a :precondition @(and (not ",
        piece: "(q)",
        count: 1025,
        back: "))))",
        kind: Some(FaultKind::TooMany),
    },
    Repeated {
        front: "(define (domain d) (:predicates (q)) (:action a :precondition @(not ",
        piece: "(q)",
        count: 1025,
        back: ")))",
        kind: Some(FaultKind::BadForm),
    },
    Repeated {
        front: "(define (domain d) (:predicates (q)) (:action a :precondition (and @(or ",
        piece: "(q)",
        count: 1025,
        back: "))))",
        kind: Some(FaultKind::Unsupported),
    },
    Repeated {
        front: "(define (domain d) (:predicates (q)) (:action a :effect (and ",
        piece: "(q)",
        count: 1025,
        back: ")))",
        kind: None,
    },
];

/// A file without its mark, and the place of the mark.
#[derive(Drop)]
struct Marked {
    bytes: Vec<u8>,
    at: usize,
}

/// Adds a text, which may have the mark.
fn add(file: &mut Marked, text: &str) -> Result<(), AllocError> {
    for byte in text.as_bytes() {
        if *byte == b'@' {
            file.at = file.bytes.len();
        } else {
            file.bytes.push(*byte)?;
        }
    }
    Ok(())
}

/// The file that these texts make.
fn file_of(alloc: Global, texts: &[&str]) -> Result<Marked, AllocError> {
    let mut file = Marked {
        bytes: Vec::new(alloc),
        at: 0,
    };
    for text in texts {
        add(&mut file, text)?;
    }
    Ok(file)
}

/// The first fault of two files, if they have one.
fn first_fault(
    alloc: Global,
    domain: &[u8],
    problem: &[u8],
) -> Result<Option<InputFault>, AllocError> {
    if domain.len() > 16777216 {
        return Ok(None);
    }
    if problem.len() > 16777216 {
        return Ok(None);
    }
    match check(alloc, domain, problem) {
        Ok(_) => Ok(None),
        Err(CheckEnd::Fault(fault)) => Ok(Some(fault)),
        Err(CheckEnd::Memory(failed)) => Err(failed),
    }
}

/// Whether the first fault has this kind and stands in this file at this place.
fn is_at(found: Option<InputFault>, file: FileRole, at: usize, kind: FaultKind) -> bool {
    match found {
        None => false,
        Some(fault) => fault.file == file && fault.at as usize == at && fault.kind == kind,
    }
}

/// Whether the case's piece has the case's fault first.
fn is_met(alloc: Global, case: &Case) -> Result<bool, AllocError> {
    let (slot, piece, kind) = case;
    let file = file_of(alloc, &[slot.front, *piece, slot.back])?;
    let found = match slot.file {
        FileRole::Problem => first_fault(alloc, PLAIN_DOMAIN.as_bytes(), file.bytes.as_slice())?,
        _ => first_fault(alloc, file.bytes.as_slice(), PLAIN_PROBLEM.as_bytes())?,
    };
    Ok(is_at(found, slot.file, file.at, *kind))
}

/// Whether the two files have their fault where the mark is.
fn is_met_by_both(
    alloc: Global,
    domain: &str,
    problem: &str,
    kind: FaultKind,
) -> Result<bool, AllocError> {
    let first = file_of(alloc, &[domain])?;
    let second = file_of(alloc, &[problem])?;
    let found = first_fault(alloc, first.bytes.as_slice(), second.bytes.as_slice())?;
    if first.bytes.len() < domain.len() {
        return Ok(is_at(found, FileRole::Domain, first.at, kind));
    }
    Ok(is_at(found, FileRole::Problem, second.at, kind))
}

/// Whether the repeated piece has the case's fault first, or none.
fn is_met_by_many(alloc: Global, case: &Repeated) -> Result<bool, AllocError> {
    let mut file = file_of(alloc, &[case.front])?;
    for _ in 0..case.count {
        add(&mut file, case.piece)?;
    }
    add(&mut file, case.back)?;
    let found = first_fault(alloc, file.bytes.as_slice(), PLAIN_PROBLEM.as_bytes())?;
    match case.kind {
        None => Ok(found.is_none()),
        Some(kind) => Ok(is_at(found, FileRole::Domain, file.at, kind)),
    }
}

#[test]
fn the_first_fault_is_given(rt: HostRuntime) -> Result<(), Fail> {
    let alloc = rt.alloc();
    for (i, case) in FAULTS.iter().enumerate() {
        assert!(rt; is_met(alloc, case)?, "piece {i}");
    }
    for (i, (domain, problem, kind)) in PAIRS_OF_FILES.iter().enumerate() {
        assert!(rt; is_met_by_both(alloc, domain, problem, *kind)?, "files {i}");
    }
    for (i, case) in REPEATED.iter().enumerate() {
        assert!(rt; is_met_by_many(alloc, case)?, "repeated {i}");
    }
    Ok(())
}

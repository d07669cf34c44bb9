//! Runs over files and streams in memory: the words, the files' bytes, and what is printed, byte by byte.

ghost use Rattle.std.specs.Prelude.{◌≡◌, ◌<◌, ◌≤◌};

use pl_io::{MemShelf, MemSink, NamedFile};
use pl_steps::Steps;
use pl_top::{Words, run};
use std::alloc::{AllocError, Global};
use std::fmt::Write;
use std::marker::Brand;
use std::sync::ledger::{Blank, Ledger};
use std::test::Fail;

/// The words that the files of a case are asked with.
pub const VALIDATE: &[&str] = &["validate", "d", "p", "l"];

/// A domain with one action, from a place to a linked one.
pub const HOP: &str = "(define (domain hop)
 (:predicates (at ?x) (link ?x ?y))
 (:action hop :parameters (?x ?y)
  :precondition (and (at ?x) (link ?x ?y))
  :effect (and (not (at ?x)) (at ?y))))
";

/// The same domain, where the place must not be taken.
const ONCE: &str = "(define (domain hop)
 (:predicates (at ?x) (link ?x ?y))
 (:action hop :parameters (?x ?y)
  :precondition (and (at ?x) (link ?x ?y) (not (at ?y)))
  :effect (and (not (at ?x)) (at ?y))))
";

/// Three places in a row, with the goal at the end.
pub const ROW: &str = "(define (problem h) (:domain hop) (:objects a b c)
 (:init (at a) (link a b) (link b c)) (:goal (at c)))
";

/// A task whose goal holds at once, with a place that is linked to itself.
const SELF: &str = "(define (problem h) (:domain hop) (:objects a)
 (:init (at a) (link a a)) (:goal (at a)))
";

/// Nullary predicates, an action without parameters, an empty condition and an empty effect, in upper case.
const SWITCHES: &str = "(DEFINE (DOMAIN Switches)
 (:PREDICATES (On) (Ready))
 (:ACTION Push :PARAMETERS () :PRECONDITION (AND (Ready)) :EFFECT (AND (On)))
 (:action wait :parameters () :precondition (and) :effect (and)))
";

/// The switch is ready; the atom is listed twice.
const READY: &str = "(define (problem s) (:domain switches) (:objects)
 (:init (READY) (ready)) (:goal (and (on))))
";

/// A run and what it has to answer: the words, the files of the shelf by name, the numbers of the calls that
/// fail, how many bytes a call gives or takes, and then the status and the two texts.
#[derive(Drop)]
pub struct Case<'a> {
    pub words: &'a [&'a str],
    pub files: &'a [(&'a str, &'a str)],
    pub failing_reads: &'a [u64],
    pub failing_writes: &'a [u64],
    pub failing_lines: &'a [u64],
    pub piece: usize,
    pub status: u8,
    pub out: &'a str,
    pub err: &'a str,
}

/// The bytes of a text.
fn bytes_of(alloc: Global, text: &str) -> Result<Vec<u8>, AllocError> {
    text.as_bytes().to_vec(alloc)
}

/// The words, each stored.
pub fn words_of(alloc: Global, texts: &[&str]) -> Result<Words, AllocError> {
    let mut words = Words::new(alloc);
    for text in texts {
        words.push(text)?;
    }
    Ok(words)
}

/// The files of a table, with their bytes.
pub fn files_of(alloc: Global, texts: &[(&str, &str)]) -> Result<Vec<NamedFile>, AllocError> {
    let mut files = Vec::new(alloc);
    for (name, text) in texts {
        files.push(NamedFile {
            name: bytes_of(alloc, name)?,
            bytes: bytes_of(alloc, text)?,
        })?;
    }
    Ok(files)
}

/// Whether a run answers as its case says.
pub fn is_met<L: Ledger>(alloc: Global, case: &Case<'_>, blank: Blank) -> Result<bool, AllocError>
    requires name { blank.name ≡ L.name }
    requires parts { blank.parts ≡ L.parts }
    requires some { 0 < blank.parts }
    requires piece { 1 ≤ case.now.piece }
{
    let files = files_of(alloc, case.files)?;
    is_met_over::<L>(alloc, case, files, blank)
}

/// The same over these files.
fn is_met_over<L: Ledger>(
    alloc: Global,
    case: &Case<'_>,
    files: Vec<NamedFile>,
    blank: Blank,
) -> Result<bool, AllocError>
    requires name { blank.name ≡ L.name }
    requires parts { blank.parts ≡ L.parts }
    requires some { 0 < blank.parts }
    requires piece { 1 ≤ case.now.piece }
{
    let words = words_of(alloc, case.words)?;
    let mut shelf = MemShelf::new(files, case.failing_reads.to_vec(alloc)?, case.piece);
    let mut out = MemSink::new(alloc, 1000, case.failing_writes.to_vec(alloc)?, case.piece)?;
    let mut err = MemSink::new(alloc, 1000, case.failing_lines.to_vec(alloc)?, case.piece)?;
    let mut steps = Steps::<L>::new(blank);
    let status = run(alloc, &words, &mut shelf, &mut out, &mut err, &mut steps);
    Ok(
        status == case.status
            && out.written() == case.out.as_bytes()
            && err.written() == case.err.as_bytes(),
    )
}

/// A plan on a domain and a problem, with the status and the text for it.
type Judged = (&'static str, &'static str, &'static str, u8, &'static str);

const JUDGED: &[Judged] = &[
    (
        HOP,
        ROW,
        "(hop a b)\n(hop b c)\n; length 2\n",
        0,
        "valid 2\n",
    ),
    (HOP, ROW, "(hop b c)\n", 1, "invalid 1 inapplicable\n"),
    (HOP, ROW, "(hop a)\n", 1, "invalid 1 arguments\n"),
    (HOP, ROW, "(fly a b)\n", 1, "invalid 1 unknown-action\n"),
    (HOP, ROW, "(hop a z)\n", 1, "invalid 1 unknown-object\n"),
    (HOP, ROW, "", 1, "goal missed\n"),
    (HOP, ROW, "(hop a b)", 1, "goal missed\n"),
    (
        HOP,
        ROW,
        "; (hop b c)\n\t(HOP\u{b}A  b)(hop\r\nb C) ; (",
        0,
        "valid 2\n",
    ),
    // The first test that a line fails decides.
    (HOP, ROW, "(fly z)", 1, "invalid 1 unknown-action\n"),
    (HOP, ROW, "(hop a b z)", 1, "invalid 1 arguments\n"),
    (HOP, ROW, "(hop c z)", 1, "invalid 1 unknown-object\n"),
    (
        HOP,
        ROW,
        "(hop a b)(hop b c)(hop b c)(fly)",
        1,
        "invalid 3 inapplicable\n",
    ),
    (
        HOP,
        ROW,
        "(hop a b)(fly)(hop b c)",
        1,
        "invalid 2 unknown-action\n",
    ),
    // An atom that a step deletes and adds is true afterwards.
    (HOP, SELF, "(hop a a)", 0, "valid 1\n"),
    (HOP, SELF, "", 0, "valid 0\n"),
    (SWITCHES, READY, "(push)", 0, "valid 1\n"),
    (SWITCHES, READY, "(wait)(WAIT)(push)", 0, "valid 3\n"),
    (SWITCHES, READY, "(wait)", 1, "goal missed\n"),
    (SWITCHES, READY, "(push a)", 1, "invalid 1 arguments\n"),
    // No step leads to a place where one is already.
    (ONCE, SELF, "(hop a a)", 1, "invalid 1 inapplicable\n"),
    (ONCE, ROW, ALONG, 0, "valid 2\n"),
];

/// Files of which one is faulty, with the line for the fault.
pub type Faulty = (&'static str, &'static str, &'static str, &'static str);

/// A condition over a predicate that isn't declared, before an effect over a variable that is no parameter.
const TWO_FAULTS: &str = "(define (domain d)
(:predicates (p ?x))
(:action a :parameters (?x)
 :precondition (q ?x)
 :effect (p ?y)))
";

pub const FAULTY: &[Faulty] = &[
    ("", ROW, "", "powerlift: domain:1:1: not one form\n"),
    ("(", ROW, "", "powerlift: domain:1:1: unclosed bracket\n"),
    (
        TWO_FAULTS,
        ROW,
        "",
        "powerlift: domain:4:16: unknown predicate\n",
    ),
    // A text fault of the problem comes before any other fault of the domain.
    (
        TWO_FAULTS,
        "\n )",
        "",
        "powerlift: problem:2:2: stray bracket\n",
    ),
    (
        HOP,
        "(define (problem h) (:domain hop)\n (:objects a - t))",
        "",
        "powerlift: problem:2:16: unknown type\n",
    ),
    (HOP, ROW, "hop a b", "powerlift: plan:1:1: bad form\n"),
    (
        HOP,
        ROW,
        "(hop a b)\n  ()",
        "powerlift: plan:2:3: bad form\n",
    ),
    (
        HOP,
        ROW,
        "(hop a b",
        "powerlift: plan:1:1: unclosed bracket\n",
    ),
    (HOP, ROW, "(hop a b)\té", "powerlift: plan:1:11: bad byte\n"),
    // The plan is looked at last.
    ("(", "(", "(", "powerlift: domain:1:1: unclosed bracket\n"),
    (HOP, "", "(", "powerlift: problem:1:1: not one form\n"),
];

/// The files of the usual words.
pub fn three<'a>(domain: &'a str, problem: &'a str, plan: &'a str) -> [(&'static str, &'a str); 3] {
    [("d", domain), ("p", problem), ("l", plan)]
}

#[test]
fn plans_are_judged(rt: HostRuntime) -> Result<(), Fail> {
    for (i, (domain, problem, plan, status, out)) in JUDGED.iter().enumerate() {
        let case = Case {
            words: VALIDATE,
            files: &three(domain, problem, plan),
            failing_reads: &[],
            failing_writes: &[],
            failing_lines: &[],
            piece: 7,
            status: *status,
            out,
            err: "",
        };
        let met = is_met::<Brand>(rt.alloc(), &case, Blank::new(1))?;
        assert!(rt; met, "case {i}");
    }
    Ok(())
}

#[test]
fn faults_are_shown(rt: HostRuntime) -> Result<(), Fail> {
    for (i, (domain, problem, plan, line)) in FAULTY.iter().enumerate() {
        let case = Case {
            words: VALIDATE,
            files: &three(domain, problem, plan),
            failing_reads: &[],
            failing_writes: &[],
            failing_lines: &[],
            piece: 7,
            status: 3,
            out: "",
            err: line,
        };
        let met = is_met::<Brand>(rt.alloc(), &case, Blank::new(1))?;
        assert!(rt; met, "case {i}");
    }
    Ok(())
}

/// Words that are no request.
const BAD_WORDS: &[&[&str]] = &[
    &[],
    &[""],
    &["validate"],
    &["validate", "d", "p"],
    &["validate", "d", "p", "l", "x"],
    &["validate", "--d", "p", "l"],
    &["validate", "d", "--", "l"],
    &["validate", "d", "p", "--l"],
    &["Validate", "d", "p", "l"],
    &["plan", "d"],
    &["plan", "--d", "p"],
    &["plan", "d", "--p"],
    &["plan", "d", "p", "l"],
    &["plan", "d", "p", "--limit", "0"],
    &["plan", "d", "p", "--limit", "01"],
    &["plan", "d", "p", "--limit", "4294967295"],
    &["plan", "d", "p", "--limit", "--stats"],
    &["plan", "d", "p", "--limit"],
    &["plan", "d", "p", "--limit", "5", "--limit", "5"],
    &["plan", "d", "p", "--search"],
    &["plan", "d", "p", "--search", "BFS"],
    &["plan", "d", "p", "--search", "gbfs1"],
    &["plan", "d", "p", "--search", "iw3"],
    &["plan", "d", "p", "--search", "iw"],
    &["plan", "d", "p", "--search", "bfs", "--search", "bfs"],
    &["plan", "d", "p", "--stats", "--stats"],
    &["plan", "d", "p", "--stats", "1"],
    &["plan", "d", "p", "--count", "1"],
    &["successors", "d"],
    &["make"],
    &["make", "hop", "1"],
    &["make", "hop", "1", "0", "0"],
    &["make", "Hop", "1", "0"],
    &["make", "--hop", "1", "0"],
    &["make", "hop", "0", "0"],
    &["make", "hop", "1001", "0"],
    &["make", "wide", "0", "0"],
    &["make", "wide", "101", "0"],
    &["make", "hop", "01", "0"],
    &["make", "hop", "1", "00"],
    &["make", "hop", "1", "-1"],
    &["make", "hop", "1", ""],
    &["make", "hop", "1", "18446744073709551616"],
    &["make", "hop", "1", "0", "--stats"],
    &["--help"],
    &["--version"],
];

#[test]
fn other_words_are_no_request(rt: HostRuntime) -> Result<(), Fail> {
    for (i, words) in BAD_WORDS.iter().enumerate() {
        let case = Case {
            words,
            files: &three(HOP, ROW, ""),
            failing_reads: &[1],
            failing_writes: &[1],
            failing_lines: &[],
            piece: 1,
            status: 2,
            out: "",
            err: "powerlift: bad words\n",
        };
        let met = is_met::<Brand>(rt.alloc(), &case, Blank::new(1))?;
        assert!(rt; met, "case {i}");
    }
    Ok(())
}

/// The plan that leads along the row.
pub const ALONG: &str = "(hop a b) (hop b c)";

/// The shelf of most cases.
pub const SHELF: &[(&str, &str)] = &[("d", HOP), ("p", ROW), ("l", ALONG)];

/// A domain of one byte so often, and the problem and the plan of most cases.
fn long_domain(alloc: Global, byte: u8, length: usize) -> Result<Vec<NamedFile>, AllocError> {
    let mut files = files_of(alloc, &[("p", ROW), ("l", ALONG)])?;
    files.push(NamedFile {
        name: bytes_of(alloc, "d")?,
        bytes: vec![in alloc; byte; length]?,
    })?;
    Ok(files)
}

#[test]
fn long_domains_have_their_faults(rt: HostRuntime) -> Result<(), Fail> {
    let alloc = rt.alloc();
    for (byte, length, err) in [
        (b' ', 16777217, "powerlift: domain: too long\n"),
        (
            b' ',
            16777216,
            "powerlift: domain:1:16777217: not one form\n",
        ),
        (b'(', 201, "powerlift: domain:1:201: too deep\n"),
    ] {
        let case = Case {
            words: VALIDATE,
            files: &[],
            failing_reads: &[],
            failing_writes: &[],
            failing_lines: &[],
            piece: 1000000,
            status: 3,
            out: "",
            err,
        };
        let files = long_domain(alloc, byte, length)?;
        let met = is_met_over::<Brand>(alloc, &case, files, Blank::new(1))?;
        assert!(rt; met, "{length} bytes");
    }
    Ok(())
}

/// A domain with so many parameters of its action, and so many literals in its condition.
fn wide_domain(alloc: Global, parameters: usize, literals: usize) -> Result<String, AllocError> {
    let mut text = String::from_str(
        alloc,
        "(define (domain hop) (:predicates (at ?x)) (:action a :parameters (",
    )?;
    for i in 0..parameters {
        write!(text, " ?p{i}")?;
    }
    text.push_str(") :precondition (and")?;
    for _ in 0..literals {
        text.push_str(" (at ?p0)")?;
    }
    text.push_str(") :effect (and)))")?;
    Ok(text)
}

#[test]
fn limits_of_an_action(rt: HostRuntime) -> Result<(), Fail> {
    let alloc = rt.alloc();
    for (parameters, literals, status, out, err) in [
        (64, 1024, 1, "goal missed\n", ""),
        (65, 1024, 3, "", "powerlift: domain:1:67: too many\n"),
        (64, 1025, 3, "", "powerlift: domain:1:394: too many\n"),
    ] {
        let domain = wide_domain(alloc, parameters, literals)?;
        let case = Case {
            words: VALIDATE,
            files: &three(
                &domain,
                "(define (problem p) (:domain d) (:objects a) (:init) (:goal (at a)))",
                "",
            ),
            failing_reads: &[],
            failing_writes: &[],
            failing_lines: &[],
            piece: 100,
            status,
            out,
            err,
        };
        let met = is_met::<Brand>(alloc, &case, Blank::new(1))?;
        assert!(rt; met, "{parameters} parameters, {literals} literals");
    }
    Ok(())
}

/// How many objects, predicates, actions, initial atoms and lines of the plan there are of each.
const MANY: usize = 1100;

/// A domain in which action `i` leads from predicate `i` to the next one.
fn many_actions(alloc: Global) -> Result<String, AllocError> {
    let mut text = String::from_str(alloc, "(define (domain chain) (:predicates")?;
    for i in 0..MANY + 1 {
        write!(text, " (stage-{i} ?thing)")?;
    }
    text.push_str(")\n")?;
    for i in 0..MANY {
        let next = i + 1;
        write!(
            text,
            " (:action step-{i} :parameters (?thing) :precondition (and (stage-{i} ?thing)) :effect (and (not (stage-{i} ?thing)) (stage-{next} ?thing)))\n"
        )?;
    }
    text.push_str(")\n")?;
    Ok(text)
}

/// A problem in which each object is at the first predicate, and object 7 is to get to the last.
fn many_objects(alloc: Global) -> Result<String, AllocError> {
    let mut text = String::from_str(alloc, "(define (problem far) (:domain chain) (:objects")?;
    for i in 0..MANY {
        write!(text, " thing-of-a-rather-long-name-that-has-the-number-{i}")?;
    }
    text.push_str(")\n (:init")?;
    for i in 0..MANY {
        write!(
            text,
            " (stage-0 thing-of-a-rather-long-name-that-has-the-number-{i})"
        )?;
    }
    write!(
        text,
        ")\n (:goal (stage-{MANY} thing-of-a-rather-long-name-that-has-the-number-7)))\n"
    )?;
    Ok(text)
}

/// Its plan.
fn many_lines(alloc: Global) -> Result<String, AllocError> {
    let mut text = String::new(alloc);
    for i in 0..MANY {
        write!(
            text,
            "(step-{i} thing-of-a-rather-long-name-that-has-the-number-7) ; on the way to the end of a chain that is long\n"
        )?;
    }
    Ok(text)
}

#[test]
fn large_files_are_judged(rt: HostRuntime) -> Result<(), Fail> {
    let alloc = rt.alloc();
    let domain = many_actions(alloc)?;
    let problem = many_objects(alloc)?;
    let plan = many_lines(alloc)?;
    assert!(rt; domain.len() > 100_000 && problem.len() > 100_000 && plan.len() > 100_000);
    let case = Case {
        words: VALIDATE,
        files: &three(&domain, &problem, &plan),
        failing_reads: &[],
        failing_writes: &[],
        failing_lines: &[],
        piece: 5000,
        status: 0,
        out: "valid 1100\n",
        err: "",
    };
    assert!(rt; is_met::<Brand>(alloc, &case, Blank::new(1))?);
    Ok(())
}

/// Walks of two links.
const WALK: &str = "(define (domain paths)
 (:predicates (e ?x ?y) (done))
 (:action walk :parameters (?x ?y ?z) :precondition (and (e ?x ?y) (e ?y ?z)) :effect (done)))
";

/// Links to and from a middle object.
const LINKS: &str = "(define (problem q) (:domain paths) (:objects a b c)
 (:init (e a b) (e c b) (e b a) (e b c)) (:goal (and)))
";

/// Closed walks of three links.
const TRIANGLE: &str = "(define (domain paths)
 (:predicates (e ?x ?y) (done))
 (:action tri :parameters (?x ?y ?z) :precondition (and (e ?x ?y) (e ?y ?z) (e ?z ?x)) :effect (done)))
";

/// Three links in a circle.
const CIRCLE: &str = "(define (problem q) (:domain paths) (:objects a b c)
 (:init (e a b) (e b c) (e c a)) (:goal (and)))
";

/// An action without parameters.
const GO: &str = "(define (domain paths)
 (:predicates (e ?x ?y) (done) (ready))
 (:action go :parameters () :precondition (ready) :effect (done)))
";

/// It can be done.
const IS_READY: &str = "(define (problem q) (:domain paths) (:objects a b c)
 (:init (ready)) (:goal (and)))
";

/// It can not.
const NOT_READY: &str = "(define (problem q) (:domain paths) (:objects a b c)
 (:init ) (:goal (and)))
";

/// Pairs of which the second one is missing.
const PAIR: &str = "(define (domain paths)
 (:predicates (e ?x ?y) (done) (p ?x) (q ?x))
 (:action two :parameters (?x ?y) :precondition (and (p ?x) (q ?y)) :effect (done)))
";

/// The first ones alone.
const FIRSTS: &str = "(define (problem q) (:domain paths) (:objects a b c)
 (:init (p a) (p b)) (:goal (and)))
";

/// One object of two types.
const SAME: &str = "(define (domain kinds) (:types t u) (:predicates (done))
 (:action same :parameters (?x - t ?y - u) :precondition (= ?x ?y) :effect (done)))
";

/// An object of one of two types.
const ANY: &str = "(define (domain kinds) (:types t u) (:predicates (done))
 (:action any :parameters (?x - (either t u)) :effect (done)))
";

/// An object of each type, and one of both.
const KINDS: &str =
    "(define (problem k) (:domain kinds) (:objects a b - t b c - u) (:init) (:goal (and)))
";

/// A parameter that stands twice beside a constant.
const PICK: &str = "(define (domain picks) (:predicates (p ?x ?y ?z) (done)) (:constants a b c)
 (:action pick :parameters (?x) :precondition (and (p ?x ?x c) (not (= ?x c))) :effect (done)))
";

/// Three atoms of which one serves.
const PICKS: &str =
    "(define (problem k) (:domain picks) (:init (p a a c) (p a b c) (p c c c) (p b b a)) (:goal (and)))
";

/// Walks of two links that don't come back.
const WALK_ON: &str = "(define (domain paths)
 (:predicates (e ?x ?y) (done))
 (:action walk :parameters (?x ?y ?z) :precondition (and (e ?x ?y) (e ?y ?z) (not (= ?x ?z))) :effect (done)))
";

/// A domain, a problem and a plan, the options, and then the status and the two texts.
pub type Listed = (
    &'static str,
    &'static str,
    &'static str,
    &'static [&'static str],
    u8,
    &'static str,
    &'static str,
);

pub const LISTED: &[Listed] = &[
    (
        WALK,
        LINKS,
        "",
        &["successors", "d", "p"],
        0,
        "(walk b a b)\n(walk a b a)\n(walk c b a)\n(walk a b c)\n(walk c b c)\n(walk b c b)\n; end\n",
        "",
    ),
    (
        WALK,
        LINKS,
        "",
        &["successors", "d", "p", "--count", "6"],
        0,
        "(walk b a b)\n(walk a b a)\n(walk c b a)\n(walk a b c)\n(walk c b c)\n(walk b c b)\n; end\n",
        "",
    ),
    (
        WALK,
        LINKS,
        "",
        &["successors", "d", "p", "--count", "5"],
        0,
        "(walk b a b)\n(walk a b a)\n(walk c b a)\n(walk a b c)\n(walk c b c)\n; more\n",
        "",
    ),
    (
        WALK,
        LINKS,
        "",
        &["successors", "d", "p", "--count", "0"],
        0,
        "; more\n",
        "",
    ),
    (
        TRIANGLE,
        CIRCLE,
        "",
        &["successors", "d", "p"],
        0,
        "(tri a b c)\n(tri b c a)\n(tri c a b)\n; end\n",
        "",
    ),
    (
        GO,
        IS_READY,
        "",
        &["successors", "d", "p"],
        0,
        "(go)\n; end\n",
        "",
    ),
    (
        GO,
        NOT_READY,
        "",
        &["successors", "d", "p"],
        0,
        "; end\n",
        "",
    ),
    (
        GO,
        NOT_READY,
        "",
        &["successors", "d", "p", "--count", "0"],
        0,
        "; end\n",
        "",
    ),
    (
        PAIR,
        FIRSTS,
        "",
        &["successors", "d", "p"],
        0,
        "; end\n",
        "",
    ),
    (
        SAME,
        KINDS,
        "",
        &["successors", "d", "p"],
        0,
        "(same b b)\n; end\n",
        "",
    ),
    (
        SAME,
        KINDS,
        "",
        &["successors", "d", "p", "--past", "(same b a)"],
        0,
        "(same b b)\n; end\n",
        "",
    ),
    (
        SAME,
        KINDS,
        "",
        &["successors", "d", "p", "--past", "(same b c)"],
        0,
        "; end\n",
        "",
    ),
    (
        PICK,
        PICKS,
        "",
        &["successors", "d", "p"],
        0,
        "(pick a)\n; end\n",
        "",
    ),
    (
        WALK,
        LINKS,
        "",
        &[
            "successors",
            "d",
            "p",
            "--past",
            "(walk a b b)",
            "--count",
            "2",
        ],
        0,
        "(walk a b c)\n(walk c b c)\n; more\n",
        "",
    ),
    (
        WALK,
        LINKS,
        "",
        &["successors", "d", "p", "--past", "(walk c c c)"],
        0,
        "; end\n",
        "",
    ),
    (
        WALK_ON,
        LINKS,
        "",
        &["successors", "d", "p"],
        0,
        "(walk c b a)\n(walk a b c)\n; end\n",
        "",
    ),
    (
        HOP,
        ROW,
        "(hop a b) ; one step",
        &["successors", "d", "p", "--after", "l"],
        0,
        "(hop b c)\n; end\n",
        "",
    ),
    (
        HOP,
        ROW,
        "(hop b c)",
        &["successors", "d", "p", "--after", "l"],
        1,
        "invalid 1 inapplicable\n",
        "",
    ),
    (
        HOP,
        ROW,
        "",
        &["successors", "d", "p", "--after", "l"],
        0,
        "(hop a b)\n; end\n",
        "",
    ),
    (
        HOP,
        ROW,
        "(hop b c)",
        &[
            "successors",
            "d",
            "p",
            "--count",
            "9",
            "--past",
            "(hop)",
            "--after",
            "l",
        ],
        2,
        "",
        "powerlift: not a step\n",
    ),
    (
        HOP,
        ROW,
        "hop b c",
        &["successors", "d", "p", "--past", "(hop)", "--after", "l"],
        3,
        "",
        "powerlift: plan:1:1: bad form\n",
    ),
    (
        WALK,
        LINKS,
        "",
        &["successors", "d", "p", "--past", "(walk a b)"],
        2,
        "",
        "powerlift: not a step\n",
    ),
    (
        WALK,
        LINKS,
        "",
        &["successors", "d", "p", "--past", ""],
        2,
        "",
        "powerlift: not a step\n",
    ),
    (
        ANY,
        KINDS,
        "",
        &["successors", "d", "p"],
        0,
        "(any a)\n(any b)\n(any c)\n; end\n",
        "",
    ),
    (
        HOP,
        ROW,
        "",
        &["successors", "d", "p", "--count", "4294967296"],
        2,
        "",
        "powerlift: bad words\n",
    ),
    (
        HOP,
        ROW,
        "",
        &["successors", "d", "p", "--count", "01"],
        2,
        "",
        "powerlift: bad words\n",
    ),
    (
        HOP,
        ROW,
        "",
        &["successors", "d", "p", "--count", "+1"],
        2,
        "",
        "powerlift: bad words\n",
    ),
    (
        HOP,
        ROW,
        "",
        &["successors", "d", "p", "--count", ""],
        2,
        "",
        "powerlift: bad words\n",
    ),
    (
        HOP,
        ROW,
        "",
        &["successors", "d", "p", "--count", "1", "--count", "1"],
        2,
        "",
        "powerlift: bad words\n",
    ),
    (
        HOP,
        ROW,
        "",
        &["successors", "d", "p", "--past", "--count", "3"],
        2,
        "",
        "powerlift: bad words\n",
    ),
    (
        HOP,
        ROW,
        "",
        &["successors", "d", "p", "--after", "--l"],
        2,
        "",
        "powerlift: bad words\n",
    ),
    (
        HOP,
        ROW,
        "",
        &["successors", "d", "p", "--after"],
        2,
        "",
        "powerlift: bad words\n",
    ),
    (
        HOP,
        ROW,
        "",
        &["successors", "d", "p", "--stats"],
        2,
        "",
        "powerlift: bad words\n",
    ),
    (
        HOP,
        ROW,
        "",
        &["successors", "d", "p", "--past", "--count"],
        2,
        "",
        "powerlift: not a step\n",
    ),
    (
        HOP,
        ROW,
        "",
        &["successors", "d", "p", "--count", "4294967295"],
        0,
        "(hop a b)\n; end\n",
        "",
    ),
];

#[test]
fn steps_are_listed(rt: HostRuntime) -> Result<(), Fail> {
    for (i, (domain, problem, plan, words, status, out, err)) in LISTED.iter().enumerate() {
        let case = Case {
            words,
            files: &three(domain, problem, plan),
            failing_reads: &[],
            failing_writes: &[],
            failing_lines: &[],
            piece: 7,
            status: *status,
            out,
            err,
        };
        let met = is_met::<Brand>(rt.alloc(), &case, Blank::new(1))?;
        assert!(rt; met, "case {i}");
    }
    Ok(())
}

/// The row without its second link.
const APART: &str = "(define (problem h) (:domain hop) (:objects a b c)
 (:init (at a) (link a b)) (:goal (at c)))
";

/// The row, where the goal holds at once.
const HOME: &str = "(define (problem h) (:domain hop) (:objects a b c)
 (:init (at a) (link a b) (link b c)) (:goal (at a)))
";

/// The row, with a goal that no action can meet.
const UNLINKED: &str = "(define (problem h) (:domain hop) (:objects a b c)
 (:init (at a) (link a b) (link b c)) (:goal (link a c)))
";

/// The same domain, for links that don't lead back.
const ONE_WAY: &str = "(define (domain hop)
 (:predicates (at ?x) (link ?x ?y))
 (:action hop :parameters (?x ?y)
  :precondition (and (at ?x) (link ?x ?y) (not (link ?y ?x)))
  :effect (and (not (at ?x)) (at ?y))))
";

/// Three atoms, each made by an action without a condition.
const MAKERS: &str = "(define (domain makers) (:predicates (p) (q) (r))
 (:action mk-p :parameters () :effect (p))
 (:action mk-q :parameters () :effect (q))
 (:action mk-r :parameters () :effect (r)))
";

/// All three are wanted.
const MADE: &str = "(define (problem m) (:domain makers) (:init) (:goal (and (p) (q) (r))))
";

/// The plan that leads along the row, as it is printed.
pub const ALONG_PRINTED: &str = "(hop a b)\n(hop b c)\n; length 2\n";

/// A domain, a problem and the options of `plan`, and then the status and the text.
pub type Planned = (
    &'static str,
    &'static str,
    &'static [&'static str],
    u8,
    &'static str,
);

pub const PLANNED: &[Planned] = &[
    (HOP, ROW, &["plan", "d", "p"], 0, ALONG_PRINTED),
    (
        HOP,
        ROW,
        &["plan", "d", "p", "--search", "bfs"],
        0,
        ALONG_PRINTED,
    ),
    (
        HOP,
        ROW,
        &["plan", "d", "p", "--stats"],
        0,
        "(hop a b)\n(hop b c)\n; length 2\n; states 2\n; expanded 2\n; generated 2\n",
    ),
    (
        HOP,
        ROW,
        &["plan", "d", "p", "--limit", "2"],
        0,
        ALONG_PRINTED,
    ),
    (
        HOP,
        ROW,
        &["plan", "d", "p", "--limit", "4294967294"],
        0,
        ALONG_PRINTED,
    ),
    (
        HOP,
        ROW,
        &[
            "plan", "d", "p", "--stats", "--limit", "1", "--search", "bfs",
        ],
        6,
        "limit 1\n; states 1\n; expanded 1\n; generated 1\n",
    ),
    (
        HOP,
        HOME,
        &["plan", "d", "p", "--stats"],
        0,
        "; length 0\n; states 1\n; expanded 0\n; generated 0\n",
    ),
    (HOP, APART, &["plan", "d", "p"], 1, "unsolvable\n"),
    (
        HOP,
        APART,
        &["plan", "d", "p", "--limit", "2"],
        1,
        "unsolvable\n",
    ),
    (
        HOP,
        APART,
        &["plan", "d", "p", "--limit", "2", "--stats"],
        1,
        "unsolvable\n; states 2\n; expanded 2\n; generated 1\n",
    ),
    (
        HOP,
        APART,
        &["plan", "d", "p", "--limit", "1"],
        6,
        "limit 1\n",
    ),
    // Breadth-first and greedy search see that no effect gives a link; a search by width looks for one.
    (
        HOP,
        UNLINKED,
        &["plan", "d", "p", "--limit", "1"],
        1,
        "unsolvable\n",
    ),
    (
        HOP,
        UNLINKED,
        &["plan", "d", "p", "--stats", "--search", "gbfs"],
        1,
        "unsolvable\n; states 1\n; expanded 0\n; generated 0\n",
    ),
    (
        HOP,
        UNLINKED,
        &["plan", "d", "p", "--limit", "1", "--search", "iw1"],
        6,
        "limit 1\n",
    ),
    (ONE_WAY, ROW, &["plan", "d", "p"], 0, ALONG_PRINTED),
    (
        MAKERS,
        MADE,
        &["plan", "d", "p", "--search", "bfs", "--stats"],
        0,
        "(mk-p)\n(mk-q)\n(mk-r)\n; length 3\n; states 7\n; expanded 5\n; generated 15\n",
    ),
    (
        SWITCHES,
        READY,
        &["plan", "d", "p"],
        0,
        "(push)\n; length 1\n",
    ),
    (
        HOP,
        ROW,
        &["plan", "d", "p", "--search", "gbfs", "--stats"],
        0,
        "(hop a b)\n(hop b c)\n; length 2\n; states 2\n; expanded 2\n; generated 2\n",
    ),
    (
        MAKERS,
        MADE,
        &["plan", "d", "p", "--search", "gbfs", "--stats"],
        0,
        "(mk-p)\n(mk-q)\n(mk-r)\n; length 3\n; states 6\n; expanded 3\n; generated 9\n",
    ),
    (
        MAKERS,
        MADE,
        &[
            "plan", "d", "p", "--stats", "--search", "gbfs", "--limit", "5",
        ],
        6,
        "limit 5\n; states 5\n; expanded 2\n; generated 6\n",
    ),
    (
        HOP,
        APART,
        &["plan", "d", "p", "--search", "gbfs"],
        1,
        "unsolvable\n",
    ),
    (
        HOP,
        ROW,
        &["plan", "d", "p", "--search", "iw1"],
        0,
        ALONG_PRINTED,
    ),
    (
        HOP,
        APART,
        &["plan", "d", "p", "--search", "iw1"],
        1,
        "unsolvable\n",
    ),
    (
        MAKERS,
        MADE,
        &["plan", "d", "p", "--search", "iw1", "--stats"],
        7,
        "exhausted\n; states 4\n; expanded 4\n; generated 12\n",
    ),
    (
        MAKERS,
        MADE,
        &["plan", "d", "p", "--search", "iw1", "--limit", "2"],
        6,
        "limit 2\n",
    ),
    (
        MAKERS,
        MADE,
        &["plan", "d", "p", "--search", "iw2", "--stats"],
        0,
        "(mk-p)\n(mk-q)\n(mk-r)\n; length 3\n; states 7\n; expanded 5\n; generated 15\n",
    ),
];

#[test]
fn plans_are_found(rt: HostRuntime) -> Result<(), Fail> {
    for (i, (domain, problem, words, status, out)) in PLANNED.iter().enumerate() {
        let case = Case {
            words,
            files: &three(domain, problem, ""),
            failing_reads: &[],
            failing_writes: &[],
            failing_lines: &[],
            piece: 7,
            status: *status,
            out,
            err: "",
        };
        let met = is_met::<Brand>(rt.alloc(), &case, Blank::new(1))?;
        assert!(rt; met, "case {i}");
    }
    Ok(())
}

/// The words of `make`, and the text for them.
type Summary = (&'static [&'static str], &'static str);

const SUMMARIES: &[Summary] = &[
    (
        &["make", "hop", "1", "0"],
        "objects 1\natoms 2\nlength 0\nstates 1\nexpanded 0\ngenerated 0\nvalid 0\n",
    ),
    // The link that is drawn is the one to the next place, and counts once.
    (
        &["make", "hop", "2", "0"],
        "objects 2\natoms 3\nlength 1\nstates 1\nexpanded 1\ngenerated 1\nvalid 1\n",
    ),
    (
        &["make", "wide", "1", "0"],
        "objects 16\natoms 14\nlength 1\nstates 1\nexpanded 1\ngenerated 1\nvalid 1\n",
    ),
    // What is drawn from decides nothing of the wide join.
    (
        &["make", "wide", "1", "18446744073709551615"],
        "objects 16\natoms 14\nlength 1\nstates 1\nexpanded 1\ngenerated 1\nvalid 1\n",
    ),
    (
        &["make", "wide", "24", "0"],
        "objects 200\natoms 4039\nlength 1\nstates 1\nexpanded 1\ngenerated 1\nvalid 1\n",
    ),
];

#[test]
fn made_tasks_are_solved(rt: HostRuntime) -> Result<(), Fail> {
    for (i, (words, out)) in SUMMARIES.iter().enumerate() {
        // Each call of the shelf would fail.
        let case = Case {
            words,
            files: &[],
            failing_reads: &[1],
            failing_writes: &[],
            failing_lines: &[],
            piece: 7,
            status: 0,
            out,
            err: "",
        };
        let met = is_met::<Brand>(rt.alloc(), &case, Blank::new(1))?;
        assert!(rt; met, "case {i}");
    }
    Ok(())
}

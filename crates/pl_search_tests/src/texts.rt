//! The texts, byte by byte.

use pl_check::{FaultKind, FileRole};
use pl_io::MemSink;
use pl_print::{Fault, put_fault, put_stats, put_verdict};
use pl_registry::Stats;
use pl_valid::{Reason, Verdict};
use std::alloc::{AllocError, Global};
use std::test::Fail;

/// A sink that takes four bytes a call.
fn sink(alloc: Global) -> Result<MemSink, AllocError> {
    MemSink::new(alloc, 100, Vec::new(alloc), 4)
}

#[test]
fn verdicts_have_their_texts(rt: HostRuntime) -> Result<(), Fail> {
    let cases: [(Verdict, &str); 6] = [
        (Verdict::Valid(0), "valid 0\n"),
        (Verdict::Valid(16777216), "valid 16777216\n"),
        (
            Verdict::Invalid {
                line: 1,
                reason: Reason::UnknownAction,
            },
            "invalid 1 unknown-action\n",
        ),
        (
            Verdict::Invalid {
                line: 20,
                reason: Reason::UnknownObject,
            },
            "invalid 20 unknown-object\n",
        ),
        (
            Verdict::Invalid {
                line: 3,
                reason: Reason::Inapplicable,
            },
            "invalid 3 inapplicable\n",
        ),
        (Verdict::GoalMissed, "goal missed\n"),
    ];
    for (verdict, text) in cases {
        let mut sink = sink(rt.alloc())?;
        assert!(rt; put_verdict(&mut sink, &verdict).is_ok(), "{text}");
        assert!(rt; sink.written() == text.as_bytes(), "{text}");
    }
    Ok(())
}

/// A fault of the domain at line 12 and column 7.
fn input(kind: FaultKind) -> Fault {
    Fault::Input {
        file: FileRole::Domain,
        line: 12,
        column: 7,
        kind,
    }
}

#[test]
fn faults_have_their_lines(rt: HostRuntime) -> Result<(), Fail> {
    let cases: [(Fault, &str); 20] = [
        (Fault::Words, "powerlift: bad words\n"),
        (Fault::NotAStep, "powerlift: not a step\n"),
        (
            Fault::TooLong(FileRole::Plan),
            "powerlift: plan: too long\n",
        ),
        (
            Fault::Read(FileRole::Problem),
            "powerlift: cannot read problem\n",
        ),
        (Fault::Write, "powerlift: cannot write\n"),
        (Fault::Memory, "powerlift: out of memory\n"),
        (
            Fault::Input {
                file: FileRole::Problem,
                line: 1,
                column: 1,
                kind: FaultKind::Unclosed,
            },
            "powerlift: problem:1:1: unclosed bracket\n",
        ),
        (
            input(FaultKind::BadByte),
            "powerlift: domain:12:7: bad byte\n",
        ),
        (
            input(FaultKind::StrayClose),
            "powerlift: domain:12:7: stray bracket\n",
        ),
        (
            input(FaultKind::TooDeep),
            "powerlift: domain:12:7: too deep\n",
        ),
        (
            input(FaultKind::Unclosed),
            "powerlift: domain:12:7: unclosed bracket\n",
        ),
        (
            input(FaultKind::NotOneForm),
            "powerlift: domain:12:7: not one form\n",
        ),
        (
            input(FaultKind::BadForm),
            "powerlift: domain:12:7: bad form\n",
        ),
        (
            input(FaultKind::Unsupported),
            "powerlift: domain:12:7: unsupported\n",
        ),
        (
            input(FaultKind::Duplicate),
            "powerlift: domain:12:7: duplicate\n",
        ),
        (
            input(FaultKind::UnknownType),
            "powerlift: domain:12:7: unknown type\n",
        ),
        (
            input(FaultKind::UnknownPredicate),
            "powerlift: domain:12:7: unknown predicate\n",
        ),
        (
            input(FaultKind::UnknownName),
            "powerlift: domain:12:7: unknown name\n",
        ),
        (
            input(FaultKind::WrongArity),
            "powerlift: domain:12:7: wrong arity\n",
        ),
        (
            input(FaultKind::TooMany),
            "powerlift: domain:12:7: too many\n",
        ),
    ];
    for (fault, line) in cases {
        let mut sink = sink(rt.alloc())?;
        assert!(rt; put_fault(&mut sink, &fault).is_ok(), "{line}");
        assert!(rt; sink.written() == line.as_bytes(), "{line}");
    }
    Ok(())
}

#[test]
fn counts_have_their_lines(rt: HostRuntime) -> Result<(), Fail> {
    let cases: [(Stats, &str); 2] = [
        (
            Stats {
                states: 1,
                expanded: 0,
                generated: 0,
            },
            "; states 1\n; expanded 0\n; generated 0\n",
        ),
        (
            Stats {
                states: 4294967294,
                expanded: 120,
                generated: 18446744073709551615,
            },
            "; states 4294967294\n; expanded 120\n; generated 18446744073709551615\n",
        ),
    ];
    for (stats, text) in cases {
        let mut sink = sink(rt.alloc())?;
        assert!(rt; put_stats(&mut sink, &stats).is_ok(), "{text}");
        assert!(rt; sink.written() == text.as_bytes(), "{text}");
    }
    Ok(())
}

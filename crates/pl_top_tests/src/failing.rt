//! Runs over shelves and streams that fail at calls that are told, or are short of a file.

ghost use Rattle.std.specs.Prelude.{◌≡◌, ◌<◌};

use crate::runs::{
    ALONG, ALONG_PRINTED, Case, FAULTY, HOP, LISTED, PLANNED, ROW, SHELF, VALIDATE, files_of,
    is_met, three, words_of,
};
use pl_io::{Failed, MemShelf, MemSink, Sink, SureSink};
use pl_steps::Steps;
use pl_top::run;
use std::alloc::{AllocError, Global};
use std::marker::Brand;
use std::sync::ledger::{Blank, Ledger};
use std::test::Fail;

/// A shelf or a stream that fails or is short of a file. With 4,096 bytes a call each file takes three
/// calls of the shelf: it is begun, its bytes are given, and then none.
const OUTSIDE: &[Case<'static>] = &[
    Case {
        words: VALIDATE,
        files: SHELF,
        failing_reads: &[],
        failing_writes: &[],
        failing_lines: &[],
        piece: 1,
        status: 0,
        out: "valid 2\n",
        err: "",
    },
    Case {
        words: VALIDATE,
        files: SHELF,
        failing_reads: &[],
        failing_writes: &[],
        failing_lines: &[],
        piece: 7,
        status: 0,
        out: "valid 2\n",
        err: "",
    },
    // The first file of a name counts, and a name may be that of several files of the request.
    Case {
        words: VALIDATE,
        files: &[("d", HOP), ("d", ""), ("p", ROW), ("l", ALONG)],
        failing_reads: &[],
        failing_writes: &[],
        failing_lines: &[],
        piece: 7,
        status: 0,
        out: "valid 2\n",
        err: "",
    },
    Case {
        words: &["validate", "d", "d", "d"],
        files: SHELF,
        failing_reads: &[],
        failing_writes: &[],
        failing_lines: &[],
        piece: 7,
        status: 3,
        out: "",
        err: "powerlift: problem:1:9: bad form\n",
    },
    Case {
        words: VALIDATE,
        files: &[("d", HOP), ("l", ALONG)],
        failing_reads: &[],
        failing_writes: &[],
        failing_lines: &[],
        piece: 7,
        status: 4,
        out: "",
        err: "powerlift: cannot read problem\n",
    },
    Case {
        words: VALIDATE,
        files: &[],
        failing_reads: &[],
        failing_writes: &[],
        failing_lines: &[],
        piece: 7,
        status: 4,
        out: "",
        err: "powerlift: cannot read domain\n",
    },
    // A missing file comes before a fault.
    Case {
        words: VALIDATE,
        files: &[("d", "("), ("p", "(")],
        failing_reads: &[],
        failing_writes: &[],
        failing_lines: &[],
        piece: 7,
        status: 4,
        out: "",
        err: "powerlift: cannot read plan\n",
    },
    Case {
        words: &["validate", "", "p", "l"],
        files: SHELF,
        failing_reads: &[],
        failing_writes: &[],
        failing_lines: &[],
        piece: 7,
        status: 4,
        out: "",
        err: "powerlift: cannot read domain\n",
    },
    Case {
        words: VALIDATE,
        files: SHELF,
        failing_reads: &[1],
        failing_writes: &[],
        failing_lines: &[],
        piece: 4096,
        status: 4,
        out: "",
        err: "powerlift: cannot read domain\n",
    },
    Case {
        words: VALIDATE,
        files: SHELF,
        failing_reads: &[3],
        failing_writes: &[],
        failing_lines: &[],
        piece: 4096,
        status: 4,
        out: "",
        err: "powerlift: cannot read domain\n",
    },
    Case {
        words: VALIDATE,
        files: SHELF,
        failing_reads: &[4],
        failing_writes: &[],
        failing_lines: &[],
        piece: 4096,
        status: 4,
        out: "",
        err: "powerlift: cannot read problem\n",
    },
    Case {
        words: VALIDATE,
        files: SHELF,
        failing_reads: &[8],
        failing_writes: &[],
        failing_lines: &[],
        piece: 4096,
        status: 4,
        out: "",
        err: "powerlift: cannot read plan\n",
    },
    Case {
        words: VALIDATE,
        files: SHELF,
        failing_reads: &[10],
        failing_writes: &[],
        failing_lines: &[],
        piece: 4096,
        status: 0,
        out: "valid 2\n",
        err: "",
    },
    Case {
        words: VALIDATE,
        files: SHELF,
        failing_reads: &[],
        failing_writes: &[1],
        failing_lines: &[],
        piece: 4,
        status: 5,
        out: "",
        err: "powerlift: cannot write\n",
    },
    Case {
        words: VALIDATE,
        files: SHELF,
        failing_reads: &[],
        failing_writes: &[2],
        failing_lines: &[],
        piece: 4,
        status: 5,
        out: "vali",
        err: "powerlift: cannot write\n",
    },
    Case {
        words: VALIDATE,
        files: SHELF,
        failing_reads: &[],
        failing_writes: &[4],
        failing_lines: &[],
        piece: 4,
        status: 5,
        out: "valid 2",
        err: "powerlift: cannot write\n",
    },
    Case {
        words: &["plan", "d", "p"],
        files: &[("d", HOP)],
        failing_reads: &[],
        failing_writes: &[],
        failing_lines: &[],
        piece: 7,
        status: 4,
        out: "",
        err: "powerlift: cannot read problem\n",
    },
    Case {
        words: &["plan", "d", "p"],
        files: &[("d", "("), ("p", ROW)],
        failing_reads: &[],
        failing_writes: &[],
        failing_lines: &[],
        piece: 7,
        status: 3,
        out: "",
        err: "powerlift: domain:1:1: unclosed bracket\n",
    },
    Case {
        words: &["plan", "d", "p"],
        files: SHELF,
        failing_reads: &[4],
        failing_writes: &[],
        failing_lines: &[],
        piece: 4096,
        status: 4,
        out: "",
        err: "powerlift: cannot read problem\n",
    },
    Case {
        words: &["make", "hop", "1", "0"],
        files: &[],
        failing_reads: &[1],
        failing_writes: &[3],
        failing_lines: &[],
        piece: 4,
        status: 5,
        out: "objects ",
        err: "powerlift: cannot write\n",
    },
    // The plan file isn't read.
    Case {
        words: &["plan", "d", "p"],
        files: SHELF,
        failing_reads: &[7],
        failing_writes: &[],
        failing_lines: &[],
        piece: 4096,
        status: 0,
        out: "(hop a b)\n(hop b c)\n; length 2\n",
        err: "",
    },
    Case {
        words: &["plan", "d", "p"],
        files: SHELF,
        failing_reads: &[],
        failing_writes: &[1],
        failing_lines: &[],
        piece: 4096,
        status: 5,
        out: "",
        err: "powerlift: cannot write\n",
    },
    Case {
        words: &["plan", "d", "p", "--stats"],
        files: SHELF,
        failing_reads: &[],
        failing_writes: &[3],
        failing_lines: &[],
        piece: 4096,
        status: 5,
        out: "(hop",
        err: "powerlift: cannot write\n",
    },
    Case {
        words: &["plan", "d", "p", "--limit", "1"],
        files: SHELF,
        failing_reads: &[],
        failing_writes: &[3],
        failing_lines: &[2],
        piece: 4,
        status: 5,
        out: "limit ",
        err: "powe",
    },
    // A failure of `err` changes no status.
    Case {
        words: VALIDATE,
        files: SHELF,
        failing_reads: &[1],
        failing_writes: &[],
        failing_lines: &[1],
        piece: 4,
        status: 4,
        out: "",
        err: "",
    },
    Case {
        words: VALIDATE,
        files: SHELF,
        failing_reads: &[],
        failing_writes: &[1],
        failing_lines: &[3],
        piece: 4,
        status: 5,
        out: "",
        err: "powerlif",
    },
    Case {
        words: &["validate"],
        files: SHELF,
        failing_reads: &[],
        failing_writes: &[],
        failing_lines: &[2],
        piece: 4,
        status: 2,
        out: "",
        err: "powe",
    },
];

#[test]
fn failures_have_their_answers(rt: HostRuntime) -> Result<(), Fail> {
    for (i, case) in OUTSIDE.iter().enumerate() {
        assert!(rt; case.piece >= 1);
        let met = is_met::<Brand>(rt.alloc(), case, Blank::new(1))?;
        assert!(rt; met, "case {i}");
    }
    Ok(())
}

/// So many calls are made of the shelf for a file that is given seven bytes a call: it is begun, its bytes
/// are given, and then none.
fn calls_for(text: &str) -> u64 {
    let whole = (text.len() / 7) as u64;
    if text.len() % 7 == 0 {
        whole + 2
    } else {
        whole + 3
    }
}

/// The line that blames the file whose reading has this call of the shelf, and none past the last file.
fn blamed(call: u64) -> Option<&'static str> {
    let domain = calls_for(HOP).min(100);
    let problem = calls_for(ROW).min(100);
    let plan = calls_for(ALONG).min(100);
    if call <= domain {
        Some("powerlift: cannot read domain\n")
    } else if call <= domain + problem {
        Some("powerlift: cannot read problem\n")
    } else if call <= domain + problem + plan {
        Some("powerlift: cannot read plan\n")
    } else {
        None
    }
}

#[test]
fn each_failing_call_blames_its_file(rt: HostRuntime) -> Result<(), Fail> {
    for call in 1..80 {
        let line = blamed(call);
        let case = Case {
            words: VALIDATE,
            files: SHELF,
            failing_reads: &[call],
            failing_writes: &[],
            failing_lines: &[],
            piece: 7,
            status: if line.is_some() { 4 } else { 0 },
            out: if line.is_some() { "" } else { "valid 2\n" },
            err: line.unwrap_or(""),
        };
        let met = is_met::<Brand>(rt.alloc(), &case, Blank::new(1))?;
        assert!(rt; met, "call {call}");
    }
    Ok(())
}

#[test]
fn a_failing_line_is_cut_off(rt: HostRuntime) -> Result<(), Fail> {
    // The line of 21 bytes takes six calls of four.
    for (call, written) in [
        (1, ""),
        (2, "powe"),
        (3, "powerlif"),
        (4, "powerlift: b"),
        (5, "powerlift: bad w"),
        (6, "powerlift: bad words"),
        (7, "powerlift: bad words\n"),
    ] {
        let case = Case {
            words: &["validate"],
            files: SHELF,
            failing_reads: &[],
            failing_writes: &[],
            failing_lines: &[call],
            piece: 4,
            status: 2,
            out: "",
            err: written,
        };
        let met = is_met::<Brand>(rt.alloc(), &case, Blank::new(1))?;
        assert!(rt; met, "call {call}");
    }
    Ok(())
}

/// A sink in memory that counts its calls. As it numbers them itself, one with an empty piece is none.
#[derive(Drop)]
struct Counted {
    sink: MemSink,
    calls: u64,
}

impl Counted {
    /// It takes four bytes a call, and fails at the call of this number. The first call has the number 1.
    fn new(alloc: Global, failing: u64) -> Result<Counted, AllocError> {
        let failing = vec![in alloc; failing; 1]?;
        Ok(Counted {
            sink: MemSink::new(alloc, 1000, failing, 4)?,
            calls: 0,
        })
    }
}

impl Sink for Counted {
    ghost use Rattle.pl_io.specs.MemSink.{seen_of};

    ghost seen = { λ counted. seen_of counted.sink };

    fn write(&mut self, piece: &[u8]) -> Result<usize, Failed> {
        if !piece.is_empty() {
            self.calls = self.calls.saturating_add(1);
        }
        self.sink.write(piece)
    }
}

/// A request over files that can be read, and what it comes to where no call fails.
#[derive(Drop)]
struct Asked<'a> {
    words: &'a [&'a str],
    files: &'a [(&'a str, &'a str)],
    status: u8,
    out: &'a [u8],
    err: &'a [u8],
}

/// What a run came to.
#[derive(Drop)]
struct Outcome {
    status: u8,
    out: Counted,
    err: Counted,
}

/// A run of the request, where the calls of `out` and of `err` with these numbers fail.
fn run_asked<L: Ledger>(
    alloc: Global,
    asked: &Asked<'_>,
    failing_write: u64,
    failing_line: u64,
    steps: &mut Steps<L>,
) -> Result<Outcome, AllocError> {
    let words = words_of(alloc, asked.words)?;
    let mut shelf = MemShelf::new(files_of(alloc, asked.files)?, Vec::new(alloc), 7);
    let mut out = Counted::new(alloc, failing_write)?;
    let mut err = Counted::new(alloc, failing_line)?;
    let status = run(alloc, &words, &mut shelf, &mut out, &mut err, steps);
    Ok(Outcome { status, out, err })
}

/// Whether the run came to what is said of it where no call fails.
fn is_whole(asked: &Asked<'_>, outcome: &Outcome) -> bool {
    outcome.status == asked.status
        && outcome.out.sink.written() == asked.out
        && outcome.err.sink.written() == asked.err
}

/// Whether a part of the text is missing at its end.
fn is_cut_off(text: &[u8], written: &[u8]) -> bool {
    written.len() < text.len() && text.starts_with(written)
}

/// The first call of `out` whose failure is answered otherwise than by status 5, a front of the text and
/// the line for it; 0 where the run comes to something else though no call fails.
fn write_otherwise_answered<L: Ledger>(
    alloc: Global,
    asked: &Asked<'_>,
    blank: Blank,
) -> Result<Option<u64>, AllocError>
    requires name { blank.name ≡ L.name }
    requires parts { blank.parts ≡ L.parts }
    requires some { 0 < blank.parts }
{
    let mut steps = Steps::<L>::new(blank);
    let whole = run_asked(alloc, asked, 0, 0, &mut steps)?;
    if !is_whole(asked, &whole) {
        return Ok(Some(0));
    }
    for call in 1..=whole.out.calls {
        let cut = run_asked(alloc, asked, call, 0, &mut steps)?;
        if !is_cut_write(asked, &cut) {
            return Ok(Some(call));
        }
    }
    Ok(None)
}

/// Whether the run ended as one does where `out` failed within the text.
fn is_cut_write(asked: &Asked<'_>, cut: &Outcome) -> bool {
    cut.status == 5
        && is_cut_off(asked.out, cut.out.sink.written())
        && cut.err.sink.written() == "powerlift: cannot write\n".as_bytes()
}

/// The first call of `err` whose failure is answered otherwise than by the status that the run has without
/// it and a front of the line; 0 where the run comes to something else though no call fails.
fn line_otherwise_answered<L: Ledger>(
    alloc: Global,
    asked: &Asked<'_>,
    blank: Blank,
) -> Result<Option<u64>, AllocError>
    requires name { blank.name ≡ L.name }
    requires parts { blank.parts ≡ L.parts }
    requires some { 0 < blank.parts }
{
    let mut steps = Steps::<L>::new(blank);
    let whole = run_asked(alloc, asked, 0, 0, &mut steps)?;
    if !is_whole(asked, &whole) {
        return Ok(Some(0));
    }
    for call in 1..=whole.err.calls {
        let cut = run_asked(alloc, asked, 0, call, &mut steps)?;
        if !is_cut_line(asked, &cut) {
            return Ok(Some(call));
        }
    }
    Ok(None)
}

/// Whether the run ended as one does where `err` failed within the line.
fn is_cut_line(asked: &Asked<'_>, cut: &Outcome) -> bool {
    cut.status == asked.status
        && cut.out.sink.written() == asked.out
        && is_cut_off(asked.err, cut.err.sink.written())
}

#[test]
fn each_failing_call_cuts_a_list_off(rt: HostRuntime) -> Result<(), Fail> {
    for (i, (domain, problem, plan, words, status, out, err)) in LISTED.iter().enumerate() {
        let asked = Asked {
            words,
            files: &three(domain, problem, plan),
            status: *status,
            out: out.as_bytes(),
            err: err.as_bytes(),
        };
        let call = write_otherwise_answered::<Brand>(rt.alloc(), &asked, Blank::new(1))?;
        assert_eq!(rt; call, None, "case {i}");
    }
    Ok(())
}

#[test]
fn each_failing_call_cuts_a_plan_off(rt: HostRuntime) -> Result<(), Fail> {
    for (i, (domain, problem, words, status, out)) in PLANNED.iter().enumerate() {
        let asked = Asked {
            words,
            files: &three(domain, problem, ""),
            status: *status,
            out: out.as_bytes(),
            err: b"",
        };
        let call = write_otherwise_answered::<Brand>(rt.alloc(), &asked, Blank::new(1))?;
        assert_eq!(rt; call, None, "case {i}");
    }
    Ok(())
}

#[test]
fn each_failing_call_cuts_a_fault_off(rt: HostRuntime) -> Result<(), Fail> {
    for (i, (domain, problem, plan, line)) in FAULTY.iter().enumerate() {
        let asked = Asked {
            words: VALIDATE,
            files: &three(domain, problem, plan),
            status: 3,
            out: b"",
            err: line.as_bytes(),
        };
        let call = line_otherwise_answered::<Brand>(rt.alloc(), &asked, Blank::new(1))?;
        assert_eq!(rt; call, None, "case {i}");
    }
    Ok(())
}

/// The status of a run over the shelf of most cases, where `err` takes everything.
fn status_over_a_sure_sink<L: Ledger>(
    alloc: Global,
    words: &[&str],
    out: &mut MemSink,
    blank: Blank,
) -> Result<u8, AllocError>
    requires name { blank.name ≡ L.name }
    requires parts { blank.parts ≡ L.parts }
    requires some { 0 < blank.parts }
{
    let words = words_of(alloc, words)?;
    let mut shelf = MemShelf::new(files_of(alloc, SHELF)?, Vec::new(alloc), 7);
    let mut err = SureSink::new();
    let mut steps = Steps::<L>::new(blank);
    Ok(run(alloc, &words, &mut shelf, out, &mut err, &mut steps))
}

#[test]
fn a_sink_that_takes_everything_will_do(rt: HostRuntime) -> Result<(), Fail> {
    let cases: [(&[&str], u8, &str); 3] = [
        (&["plan", "d", "p"], 0, ALONG_PRINTED),
        (&["plan", "d"], 2, ""),
        (&["plan", "d", "x"], 4, ""),
    ];
    for (i, (words, status, text)) in cases.iter().enumerate() {
        let mut out = MemSink::new(rt.alloc(), 1000, Vec::new(rt.alloc()), 7)?;
        let got = status_over_a_sure_sink::<Brand>(rt.alloc(), words, &mut out, Blank::new(1))?;
        assert_eq!(rt; got, *status, "case {i}");
        assert!(rt; out.written() == text.as_bytes(), "case {i}");
    }
    Ok(())
}

//! Worked files, whose forms and faults were read off the rules by hand.

use pl_text::{Form, Span, TextEnd, TextFault, folded_word, forms, line_column, same_word, word};
use std::alloc::{AllocError, Global};
use std::test::Fail;

/// What a file gives: the spans of its forms, a list's with those of its elements in brackets, or its fault.
#[derive(Clone, Copy)]
enum Given {
    Forms(&'static str),
    Fault(TextFault),
}

const CASES: &[(&[u8], Given)] = &[
    (b"", Given::Forms("")),
    (b"()", Given::Forms(" 0-2[]")),
    (b"(a(b))c", Given::Forms(" 0-6[ 1-2 2-5[ 3-4]] 6-7")),
    // Blanks are the bytes 9 to 13 and 32.
    (
        b"\x09a\x0ab\x0bc\x0cd\x0de f",
        Given::Forms(" 1-2 3-4 5-6 7-8 9-10 11-12"),
    ),
    // Words of one byte, and words at both ends of the range of their bytes.
    (b"? : - ?x :k", Given::Forms(" 0-1 2-3 4-5 6-8 9-11")),
    (b"!~ [{", Given::Forms(" 0-2 3-5")),
    // Every byte may stand in a comment, which a byte 13 does not end.
    (b";\x00\x80\xff\r()\na", Given::Forms(" 8-9")),
    (b"a;b\rc\nd", Given::Forms(" 0-1 6-7")),
    (b"ab;c\nd", Given::Forms(" 0-2 5-6")),
    (b"a;(", Given::Forms(" 0-1")),
    (b";", Given::Forms("")),
    // Each fault alone.
    (b"a\x80", Given::Fault(TextFault::BadByte { at: 1 })),
    (b"\x7f", Given::Fault(TextFault::BadByte { at: 0 })),
    (b" \x08", Given::Fault(TextFault::BadByte { at: 1 })),
    (b" \x0e", Given::Fault(TextFault::BadByte { at: 1 })),
    (b"a)", Given::Fault(TextFault::StrayClose { at: 1 })),
    (b"())(", Given::Fault(TextFault::StrayClose { at: 2 })),
    (b"(a", Given::Fault(TextFault::Unclosed { at: 0 })),
    (b"a (b (c) (d", Given::Fault(TextFault::Unclosed { at: 2 })),
    (b"(a)(b(", Given::Fault(TextFault::Unclosed { at: 3 })),
    (b";)\n(", Given::Fault(TextFault::Unclosed { at: 3 })),
    // Of two faults the one with the least place, and an unclosed bracket last.
    (b")\x80", Given::Fault(TextFault::StrayClose { at: 0 })),
    (b"\x80)", Given::Fault(TextFault::BadByte { at: 0 })),
    (b"(\x80", Given::Fault(TextFault::BadByte { at: 1 })),
];

/// The first bytes of a file, the open brackets and the close brackets after them, and its fault.
const DEEP: &[(&[u8], usize, usize, TextFault)] = &[
    (b"", 201, 201, TextFault::TooDeep { at: 200 }),
    (b"()", 201, 0, TextFault::TooDeep { at: 202 }),
    (b")", 201, 0, TextFault::StrayClose { at: 0 }),
    (b"a\x80", 201, 0, TextFault::BadByte { at: 1 }),
    (b"", 200, 199, TextFault::Unclosed { at: 0 }),
];

/// Writes the span of a form, and those of its elements.
fn draw(out: &mut String, form: &Form) -> Result<(), AllocError> {
    match form {
        Form::Word(span) => draw_span(out, span),
        Form::List(span, elements) => {
            draw_span(out, span)?;
            out.push_str("[")?;
            for element in elements {
                draw(out, element)?;
            }
            out.push_str("]")
        }
    }
}

fn draw_span(out: &mut String, span: &Span) -> Result<(), AllocError> {
    let alloc = *out.allocator();
    let text = format!(in alloc; " {}-{}", span.from, span.to)?;
    out.push_str(text.as_str())
}

/// Whether the file gives this.
fn gives(alloc: Global, bytes: &[u8], given: &Given) -> Result<bool, AllocError> {
    if bytes.len() > 1000 {
        return Ok(false);
    }
    match forms(alloc, bytes) {
        Ok(list) => {
            let mut out = String::new(alloc);
            for form in list.as_slice() {
                draw(&mut out, form)?;
            }
            match given {
                Given::Forms(text) => Ok(out.as_str() == *text),
                Given::Fault(_) => Ok(false),
            }
        }
        Err(TextEnd::Fault(fault)) => match given {
            Given::Forms(_) => Ok(false),
            Given::Fault(wanted) => Ok(fault == *wanted),
        },
        Err(TextEnd::Memory(failed)) => Err(failed),
    }
}

/// These bytes, then so many open brackets and so many close brackets.
fn nested(alloc: Global, front: &[u8], opens: usize, closes: usize) -> Result<Vec<u8>, AllocError> {
    let mut bytes = Vec::from_slice(alloc, front)?;
    for _ in 0..opens {
        bytes.push(b'(')?;
    }
    for _ in 0..closes {
        bytes.push(b')')?;
    }
    Ok(bytes)
}

#[test]
fn files_give_their_forms_or_their_fault(rt: HostRuntime) -> Result<(), Fail> {
    for (i, (bytes, given)) in CASES.iter().enumerate() {
        assert!(rt; gives(rt.alloc(), bytes, given)?, "case {i}");
    }
    Ok(())
}

#[test]
fn lists_nest_to_two_hundred(rt: HostRuntime) -> Result<(), Fail> {
    let alloc = rt.alloc();
    let deepest = nested(alloc, b"", 200, 200)?;
    assert!(rt; deepest.len() <= 1000);
    assert!(rt; forms(alloc, deepest.as_slice()).is_ok());
    for (front, opens, closes, fault) in DEEP {
        let bytes = nested(alloc, front, *opens, *closes)?;
        assert!(rt;
            gives(alloc, bytes.as_slice(), &Given::Fault(*fault))?,
            "{fault:?}"
        );
    }
    Ok(())
}

#[test]
fn words_and_places(rt: HostRuntime) -> Result<(), Fail> {
    assert!(rt; word(b"(abc)", Span { from: 1, to: 4 }) == b"abc".as_slice());
    let pairs: [(&[u8], &[u8], bool); 6] = [
        (b"At-Z", b"aT-z", true),
        (b"", b"", true),
        (b"[", b"{", false),
        (b"@", b"`", false),
        (b"a", b"ab", false),
        (b"a", b"b", false),
    ];
    for (a, b, same) in pairs {
        assert_eq!(rt; same_word(a, b), same);
    }
    let small = folded_word(rt.alloc(), b"@AMZ[-9?m")?;
    assert!(rt; small.as_slice() == b"@amz[-9?m".as_slice());
    let places: [(u32, (u32, u32)); 6] = [
        (0, (1, 1)),
        (2, (1, 3)),
        (3, (2, 1)),
        (6, (2, 4)),
        (7, (3, 1)),
        (8, (4, 1)),
    ];
    for (at, place) in places {
        assert!(rt; at <= 8);
        assert_eq!(rt; line_column(b"ab\nc\rd\n\n", at), place);
    }
    Ok(())
}

//! What no clause says: that the calls succeed, and what files and streams of the system give and take.

ghost use Rattle.std.specs.Prelude.{◌≤◌};

use pl_io::{
    ErrSink, FileShelf, MAX_FILE_BYTES, MemShelf, MemSink, NamedFile, OutSink, ReadEnd, Shelf,
    Sink, put_all, put_pieces, read_whole,
};
use std::alloc::{AllocError, Global};
use std::fs;
use std::test::Fail;

/// A file in memory.
fn file(alloc: Global, name: &str, bytes: &[u8]) -> Result<NamedFile, AllocError> {
    let name = Vec::from_slice(alloc, name.as_bytes())?;
    let bytes = Vec::from_slice(alloc, bytes)?;
    Ok(NamedFile { name, bytes })
}

/// A shelf with a file that is there twice and an empty one.
fn shelf(alloc: Global, failing: &[u64], piece: usize) -> Result<MemShelf, AllocError>
    requires { 1 ≤ piece }
{
    let mut files = Vec::new(alloc);
    files.push(file(alloc, "tiles", b"first tiles")?)?;
    files.push(file(alloc, "none", b"")?)?;
    files.push(file(alloc, "tiles", b"other tiles")?)?;
    Ok(MemShelf::new(files, Vec::from_slice(alloc, failing)?, piece))
}

/// What a reading is to end with, in letters: whole, missing, a fault, too long.
fn ending(read: &Result<Vec<u8>, ReadEnd>) -> &'static str {
    match read {
        Ok(_) => "whole",
        Err(ReadEnd::Missing) => "missing",
        Err(ReadEnd::ReadFault) => "fault",
        Err(ReadEnd::TooLong) => "too long",
        Err(ReadEnd::Memory(_)) => "memory",
    }
}

/// A reading, and how it is to end.
struct Reading {
    name: &'static str,
    failing: &'static [u64],
    piece: usize,
    ending: &'static str,
    bytes: &'static [u8],
}

// Pieces of 4 give the 11 bytes of `tiles` in three reads, and its end in a fourth.
const READINGS: &[Reading] = &[
    Reading {
        name: "tiles",
        failing: &[],
        piece: 4,
        ending: "whole",
        bytes: b"first tiles",
    },
    Reading {
        name: "tiles",
        failing: &[],
        piece: 1_000_000,
        ending: "whole",
        bytes: b"first tiles",
    },
    Reading {
        name: "none",
        failing: &[],
        piece: 1,
        ending: "whole",
        bytes: b"",
    },
    Reading {
        name: "roads",
        failing: &[],
        piece: 4,
        ending: "missing",
        bytes: b"",
    },
    Reading {
        name: "roads",
        failing: &[1],
        piece: 4,
        ending: "fault",
        bytes: b"",
    },
    Reading {
        name: "tiles",
        failing: &[2],
        piece: 4,
        ending: "fault",
        bytes: b"",
    },
    Reading {
        name: "tiles",
        failing: &[5],
        piece: 4,
        ending: "fault",
        bytes: b"",
    },
    Reading {
        name: "tiles",
        failing: &[6],
        piece: 4,
        ending: "whole",
        bytes: b"first tiles",
    },
    Reading {
        name: "none",
        failing: &[3],
        piece: 4,
        ending: "whole",
        bytes: b"",
    },
];

/// Whether the reading ends so, with these bytes.
fn ends_so(alloc: Global, reading: &Reading) -> Result<bool, AllocError> {
    let mut shelf = shelf(alloc, reading.failing, reading.piece.max(1))?;
    let read = read_whole(alloc, &mut shelf, reading.name);
    if ending(&read) != reading.ending {
        return Ok(false);
    }
    Ok(read.map_or(true, |bytes| bytes.as_slice() == reading.bytes))
}

#[test]
fn reads_files_in_memory(rt: HostRuntime) -> Result<(), Fail> {
    for (i, reading) in READINGS.iter().enumerate() {
        let met = ends_so(rt.alloc(), reading)?;
        assert!(rt; met, "reading {i}");
    }
    Ok(())
}

#[test]
fn reads_up_to_the_limit(rt: HostRuntime) -> Result<(), Fail> {
    for (count, want) in [(MAX_FILE_BYTES, "whole"), (MAX_FILE_BYTES + 1, "too long")] {
        let mut files = Vec::new(rt.alloc());
        let name = Vec::from_slice(rt.alloc(), b"long")?;
        files.push(NamedFile {
            name,
            bytes: vec![in rt.alloc(); 7; count]?,
        })?;
        let mut shelf = MemShelf::new(files, Vec::new(rt.alloc()), 1_000_000);
        let read = read_whole(rt.alloc(), &mut shelf, "long");
        assert_eq!(rt; ending(&read), want, "{count} bytes");
    }
    Ok(())
}

#[test]
fn writes_in_memory(rt: HostRuntime) -> Result<(), Fail> {
    // Pieces of 4 take "plan" and "ning", and then "s".
    let cases: [(usize, &[u64], &[u8], bool); 7] = [
        (9, &[], b"plannings", true),
        (20, &[4], b"plannings", true),
        (8, &[], b"planning", false),
        (6, &[], b"planni", false),
        (0, &[], b"", false),
        (9, &[1], b"", false),
        (9, &[3], b"planning", false),
    ];
    for (room, failing, want, whole) in cases {
        let failing = Vec::from_slice(rt.alloc(), failing)?;
        let mut sink = MemSink::new(rt.alloc(), room, failing, 4)?;
        let put = put_pieces(&mut sink, &[b"planning", b"", b"s"]);
        assert_eq!(rt; put.is_ok(), whole, "room {room}");
        assert!(rt; sink.written() == want, "room {room}");
    }
    Ok(())
}

#[test]
fn reads_files_of_the_system(rt: HostRuntime) -> Result<(), Fail> {
    // More than a read asks for.
    let bytes = vec![in rt.alloc(); b'r'; 70_000]?;
    fs::write(&rt, "pl_io_test.txt", bytes.as_slice())?;
    let mut shelf = FileShelf::new(&rt);
    let read = read_whole(rt.alloc(), &mut shelf, "pl_io_test.txt");
    fs::remove_file(&rt, "pl_io_test.txt")?;
    assert!(rt;
        read.is_ok_and(|r| r.as_slice() == bytes.as_slice()),
        "the bytes of the file"
    );
    // There is no such file, and a directory has no bytes.
    for name in ["pl_io_test.txt", "."] {
        let read = read_whole(rt.alloc(), &mut shelf, name);
        assert_eq!(rt; ending(&read), "fault", "{name}");
    }
    Ok(())
}

#[test]
fn writes_to_the_streams(rt: HostRuntime) {
    let mut out = OutSink::new(&rt);
    assert!(rt;
        put_pieces(&mut out, &[b"standard ", b"output\n"]).is_ok(),
        "standard output"
    );
    assert_eq!(rt; out.write(b""), Ok(0));
    let mut err = ErrSink::new(&rt);
    assert!(rt;
        put_all(&mut err, b"standard error\n").is_ok(),
        "standard error"
    );
}

//! Names and numbers in small tables, worked by hand.

use pl_names::{Appearances, Names};
use std::test::Fail;

/// A list of names, the names that are looked up in it, and their numbers.
struct Lookups {
    names: &'static [&'static [u8]],
    asked: &'static [(&'static [u8], Option<u32>)],
}

// Names whose keys are equal can't be written down here: two names of one 64-bit key aren't known.
const LOOKUPS: &[Lookups] = &[
    Lookups {
        names: &[],
        asked: &[(b"", None), (b"a", None)],
    },
    Lookups {
        names: &[b"a"],
        asked: &[(b"a", Some(0)), (b"b", None), (b"", None), (b"aa", None)],
    },
    Lookups {
        names: &[b"room", b"ball", b"room", b"gripper", b"ball", b""],
        asked: &[
            (b"room", Some(0)),
            (b"ball", Some(1)),
            (b"gripper", Some(3)),
            (b"", Some(5)),
            (b"Room", None),
            (b"rooms", None),
        ],
    },
    Lookups {
        names: &[
            b"a-name-that-is-longer-than-sixteen-bytes-1",
            b"a-name-that-is-longer-than-sixteen-bytes-2",
        ],
        asked: &[
            (b"a-name-that-is-longer-than-sixteen-bytes-2", Some(1)),
            (b"a-name-that-is-longer-than-sixteen-bytes-1", Some(0)),
            (b"a-name-that-is-longer-than-sixteen-bytes-", None),
        ],
    },
];

#[test]
fn a_name_has_its_first_place(rt: HostRuntime) -> Result<(), Fail> {
    for (i, case) in LOOKUPS.iter().enumerate() {
        let names = Names::of(rt.alloc(), case.names.to_vec(rt.alloc())?)?;
        assert_eq!(rt; names.len(), case.names.len(), "case {i}");
        for (name, number) in case.asked {
            assert_eq!(rt; names.find(*name), *number, "case {i}");
        }
    }
    Ok(())
}

/// Occurrences, the distinct names of them, and the number of each occurrence.
struct Occurrences {
    occurrences: &'static [&'static [u8]],
    names: &'static [&'static [u8]],
    numbers: &'static [u32],
}

const OCCURRENCES: &[Occurrences] = &[
    Occurrences {
        occurrences: &[],
        names: &[],
        numbers: &[],
    },
    Occurrences {
        occurrences: &[b"b", b"a", b"b", b"c", b"a", b"a", b"d", b"c"],
        names: &[b"b", b"a", b"c", b"d"],
        numbers: &[0, 1, 0, 2, 1, 1, 3, 2],
    },
    Occurrences {
        occurrences: &[b"", b"", b"x"],
        names: &[b"", b"x"],
        numbers: &[0, 0, 1],
    },
];

#[test]
fn names_are_numbered_by_first_appearance(rt: HostRuntime) -> Result<(), Fail> {
    for (i, case) in OCCURRENCES.iter().enumerate() {
        let occurrences = case.occurrences.to_vec(rt.alloc())?;
        let met = Appearances::of(rt.alloc(), occurrences)?;
        assert!(rt; met.names() == case.names, "case {i}");
        assert!(rt; met.numbers() == case.numbers, "case {i}");
        for (number, name) in case.names.iter().enumerate() {
            assert_eq!(rt; met.find(*name), Some(number as u32), "case {i}");
        }
        assert_eq!(rt; met.find(b"z"), None, "case {i}");
    }
    Ok(())
}

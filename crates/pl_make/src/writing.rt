//! Lines and names, appended to a text.

ghost use Rattle.std.specs.Prelude.{◌≡◌, ◌++◌, ◌+◌, ◌*◌, ◌≤◌, ◌<◌, ◌^◌, length, codes, decimal, OnOk};
ghost use Rattle.std.specs.List.{flat_map};
ghost use Rattle.pl_make.specs.Texts.{names_text, atom_line};

use itoa::Buffer;
use std::alloc::AllocError;

/// Appends a number in decimal.
pub fn put_number(text: &mut Vec<u8>, number: u32) -> Result<(), AllocError>
    ensures text { OnOk result (text.new.items ≡ text.old.items ++ decimal number) }
{
    let mut digits = Buffer::new();
    text.extend_from_slice(digits.format(number).as_bytes())
}

/// Appends a blank and a name for each number below `n`.
#[tactic(auto, using(crate::proofs::Numbers::pieces))]
pub fn put_names(text: &mut Vec<u8>, letter: &[u8], n: u32) -> Result<(), AllocError>
    ensures text { OnOk result (text.new.items ≡ text.old.items ++ names_text letter.now n) }
{
    for i in 0..n {
        text.extend_from_slice(b" ")?;
        text.extend_from_slice(letter)?;
        put_number(text, i)?;
    }
    Ok(())
}

/// Appends the line of an atom of two objects.
pub fn put_atom(
    text: &mut Vec<u8>,
    predicate: &[u8],
    letter: &[u8],
    left: u32,
    right: u32,
) -> Result<(), AllocError>
    ensures text { OnOk result (text.new.items ≡ text.old.items ++ atom_line predicate.now
        letter.now left right) }
{
    text.extend_from_slice(b"(")?;
    text.extend_from_slice(predicate)?;
    text.extend_from_slice(b" ")?;
    text.extend_from_slice(letter)?;
    put_number(text, left)?;
    text.extend_from_slice(b" ")?;
    text.extend_from_slice(letter)?;
    put_number(text, right)?;
    text.extend_from_slice(b")\n")
}

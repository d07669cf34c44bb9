//! The reading of a whole file.

ghost use Rattle.std.specs.Prelude.{◌≤◌, length, IfOk, OnOk, IfErr, All};
ghost use Rattle.pl_text.specs.Limits.{most_bytes};
ghost use Rattle.pl_text.specs.Forms.{AreFormsOf};
ghost use Rattle.pl_text.specs.Trees.{trees_of, LieBetween, AreInFile};
ghost use Rattle.pl_text.specs.Spans.{ArePlaced, IsPlaced, IsWithin};
ghost use Rattle.pl_text.specs.TextFaults.{IsFaultless, EndsBy};

use crate::fault::TextEnd;
use crate::form::FormList;
use crate::reading::Reading;
use std::alloc::Global;

/// How many bytes a file may have.
pub const MAX_BYTES: usize = 16777216;

/// The forms of a file, or the fault for which it has none.
///
/// The file is read once, from left to right, with a stack of its own. The time is linear in the bytes; the
/// memory is 40 bytes or so for each form, whose place in its list is taken when the list ends.
/// `TextEnd::Memory` alone may come for any file.
pub fn forms(alloc: Global, bytes: &[u8]) -> Result<FormList, TextEnd>
    requires { length bytes.now ≤ most_bytes }
    // The forms are written with the tokens of the file, and the file has no fault.
    ensures forms { IfOk result (AreFormsOf bytes.now) }
    ensures faultless { OnOk result (IsFaultless bytes.now) }
    // They lie in the file one after another, and the elements of a list between its brackets.
    ensures lie { IfOk result (λ list. LieBetween 0 (length bytes.now) (trees_of list)) }
    ensures in_file { IfOk result (λ list. AreInFile (length bytes.now) (trees_of list)) }
    // The same, said of forms.
    ensures within { IfOk result (All (IsWithin (length bytes.now))) }
    ensures in_order { IfOk result (ArePlaced 0 (length bytes.now)) }
    ensures placed { IfOk result (All IsPlaced) }
    // A refusal gives the first fault of the file, or says that memory was short.
    ensures err { IfErr result (EndsBy bytes.now) }
{
    let mut reading = Reading::new(alloc);
    let mut at = 0;
    while at < bytes.len() {
        at = reading.step(bytes, at)?;
    }
    reading.end(bytes).map_err(TextEnd::Fault)
}

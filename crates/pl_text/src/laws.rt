//! What the definitions of this crate have in common: each function here is empty, and its contract is a law.

ghost use Rattle.std.specs.Prelude.{◌≡◌};
ghost use Rattle.pl_text.specs.Limits.{most_bytes, most_open};
ghost use Rattle.pl_text.specs.Laws.{TokensAreThose, TreesAreOne, TreesArePlaced, FormsAreOne, FaultIsOne};
ghost use Rattle.pl_text.specs.Laws.{FormsOrFault, FoldingKeepsFolded};

use crate::fault::MAX_DEPTH;
use crate::reader::MAX_BYTES;

/// The limits that callers may name are those of the definitions.
pub fn limits_are_those()
    ensures bytes { MAX_BYTES ≡ most_bytes }
    ensures depth { MAX_DEPTH ≡ most_open }
{}

/// The tokens of a file, which are defined byte by byte, are its brackets and its longest runs of word bytes
/// that stand outside comments, by rising place.
pub fn tokens_are_those()
    ensures { TokensAreThose }
{}

/// A file has one list of trees at most.
pub fn trees_are_one()
    ensures { TreesAreOne }
{}

/// The trees of a file lie in it one after another, and those of a list between its brackets.
pub fn trees_are_placed()
    ensures { TreesArePlaced }
{}

/// A file has one list of forms at most.
pub fn forms_are_one()
    ensures { FormsAreOne }
{}

/// A file gives one fault at most.
pub fn fault_is_one()
    ensures { FaultIsOne }
{}

/// A file has forms or gives a fault, and never both.
pub fn forms_or_fault()
    ensures { FormsOrFault }
{}

/// A folded word is folded already, so names that are kept folded are compared as they are.
pub fn folding_keeps_folded()
    ensures { FoldingKeepsFolded }
{}

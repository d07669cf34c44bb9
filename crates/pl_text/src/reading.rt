//! A reading that has come to some place of a file.

ghost use Rattle.std.specs.Prelude.{◌≡◌, ◌<◌, ◌≤◌, [], length, OnOk, IfOk, IfErr, All};
ghost use Rattle.pl_text.specs.Limits.{most_bytes};
ghost use Rattle.pl_text.specs.Forms.{AreFormsOf};
ghost use Rattle.pl_text.specs.Trees.{trees_of, LieBetween, AreInFile};
ghost use Rattle.pl_text.specs.Spans.{ArePlaced, IsPlaced, IsWithin};
ghost use Rattle.pl_text.specs.TextFaults.{EndsBy, IsFaultless, IsGivenFault};
ghost use Rattle.pl_text.specs.Tokens.{Open as OpenToken, Close as CloseToken, Word as WordToken};

use crate::fault::{MAX_DEPTH, TextEnd, TextFault};
use crate::form::{Form, FormList, Span};
use crate::scan::{Kind, kind_of, line_end, word_end};
use std::alloc::Global;

/// A list whose close bracket was not read yet.
#[derive(Clone, Copy)]
pub(crate) struct Opened {
    /// The place of its open bracket.
    pub at: u32,
    /// How many forms were done when it began: its elements are those after them.
    pub before: usize,
}

/// The lists that are open, outermost first, and the forms that are done.
///
/// The done forms of all open lists lie one after another in one `Vec`, so that a list takes memory once, for
/// exactly its elements, when it is closed.
#[derive(Drop)]
pub(crate) struct Reading {
    lists: Vec<Opened>,
    done: Vec<Form>,
}

impl Reading {
    ghost use Rattle.pl_text.specs.Reading.{IsRead, IsKept, AddsToken, CannotEnter, CannotLeave, IsMemory};

    /// Nothing read.
    pub fn new(alloc: Global) -> Reading
        ensures lists { result.lists.items ≡ [] }
        ensures done { result.done.items ≡ [] }
    {
        Reading {
            lists: Vec::new(alloc),
            done: Vec::new(alloc),
        }
    }

    /// Reads on from the place `at`: over a blank, a bracket, a word or a comment, to where it ends.
    pub fn step(&mut self, bytes: &[u8], at: usize) -> Result<usize, TextEnd>
        requires read { IsRead bytes.now at self.old.lists.items self.old.done.items }
        requires left { at < length bytes.now }
        requires few { length bytes.now ≤ most_bytes }
        ensures ok { IfOk result
            (λ next. IsRead bytes.now next self.new.lists.items self.new.done.items) }
        ensures further { IfOk result (λ next. at < next) }
        ensures err { IfErr result (EndsBy bytes.now) }
    {
        let place = at as u32;
        match kind_of(bytes[at]) {
            Kind::Open => self.enter(place)?,
            Kind::Close => self.leave(place)?,
            Kind::Comment => return Ok(line_end(bytes, at)),
            Kind::Word => {
                let end = word_end(bytes, at);
                let span = Span {
                    from: place,
                    to: end as u32,
                };
                self.word(span)?;
                return Ok(end);
            }
            Kind::Blank => {}
            Kind::Bad => return Err(TextEnd::Fault(TextFault::BadByte { at: place })),
        }
        Ok(at + 1)
    }

    /// A list begins.
    fn enter(&mut self, at: u32) -> Result<(), TextEnd>
        requires kept { IsKept self.old.lists.items self.old.done.items }
        ensures ok { OnOk result
            (AddsToken self.old.lists.items self.new.lists.items
            self.old.done.items self.new.done.items (OpenToken at)) }
        ensures err { IfErr result (CannotEnter self.old.lists.items at) }
    {
        if self.lists.len() == MAX_DEPTH {
            return Err(TextEnd::Fault(TextFault::TooDeep { at }));
        }
        let before = self.done.len();
        match self.lists.push(Opened { at, before }) {
            Ok(()) => Ok(()),
            Err(failed) => Err(TextEnd::Memory(failed.into())),
        }
    }

    /// The innermost list ends.
    fn leave(&mut self, at: u32) -> Result<(), TextEnd>
        requires kept { IsKept self.old.lists.items self.old.done.items }
        requires few { at < most_bytes }
        ensures ok { OnOk result
            (AddsToken self.old.lists.items self.new.lists.items
            self.old.done.items self.new.done.items (CloseToken at)) }
        ensures err { IfErr result (CannotLeave self.old.lists.items at) }
    {
        let Some(list) = self.lists.pop() else {
            return Err(TextEnd::Fault(TextFault::StrayClose { at }));
        };
        let elements = match self.done.split_off(list.before) {
            Ok(elements) => elements,
            Err(failed) => return Err(TextEnd::Memory(failed)),
        };
        let span = Span {
            from: list.at,
            to: at + 1,
        };
        match self.done.push(Form::List(span, elements)) {
            Ok(()) => Ok(()),
            Err(failed) => Err(TextEnd::Memory(failed.into())),
        }
    }

    /// A word is done.
    fn word(&mut self, span: Span) -> Result<(), TextEnd>
        requires kept { IsKept self.old.lists.items self.old.done.items }
        ensures ok { OnOk result
            (AddsToken self.old.lists.items self.new.lists.items
            self.old.done.items self.new.done.items (WordToken span)) }
        ensures err { IfErr result IsMemory }
    {
        match self.done.push(Form::Word(span)) {
            Ok(()) => Ok(()),
            Err(failed) => Err(TextEnd::Memory(failed.into())),
        }
    }

    /// The forms, where the whole file was read and no list is open.
    pub fn end(self, bytes: &[u8]) -> Result<FormList, TextFault>
        requires { IsRead bytes.now (length bytes.now) self.lists.items self.done.items }
        ensures forms { IfOk result (AreFormsOf bytes.now) }
        ensures faultless { OnOk result (IsFaultless bytes.now) }
        ensures lie { IfOk result (λ list. LieBetween 0 (length bytes.now) (trees_of list)) }
        ensures in_file { IfOk result (λ list. AreInFile (length bytes.now) (trees_of list)) }
        ensures within { IfOk result (All (IsWithin (length bytes.now))) }
        ensures in_order { IfOk result (ArePlaced 0 (length bytes.now)) }
        ensures placed { IfOk result (All IsPlaced) }
        ensures fault { IfErr result (IsGivenFault bytes.now) }
    {
        match self.lists.first() {
            Some(list) => Err(TextFault::Unclosed { at: list.at }),
            None => Ok(FormList::of(self.done)),
        }
    }
}

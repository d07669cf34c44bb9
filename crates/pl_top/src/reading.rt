//! Reads the files of a request.

ghost use Rattle.std.specs.Prelude.{◌≡◌, ◌≤◌, [], ◌∷◌, ℕ, length, IfOk, IfErr};
ghost use Rattle.pl_io.specs.Outside.{BegunThen, most_file_bytes};
ghost use Rattle.pl_top.specs.Answer.{IsReadingOf, Whole};
ghost use Rattle.pl_top.specs.Reading.{BeginsWith};
ghost use Rattle.pl_top.specs.Refusal.{HasBegun, IsRefused, IsUnread};
ghost use Rattle.pl_top.specs.Request.{Request};

use crate::refusal::Refusal;
use pl_check::FileRole;
use pl_io::{ReadEnd, Shelf, read_whole};
use std::alloc::Global;

/// The bytes of a domain and of a problem.
#[derive(Drop)]
pub struct TaskFiles {
    pub domain: Vec<u8>,
    pub problem: Vec<u8>,
}

/// Reads the domain and the problem of a request, in this order.
pub fn read_task_files<S: Shelf>(
    alloc: Global,
    shelf: &mut S,
    domain: &str,
    problem: &str,
) -> Result<TaskFiles, Refusal>
    ensures domain { IfOk result (λ read.
        (place : ℕ) → IsReadingOf (S.seen shelf.old).files place domain.now (Whole read.domain.items)) }
    ensures problem { IfOk result (λ read.
        (place : ℕ) → IsReadingOf (S.seen shelf.old).files place problem.now (Whole read.problem.items)) }
    ensures domain_short { IfOk result (λ read. length read.domain.items ≤ most_file_bytes) }
    ensures problem_short { IfOk result (λ read. length read.problem.items ≤ most_file_bytes) }
    ensures begun { (request : Request) → BeginsWith request domain.now problem.now →
        IfOk result (λ _. HasBegun request 2 (S.seen shelf.old) (S.seen shelf.new)) }
    ensures refused { (request : Request) → BeginsWith request domain.now problem.now →
        IfErr result (IsRefused request (S.seen shelf.old) (S.seen shelf.new)) }
{
    let domain = read_file(alloc, shelf, FileRole::Domain, domain)?;
    let problem = read_file(alloc, shelf, FileRole::Problem, problem)?;
    Ok(TaskFiles { domain, problem })
}

/// The whole bytes of a file of the request, or what its not being read comes to.
pub fn read_file<S: Shelf>(
    alloc: Global,
    shelf: &mut S,
    role: FileRole,
    name: &str,
) -> Result<Vec<u8>, Refusal>
    ensures whole { IfOk result (λ bytes.
        (place : ℕ) → IsReadingOf (S.seen shelf.old).files place name.now (Whole bytes.items)) }
    ensures short { IfOk result (λ bytes. length bytes.items ≤ most_file_bytes) }
    ensures unread { IfErr result (IsUnread name.now role (S.seen shelf.old) (S.seen shelf.new)) }
    ensures files { (S.seen shelf.new).files ≡ (S.seen shelf.old).files }
    ensures faults { (S.seen shelf.old).faults ≤ (S.seen shelf.new).faults }
    ensures begun { BegunThen (S.seen shelf.old).begun (name.now ∷ []) (S.seen shelf.new).begun }
{
    match read_whole(alloc, shelf, name) {
        Ok(bytes) => Ok(bytes),
        Err(ReadEnd::Missing) => Err(Refusal::CannotRead(role)),
        Err(ReadEnd::ReadFault) => Err(Refusal::CannotRead(role)),
        Err(ReadEnd::TooLong) => Err(Refusal::TooLong(role)),
        Err(ReadEnd::Memory(error)) => Err(Refusal::Memory(error)),
    }
}

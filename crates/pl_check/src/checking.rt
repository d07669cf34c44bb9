//! The check of a domain and a problem.

ghost use Rattle.std.specs.Prelude.{◌≤◌, length, IfOk, IfErr};
ghost use Rattle.pl_text.specs.Trees.{trees_of, LieBetween};
ghost use Rattle.pl_check.specs.Checking.{Checks};
ghost use Rattle.pl_check.specs.Elements.{trees};
ghost use Rattle.pl_check.specs.FirstFault.{EndsBy};
ghost use Rattle.pl_check.specs.Stated.{AreStated};

use crate::fault::CheckEnd;
use crate::files::{read_domain, read_problem};
use crate::forms::{end_in, read_forms};
use crate::known::{collect, sections};
use crate::role::FileRole;
use crate::task::{lists_of, task_of};
use pl_task::Task;
use pl_text::{Form, small_copy, small_word};
use std::alloc::Global;

/// Checks a domain and a problem, and makes the task that they state.
///
/// Each file has 16,777,216 bytes at most. The errors are the first fault of the two files, and want of
/// memory.
pub fn check(alloc: Global, domain: &[u8], problem: &[u8]) -> Result<Task, CheckEnd>
    requires domain { length domain.now ≤ 16777216 }
    requires problem { length problem.now ≤ 16777216 }
    ensures task { IfOk result (AreStated domain.now problem.now) }
    ensures err { IfErr result (EndsBy domain.now problem.now) }
{
    let domain_forms = match read_forms(alloc, FileRole::Domain, domain) {
        Ok(forms) => forms,
        Err(end) => return Err(end),
    };
    let problem_forms = match read_forms(alloc, FileRole::Problem, problem) {
        Ok(forms) => forms,
        Err(end) => return Err(end),
    };
    let domain_copy = match small_copy(alloc, domain) {
        Ok(copy) => copy,
        Err(failed) => return Err(CheckEnd::Memory(failed)),
    };
    let problem_copy = match small_copy(alloc, problem) {
        Ok(copy) => copy,
        Err(failed) => return Err(CheckEnd::Memory(failed)),
    };
    check_forms(
        alloc,
        small_word(domain, &domain_copy),
        domain_forms.as_slice(),
        small_word(problem, &problem_copy),
        problem_forms.into_forms(),
    )
}

/// The same, with the forms of each file and the file in small letters.
fn check_forms<'a>(
    alloc: Global,
    domain: &'a [u8],
    domain_forms: &[Form],
    problem: &'a [u8],
    problem_forms: Vec<Form>,
) -> Result<Task, CheckEnd>
    requires domain { length domain.now ≤ 16777216 }
    requires problem { length problem.now ≤ 16777216 }
    requires in_domain { LieBetween 0 (length domain.now) (trees_of domain_forms.now) }
    requires in_problem { LieBetween 0 (length problem.now) (trees_of problem_forms.items) }
    ensures { Checks domain.now (trees domain_forms.now) problem.now (trees problem_forms.items) result }
{
    let domain_sections = sections(domain_forms);
    let problem_sections = sections(problem_forms.as_slice());
    let known = match collect(alloc, domain, domain_sections, problem, problem_sections) {
        Ok(known) => known,
        Err(failed) => return Err(CheckEnd::Memory(failed)),
    };
    let schemas = match read_domain(alloc, domain, &known, domain_forms) {
        Ok(schemas) => schemas,
        Err(end) => return Err(end_in(FileRole::Domain, end)),
    };
    // The problem's forms are many, and reading gives them up: what else they state is listed before.
    let lists = match lists_of(
        alloc,
        &known,
        domain,
        domain_sections,
        problem,
        problem_sections,
    ) {
        Ok(lists) => lists,
        Err(failed) => return Err(CheckEnd::Memory(failed)),
    };
    let stated = match read_problem(alloc, problem, &known, problem_forms) {
        Ok(stated) => stated,
        Err(end) => return Err(end_in(FileRole::Problem, end)),
    };
    match task_of(alloc, &known, lists, schemas, stated) {
        Ok(task) => Ok(task),
        Err(failed) => Err(CheckEnd::Memory(failed)),
    }
}

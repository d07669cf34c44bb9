//! The files of a made task.

ghost use Rattle.std.specs.Prelude.{◌≡◌, ◌≤◌, length, IfOk};
ghost use Rattle.pl_make.specs.Texts.{IsSize, domain_text, problem_text};

use crate::hop::{hop_domain, hop_problem};
use crate::kind::{Kind, Made};
use crate::wide::{wide_domain, wide_problem};
use pl_task::List;
use std::alloc::{AllocError, Global};

/// The domain and the problem of the kind, in size `n`: places of a chain, or objects a block of the wide
/// join.
///
/// A chain's links are drawn from `start`; the wide join does not use it.
pub fn make(alloc: Global, kind: Kind, n: u32, start: u64) -> Result<Made, AllocError>
    requires { IsSize kind n }
    ensures domain { IfOk result (λ made. made.domain ≡ domain_text kind) }
    ensures problem { IfOk result (λ made. made.problem ≡ problem_text kind n start) }
    ensures short_domain { IfOk result (λ made. length made.domain ≤ 16777216) }
    ensures short_problem { IfOk result (λ made. length made.problem ≤ 16777216) }
{
    match kind {
        Kind::Hop => {
            let domain = hop_domain(alloc)?;
            let problem = hop_problem(alloc, n, start)?;
            Ok(Made {
                domain: List::of(domain),
                problem: List::of(problem),
            })
        }
        Kind::Wide => {
            let domain = wide_domain(alloc)?;
            let problem = wide_problem(alloc, n)?;
            Ok(Made {
                domain: List::of(domain),
                problem: List::of(problem),
            })
        }
    }
}

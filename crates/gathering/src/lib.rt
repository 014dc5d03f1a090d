// The error records that a feed left in the work area, read out by value, once.
#![tactic(auto)]

ghost use Rattle.std.specs.Prelude.{◌≡◌, ◌≤◌};
ghost use Rattle.meaning.specs.Limits.{max_errors};
ghost use Rattle.gathering.specs.Gathering.{no_errors, Gathered};

use lists::Errors;
use meaning::{ErrorRecord, MAX_ERRORS};
use state::Work;

// What a refused feed hands back.
pub fn no_errors() -> Errors
    ensures { result ≡ no_errors }
{
    Errors {
        list: [ErrorRecord::default(); MAX_ERRORS],
        count: 0,
    }
}

// The first records of the work area.
#[tactic(auto, using(crate::proofs::Laws::gather_room, crate::proofs::Laws::gather_more, crate::proofs::Laws::gathered))]
pub fn errors_of(work: &Work, count: u16) -> Errors
    requires { count ≤ max_errors }
    ensures { Gathered work.now count result }
{
    let mut errors = no_errors();
    for i in 0..count {
        errors.list[usize::from(i)] = actions::errors::get_error(work, i);
    }
    errors.count = usize::from(count);
    errors
}

// The call by value under `Machine::feed`, for programs and exports: a term is fed, and the error records come back by value.
ghost use Rattle.std.specs.Prelude.{◌≡◌, ℕ, List};
ghost use Rattle.meaning.specs.Calls.{wrong_term};
ghost use Rattle.meaning.specs.Feeding.{feed};
ghost use Rattle.state.specs.Readings.{used_of, readings_of};
ghost use Rattle.checks.specs.Checks.{FileOf};
ghost use Rattle.feeding.specs.Ending.{FedIs};
ghost use Rattle.by_value.specs.Feeding.{StagesReady, EndsReady, EndedRun, RunLine, RunPromise, refused_run, handed_run, fed_in, feed_in, feed_line};

use feeding::{Ended, First};
use lists::Errors;
use meaning::{FeedAnswer, FeedOutcome, MAX_ERRORS, Refusal, Term};
use state::{STATE_LENGTH, State, WORK_LENGTH, Work};
use table::Table;

// What a feed answers, and the error records for the lent list.
#[derive(Clone, Copy)]
pub struct FeedRun {
    pub answer: FeedAnswer,
    pub errors: Errors,
}

fn refused(refusal: Refusal) -> FeedRun
    ensures { result ≡ refused_run refusal }
{
    FeedRun {
        answer: Err(refusal),
        errors: gathering::no_errors(),
    }
}

// Check 5: class below 3 or not in the table, or start > end.
#[tactic(auto, unfolding(meaning::specs::Calls::wrong_term))]
fn wrong_term(table: &Table, term: Term) -> bool
    ensures { result ≡ wrong_term table.now.counts.classes term }
{
    checks::wrong_class(table, term.class) || term.end < term.start
}

// The stages, over the cells in use.
fn stages(table: &Table, state: &State, work: &mut Work, term: Term) -> Result<Ended, Refusal>
    requires { StagesReady table.now state.now }
    ensures { FedIs (feed table.now term (readings_of state.now) (used_of state.now)) (readings_of state.now) (used_of state.now) work.new result }
{
    state::load(state, work);
    match feeding::first_planning(table, state, work, term)? {
        First::Ended(ended) => Ok(ended),
        First::Recovers { walked, left } => {
            recovery::recover(table, state, work, term, walked, left)
        }
    }
}

// A feed that ended is committed; its errors are gathered once.
fn end_feed(state: &mut State, work: &mut Work, ended: Ended) -> FeedRun
    requires { EndsReady work.old ended }
    ensures { EndedRun (fed_in work.old ended) state.old result state.new }
{
    let counts = ended.counts;
    let errors = gathering::errors_of(work, counts.errors);
    commit::commit(work, state, ended.list, counts.results, counts.cells);
    FeedRun {
        answer: Ok(FeedOutcome {
            taken: ended.taken,
            errors: errors.count,
            walked: ended.walked as u32,
        }),
        errors,
    }
}

// On a table and a state that were found right. Consumed comes before the term is looked at.
fn feed_right(
    table: &Table,
    state: &mut State,
    work: &mut Work,
    term: Term,
) -> Result<FeedRun, Refusal>
    requires { StagesReady table.now state.old }
    ensures { (file : List ℕ) → FileOf file table.now → RunLine file state.old (feed_in table.now state.old term) (handed_run result) state.new }
{
    let consumed = state::reading_count(state) == 0;
    if consumed {
        return Err(Refusal::Consumed);
    }
    if wrong_term(table, term) {
        return Err(Refusal::WrongArgument);
    }
    let ended = stages(table, state, work, term)?;
    Ok(end_feed(state, work, ended))
}

// On buffers of the right lengths.
fn feed_found(
    table: &[u8],
    state: &mut State,
    work: &mut Work,
    term: Term,
) -> Result<FeedRun, Refusal>
    ensures { RunLine table.now state.old (feed_line table.now state.old term) (handed_run result) state.new }
{
    let table = checks::find_table(table, state)?;
    feed_right(&table, state, work, term)
}

// Feeds a term, for a lent list of so many places.
pub fn feed_of(
    table: &[u8],
    state: &mut [u8],
    work: &mut [u8],
    term: Term,
    places: usize,
) -> FeedRun
    ensures { RunPromise table.now state.old work.old term places result state.new work.new }
{
    let Some(state) = state.as_mut_array::<STATE_LENGTH>() else {
        return refused(Refusal::WrongLength);
    };
    let Some(work) = work.as_mut_array::<WORK_LENGTH>() else {
        return refused(Refusal::WrongLength);
    };
    if places != MAX_ERRORS {
        return refused(Refusal::WrongLength);
    }
    let fed = feed_found(table, state, work, term);
    numbers::clear(work);
    fed.unwrap_or_else(refused)
}

//! Walks by plans of a few courses.

ghost use Rattle.std.specs.Prelude.{◌≡◌, ◌<◌, ◌≤◌, ◌+◌, ℕ, List, length};
ghost use Rattle.tt_instance.specs.declared.cell.Cell.{Cell};
ghost use Rattle.tt_walk.specs.Improved.{courses_of, LeadsWithin};
ghost use Rattle.tt_walk.specs.Inner.Pairs.{IsBest};
ghost use Rattle.tt_walk.specs.Inner.Standings.{IsAtBest};

use rand_pcg::Pcg32;
use tt_moves::{Step, apply, can_step};
use tt_occupancy::Occupied;
use tt_replan::Replanner;
use tt_walk::{Schedule, Span, Standing, entry_to_move};
use tt_watch::Watch;

/// The number of plans between two reports to the watch, and between two questions whether the search is to end.
const PLANS_BETWEEN: u64 = 32;

/// Makes a step if it can be made.
fn try_step(occupied: &mut Occupied<'_, '_>, step: Step)
    ensures problem { occupied.new.problem ≡ occupied.old.problem }
    ensures courses { courses_of occupied.new.entries ≡ courses_of occupied.old.entries }
    ensures reached { (t : List Cell) (n : ℕ) → LeadsWithin occupied.old.problem t n occupied.old.entries
        → LeadsWithin occupied.old.problem t (n + 1) occupied.new.entries }
{
    if can_step(occupied, step) {
        apply(occupied, step);
    }
}

/// Makes steps in turn, and skips those that can't be made.
pub fn make_steps(occupied: &mut Occupied<'_, '_>, steps: &[Step])
    ensures problem { occupied.new.problem ≡ occupied.old.problem }
    ensures courses { courses_of occupied.new.entries ≡ courses_of occupied.old.entries }
    ensures reached { LeadsWithin occupied.old.problem occupied.old.entries (length steps.now) occupied.new.entries }
{
    for step in steps {
        try_step(occupied, *step);
    }
}

/// Plans a few courses again, and makes the steps to the plan if there are at most `left` of them. Returns how many of these are used
/// up: all of them if the plan has more.
fn make_plan(
    occupied: &mut Occupied<'_, '_>,
    replanner: &mut Replanner,
    rng: &mut Pcg32,
    noise: u32,
    left: u64,
) -> u64
    requires { 0 < length occupied.old.entries }
    ensures problem { occupied.new.problem ≡ occupied.old.problem }
    ensures courses { courses_of occupied.new.entries ≡ courses_of occupied.old.entries }
    ensures within { result ≤ left }
    ensures reached { LeadsWithin occupied.old.problem occupied.old.entries result occupied.new.entries }
{
    let entry = entry_to_move(occupied, rng);
    let course = occupied.entry(entry).course;
    replanner.replan(occupied, rng, course, noise);
    let steps = replanner.steps();
    let count = steps.len() as u64;
    if count > left {
        return left;
    }
    make_steps(occupied, steps);
    count
}

/// Makes plans until there are enough or the search is to end, and stores the best timetable on the way. Each of their steps is a draw. No
/// memory is allocated.
pub fn walk_by_plans<W: Watch>(
    standing: &mut Standing<'_, '_>,
    replanner: &mut Replanner,
    rng: &mut Pcg32,
    schedule: Schedule,
    span: Span,
    watch: &mut W,
)
    requires positive { 0 < length standing.old.occupied.entries }
    requires best { (t : List Cell) × (courses_of standing.old.occupied.entries ≡ courses_of t)
        × IsBest standing.old.occupied.problem t standing.old.best }
    ensures problem { standing.new.occupied.problem ≡ standing.old.occupied.problem }
    ensures courses { courses_of standing.new.occupied.entries ≡ courses_of standing.old.occupied.entries }
    ensures best { (t : List Cell) → courses_of standing.old.occupied.entries ≡ courses_of t
        → IsBest standing.old.occupied.problem t standing.old.best → IsBest standing.old.occupied.problem t standing.new.best }
    ensures reached { IsAtBest standing.old
        → LeadsWithin standing.old.occupied.problem standing.old.occupied.entries schedule.draws standing.new.best.entries.items }
{
    let mut made: u64 = 0;
    for plan in 0..schedule.plans {
        if plan % PLANS_BETWEEN == 0 && watch.is_over() {
            break;
        }
        let noise = schedule.noise(plan, made);
        let left = schedule.draws - made;
        let steps = make_plan(&mut standing.occupied, replanner, rng, noise, left);
        made += steps;
        standing.best.keep(&standing.occupied);
        if plan % PLANS_BETWEEN == 0 {
            span.tell(watch, made, &standing.best);
        }
    }
}

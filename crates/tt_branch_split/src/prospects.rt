//! The possibilities that a path leaves to each course, in tables. Nothing is proved about them.

ghost use Rattle.std.specs.Prelude.{◌<◌, length};

use crate::leeway::Leeway;
use std::alloc::{AllocError, Global};
use tt_bits::without;
use tt_instance::Instance;
use tt_path::{Path, Who};

/// The cost of a working day that a course lacks.
const LACKING_DAY: u64 = 5;

/// The periods of a course on a day, as bits.
#[derive(Clone, Copy)]
pub struct DayPeriods {
    /// Live, and not pinned.
    pub open: u64,
    pub pinned: u64,
}

impl DayPeriods {
    /// Returns the live periods.
    pub fn live(self) -> u64 {
        self.open | self.pinned
    }
}

/// Returns the bit of a period.
pub fn bit_of(period: u32) -> u64 {
    1u64.checked_shl(period).unwrap_or(0)
}

/// The possibilities that a course has left.
#[derive(Clone, Copy)]
pub struct Prospect {
    pub leeway: Leeway,
    /// The ways to choose the periods that it still needs, and the amount by which they fall if an open period is barred or pinned.
    pub ways: u32,
    pub fall_barred: u32,
    pub fall_pinned: u32,
    /// The cost of the working days that it must lack.
    pub days: u64,
    /// The cost of the working days that it must lack after another day is lost.
    pub days_less: u64,
}

/// The possibilities that each course has left.
#[derive(Drop)]
pub struct Prospects {
    days: usize,
    /// By course and day.
    weeks: Vec<DayPeriods>,
    courses: Vec<Prospect>,
}

/// Returns the periods of a course on a day.
fn periods_of<'i, P: Path<'i>>(path: &P, course: u32, day: u32) -> DayPeriods
    requires course { course < length (P.problem path.now).courses }
    requires day { day < (P.problem path.now).days }
{
    let pinned = path.pinned_periods(Who::Course(course), day);
    DayPeriods {
        open: without(path.live_periods(course, day), pinned),
        pinned,
    }
}

/// Returns the cost of the working days that a course must lack if `live` days are live.
fn days_cost(instance: &Instance<'_>, course: u32, live: u32) -> u64
    requires { course < length instance.now.courses }
{
    let most = live.min(instance.lectures(course));
    u64::from(instance.min_days(course).saturating_sub(most)).saturating_mul(LACKING_DAY)
}

/// Adds the week of a course.
fn push_week<'i, P: Path<'i>>(
    path: &P,
    weeks: &mut Vec<DayPeriods>,
    course: u32,
) -> Result<Prospect, AllocError>
    requires { course < length (P.problem path.now).courses }
{
    let instance = path.instance();
    let mut open: u32 = 0;
    let mut pinned: u32 = 0;
    let mut live: u32 = 0;
    for day in 0..instance.days() {
        let periods = periods_of(path, course, day);
        open = open.saturating_add(periods.open.count_ones());
        pinned = pinned.saturating_add(periods.pinned.count_ones());
        live = live.saturating_add(u32::from(periods.live() != 0));
        weeks.push(periods)?;
    }
    let left = instance.lectures(course).saturating_sub(pinned);
    let leeway = Leeway { open, left };
    let ways = leeway.ways();
    Ok(Prospect {
        leeway,
        ways,
        fall_barred: ways.saturating_sub(leeway.barred().ways()),
        fall_pinned: ways.saturating_sub(leeway.pinned().ways()),
        days: days_cost(instance, course, live),
        days_less: days_cost(instance, course, live.saturating_sub(1)),
    })
}

impl Prospects {
    /// Returns the possibilities that a path leaves to each course.
    pub fn new<'i, P: Path<'i>>(alloc: Global, path: &P) -> Result<Prospects, AllocError> {
        let mut weeks = Vec::new(alloc);
        let mut courses = Vec::new(alloc);
        for course in 0..path.instance().courses() {
            courses.push(push_week(path, &mut weeks, course)?)?;
        }
        Ok(Prospects {
            days: path.instance().days() as usize,
            weeks,
            courses,
        })
    }

    /// Returns the possibilities of each course, by number.
    pub fn courses(&self) -> &[Prospect] {
        self.courses.as_slice()
    }

    /// Returns the periods of a course on a day.
    pub fn on(&self, course: u32, day: u32) -> DayPeriods {
        let place = (course as usize)
            .saturating_mul(self.days)
            .saturating_add(day as usize);
        self.weeks
            .get(place)
            .copied()
            .unwrap_or(DayPeriods { open: 0, pinned: 0 })
    }

    /// Returns the possibilities that a course has left, or `None` if the course doesn't exist.
    pub fn of(&self, course: u32) -> Option<Prospect> {
        self.courses.get(course as usize).copied()
    }

    /// Checks whether a period of a course is live and not pinned.
    pub fn is_open(&self, course: u32, day: u32, period: u32) -> bool {
        self.on(course, day).open & bit_of(period) != 0
    }
}

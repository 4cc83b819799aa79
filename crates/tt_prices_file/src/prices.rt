//! What each course gets in each period, from all groups.

use std::alloc::{AllocError, Global};
use tt_groups::{PriceRow, PricedGroup};
use tt_instance::Instance;
use tt_prices_check::is_concerned;

/// The prices of all courses in all periods, of the groups so far that concern them: the courses in turn, and the periods of each
/// day by day.
#[derive(Debug, Drop)]
pub struct PriceTable {
    pub slots: usize,
    pub sums: Vec<i64>,
}

impl PriceTable {
    ghost use Rattle.std.specs.Prelude.{◌≡◌, ℕ, ◌+◌, ◌*◌, ◌^◌, ◌<◌, ◌≤◌, ◌∷◌, ◌++◌, [], List, length, All, IfOk};
    ghost use Rattle.tt_groups.specs.Limits.{IsWithin};
    ghost use Rattle.tt_groups.specs.Prices as prices;
    ghost use Rattle.tt_groups.specs.Rows.{group_of};
    ghost use Rattle.tt_prices_file.specs.Inner.Tables.{number_at, IsPriceTable, AreRowsOf, AddsRow};

    /// Creates a table of no groups.
    pub fn new(alloc: Global, instance: &Instance<'_>) -> Result<PriceTable, AllocError>
        ensures { IfOk result (IsPriceTable instance.now []) }
    {
        let slots = instance.days() as usize * instance.periods() as usize;
        let count = instance.courses() as usize * slots;
        let sums = vec![in alloc; 0i64; count]?;
        Ok(PriceTable { slots, sums })
    }

    /// Adds the prices of a row.
    fn add_row(&mut self, row: &PriceRow)
        requires fits { row.now.course * self.old.slots + length row.now.prices.items ≤ length self.old.sums.items }
        requires within { All (IsWithin (2 ^ 52)) self.old.sums.items }
        ensures { AddsRow self.old row.now self.new }
    {
        let start = row.course as usize * self.slots;
        for (period, price) in row.prices.iter().enumerate() {
            self.sums[start + period] += i64::from(*price);
        }
    }

    /// Adds the prices of the courses that a group concerns.
    pub fn add_group(&mut self, instance: &Instance<'_>, group: &PricedGroup)
        requires periods { group.now.periods ≡ instance.now.periods }
        requires rows { AreRowsOf instance.now self.old.slots group.now.rows.items }
        requires table { (groups : List prices.PricedGroup) × IsPriceTable instance.now groups self.old × (length groups < 2 ^ 32) }
        ensures { (groups : List prices.PricedGroup) → IsPriceTable instance.now groups self.old →
            IsPriceTable instance.now (groups ++ group_of group.now ∷ []) self.new }
    {
        for row in &group.rows {
            if is_concerned(instance, group, row.course) {
                self.add_row(row);
            }
        }
    }

    /// Returns the prices of a course in each period of the week, day by day.
    pub fn prices_of(&self, course: u32) -> &[i64]
        requires { (course + 1) * self.now.slots ≤ length self.now.sums.items }
        ensures whole { length result.now ≡ self.now.slots }
        ensures numbers { (k : ℕ) → k < self.now.slots → number_at result.now k ≡ number_at self.now.sums.items (course * self.now.slots + k) }
        ensures within { (n : ℕ) → All (IsWithin n) self.now.sums.items → All (IsWithin n) result.now }
    {
        let start = course as usize * self.slots;
        &self.sums[start..start + self.slots]
    }
}

//! The names of the days and of the periods of a page, as a call is given them.

ghost use Rattle.tt_page_text.specs.Labels.{Gives};
ghost use Rattle.tt_call_answers.specs.Names.{labels_for};

use std::alloc::Global;
use tt_instance::Instance;
use tt_page_text::{Labels, LabelsFault};

/// The names of the days and of the periods of a page; days or periods without names are numbered from 1.
#[derive(Clone, Copy, Debug)]
pub struct PageNames<'a> {
    /// The names of the days, as Mon,Tue,Wed.
    pub days: Option<&'a str>,
    /// The names of the periods of a day, as 8:00,9:00.
    pub periods: Option<&'a str>,
}

/// No names.
pub const UNNAMED: PageNames<'static> = PageNames {
    days: None,
    periods: None,
};

/// Returns the labels that names spell for an instance's days and periods.
pub fn labels_for(
    alloc: Global,
    instance: &Instance<'_>,
    names: PageNames<'_>,
) -> Result<Labels, LabelsFault>
    ensures { Gives (λ labels. labels) result (labels_for instance.now names.entry) }
{
    let PageNames { days, periods } = names;
    Labels::read(alloc, instance.days(), instance.periods(), days, periods)
}

//! The names of the days and of the periods of a day.

ghost use Rattle.std.specs.Prelude.{◌≡◌, IfOk};
ghost use Rattle.std.specs.Option.{option_copied};
ghost use Rattle.tt_page_text.specs.Labels.{names_from, names_in, names_of, labels_of, no_labels, day_text, period_text, behind_text, when_text, Gives};
ghost use Rattle.tt_page_text.specs.Naming.{names_seen};
ghost use Rattle.tt_page_text.specs.Puts.{put_text};

use crate::fault::LabelsFault;
use crate::page_text::{PageText, put_token};
use crate::part::{Part, put};
use crate::shown::put_shown;
use std::alloc::{AllocError, Global};
use std::marker::Model;

/// The names of the days and of the periods of a day, or none.
#[derive(Drop)]
pub struct Labels {
    days: Vec<Vec<u8>>,
    periods: Vec<Vec<u8>>,
}

impl Model for Labels {
    ghost use Rattle.tt_page_text.specs.Labelled.{Labelled};
    ghost use Rattle.tt_page_text.specs.Naming.{names_seen};

    ghost Value = { Labelled };

    ghost view = { λ s. record { days = names_seen s.days.items; periods = names_seen s.periods.items } };
}

/// Returns the names in a text: what is between its commas.
fn names_in(alloc: Global, text: &[u8]) -> Result<Vec<Vec<u8>>, AllocError>
    ensures { IfOk result (λ names. names_seen names.items ≡ names_in text.now) }
{
    let mut names = Vec::new(alloc);
    let mut name = Vec::new(alloc);
    for byte in text {
        if *byte == b',' {
            names.push(name)?;
            name = Vec::new(alloc);
        } else {
            name.push(*byte)?;
        }
    }
    names.push(name)?;
    Ok(names)
}

/// Returns the names in a text that has to have this many, or no names if there is no text.
#[tactic(auto, unfolding(crate::specs::Labels::names_of))]
fn names_of(
    alloc: Global,
    fault: LabelsFault,
    count: u32,
    text: Option<&str>,
) -> Result<Vec<Vec<u8>>, LabelsFault>
    ensures { Gives (λ names. names_seen names.items) result (names_of fault count (option_copied text.entry)) }
{
    let Some(text) = text else {
        return Ok(Vec::new(alloc));
    };
    let names = names_in(alloc, text.as_bytes())?;
    if names.len() == count as usize {
        Ok(names)
    } else {
        Err(fault)
    }
}

impl Labels {
    /// Returns no names: days and periods are counted from 1.
    pub fn none(alloc: Global) -> Labels
        ensures { result ≡ no_labels }
    {
        Labels {
            days: Vec::new(alloc),
            periods: Vec::new(alloc),
        }
    }

    /// Reads the names of this many days and of this many periods of a day, each a text such as `Mon,Tue,Wed`, or none.
    #[tactic(auto, unfolding(crate::specs::Labels::labels_of))]
    pub fn read(
        alloc: Global,
        days: u32,
        periods: u32,
        day_names: Option<&str>,
        period_names: Option<&str>,
    ) -> Result<Labels, LabelsFault>
        // Each error comes exactly if the count of names is not that of the days, or else of the periods, or if memory ran out.
        ensures { Gives (λ labels. labels) result (labels_of days periods (option_copied day_names.entry) (option_copied period_names.entry)) }
    {
        let days = names_of(alloc, LabelsFault::Days, days, day_names)?;
        let periods = names_of(alloc, LabelsFault::Periods, periods, period_names)?;
        Ok(Labels { days, periods })
    }
}

/// Appends the name of a day, or its number from 1.
#[tactic(auto, unfolding(crate::specs::Labels::day_text))]
pub fn put_day(out: &mut PageText, labels: &Labels, day: u32)
    ensures { out.new ≡ put_text out.old (day_text labels.now day) }
{
    match labels.days.get(day as usize) {
        Some(name) => put_shown(out, name.as_slice()),
        None => put(out, &[Part::Text("Day "), Part::Count(u64::from(day) + 1)]),
    }
}

/// Appends the name of a period, or its number from 1.
#[tactic(auto, unfolding(crate::specs::Labels::period_text))]
pub fn put_period(out: &mut PageText, labels: &Labels, period: u32)
    ensures { out.new ≡ put_text out.old (period_text labels.now period) }
{
    match labels.periods.get(period as usize) {
        Some(name) => put_shown(out, name.as_slice()),
        None => put(out, &[Part::Count(u64::from(period) + 1)]),
    }
}

/// Appends the name of a period, or the word "period" and its number from 1.
#[tactic(auto, unfolding(crate::specs::Labels::behind_text))]
fn put_behind(out: &mut PageText, labels: &Labels, period: u32)
    ensures { out.new ≡ put_text out.old (behind_text labels.now period) }
{
    match labels.periods.get(period as usize) {
        Some(name) => put_shown(out, name.as_slice()),
        None => put(
            out,
            &[Part::Text("period "), Part::Count(u64::from(period) + 1)],
        ),
    }
}

/// Appends a day and a period of it.
#[tactic(auto, using(crate::proofs::Growing::puts), unfolding(crate::specs::Labels::when_text))]
pub fn put_when(out: &mut PageText, labels: &Labels, day: u32, period: u32)
    ensures { out.new ≡ put_text out.old (when_text labels.now day period) }
{
    put_day(out, labels, day);
    put_token(out, b", ");
    put_behind(out, labels, period);
}

//! The names of the days and of the periods of a day, as they are given, for strings.

ghost use Rattle.std.specs.Prelude.{◌≡◌, ℕ, Ok, IfOk};
ghost use Rattle.std.specs.Option.{option_copied};
ghost use Rattle.tt_page_text.specs.Labelled.{Labelled};
ghost use Rattle.tt_page_text.specs.Labels.{names_from, names_in, labels_of};
ghost use Rattle.tt_page_text.specs.Naming.{names_seen};
ghost use Rattle.tt_page_text.specs.Puts.{put_text};
ghost use Rattle.tt_page_text.specs.Names.{listed, names_given, quoted_day, quoted_period, quoted_when};

use crate::page_text::{PageText, put_token};
use crate::part::{Part, put};
use crate::quoted::put_quoted;
use std::alloc::{AllocError, Global};
use std::marker::Model;

/// The names of the days and of the periods of a day, or none.
#[derive(Drop)]
pub struct Names {
    days: Vec<Vec<u8>>,
    periods: Vec<Vec<u8>>,
}

impl Model for Names {
    ghost use Rattle.tt_page_text.specs.Labelled.{Labelled};
    ghost use Rattle.tt_page_text.specs.Naming.{names_seen};

    ghost Value = { Labelled };

    ghost view = { λ s. record { days = names_seen s.days.items; periods = names_seen s.periods.items } };
}

/// Returns the names in a text: what is between its commas.
fn names_in(alloc: Global, text: &[u8]) -> Result<Vec<Vec<u8>>, AllocError>
    ensures { IfOk result (λ names. names_seen names.items ≡ names_in text.now) }
{
    let mut names = Vec::new(alloc);
    let mut name = Vec::new(alloc);
    for byte in text {
        if *byte == b',' {
            names.push(name)?;
            name = Vec::new(alloc);
        } else {
            name.push(*byte)?;
        }
    }
    names.push(name)?;
    Ok(names)
}

/// Returns the names in a text, or no names if there is no text.
fn listed(alloc: Global, text: Option<&str>) -> Result<Vec<Vec<u8>>, AllocError>
    ensures { IfOk result (λ names. names_seen names.items ≡ listed (option_copied text.entry)) }
{
    match text {
        Some(text) => names_in(alloc, text.as_bytes()),
        None => Ok(Vec::new(alloc)),
    }
}

impl Names {
    /// Reads the names of the days and of the periods of a day, each a text such as `Mon,Tue,Wed`, or none.
    pub fn read(
        alloc: Global,
        day_names: Option<&str>,
        period_names: Option<&str>,
    ) -> Result<Names, AllocError>
        ensures given { IfOk result (λ names. names ≡ names_given (option_copied day_names.entry) (option_copied period_names.entry)) }
        // If the texts give labels, they are the same.
        ensures labels { (days periods : ℕ) (labels : Labelled) → labels_of days periods (option_copied day_names.entry) (option_copied period_names.entry) ≡ Ok labels →
            IfOk result (λ names. names ≡ labels) }
    {
        let days = listed(alloc, day_names)?;
        let periods = listed(alloc, period_names)?;
        Ok(Names { days, periods })
    }
}

/// Appends the name of a day, or its number from 1.
#[tactic(auto, unfolding(crate::specs::Names::quoted_day))]
fn put_quoted_day(out: &mut PageText, names: &Names, day: u32)
    ensures { out.new ≡ put_text out.old (quoted_day names.now day) }
{
    match names.days.get(day as usize) {
        Some(name) => put_quoted(out, name.as_slice()),
        None => put(out, &[Part::Text("Day "), Part::Count(u64::from(day) + 1)]),
    }
}

/// Appends the name of a period, or its number from 1.
#[tactic(auto, unfolding(crate::specs::Names::quoted_period))]
fn put_quoted_period(out: &mut PageText, names: &Names, period: u32)
    ensures { out.new ≡ put_text out.old (quoted_period names.now period) }
{
    match names.periods.get(period as usize) {
        Some(name) => put_quoted(out, name.as_slice()),
        None => put(
            out,
            &[Part::Text("period "), Part::Count(u64::from(period) + 1)],
        ),
    }
}

/// Appends a day and a period of it.
#[tactic(auto, using(crate::proofs::Growing::puts), unfolding(crate::specs::Names::quoted_when))]
pub fn put_quoted_when(out: &mut PageText, names: &Names, day: u32, period: u32)
    ensures { out.new ≡ put_text out.old (quoted_when names.now day period) }
{
    put_quoted_day(out, names, day);
    put_token(out, b", ");
    put_quoted_period(out, names, period);
}

//! Tests of what is shown about a timetable and why there is none, by the library's calls: texts, pages and reports over writers that stop.
#![tactic(auto)]

#[cfg(test)]
mod buffers;
#[cfg(test)]
mod explaining;
#[cfg(test)]
mod pages;
#[cfg(test)]
mod reports;
#[cfg(test)]
mod writers;

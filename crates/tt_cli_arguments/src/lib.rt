//! The arguments of the command line.
#![tactic(auto)]

mod arguments;
mod best;
mod checks;
mod description;
mod files;
mod inspect;
mod pages;
mod parts;
mod reports;
mod searches;
mod showing;
mod sums;

pub use arguments::{Request, parse_arguments};
pub use best::{BestRequest, BestSearch};
pub use checks::{BoundRequest, CheckRequest, UpgradeRequest, ValidateRequest};
pub use files::TimetableFiles;
pub use inspect::InspectRequest;
pub use pages::{GivenNames, GivenWeeks, PageRequest};
pub use parts::{PartSearch, PartsRequest};
pub use reports::{CalendarRequest, CalendarWish, ChangesRequest, ReportRequest, TableRequest};
pub use searches::{ImproveRequest, MAX_SOLVE_NODES, Search, SolveRequest, TreeSearch};
pub use showing::Showing;
pub use sums::SumRequest;

//! Numbers and names as people read them, and what an instance consists of.
#![tactic(auto)]

mod counts;
mod course_names;
mod shown;
mod summary;

pub use counts::{Counts, CourseCounts};
pub use course_names::put_names;
pub use shown::{Counted, Name, Noun, Shown};
pub use summary::{most_seats, periods_of_week, places, put_summary};

//! What a command uses of the system, files that are open, and the line that shows how far a command is.
#![tactic(auto)]

mod counted;
mod limit;
mod lines;
mod numbers;
mod opened;
mod pace;
mod showing;
mod terminal;
mod ticker;
mod world;
mod written;

pub use limit::TimeLimit;
pub use lines::ShownLines;
pub use opened::{Noting, Opened, open_input};
pub use pace::Pace;
pub use showing::{OpenProof, Shown, clear, open_counted, ticker_of};
pub use ticker::Ticker;
pub use world::World;
pub use written::Written;

//! Why a call has no result.
#![tactic(auto)]

mod stop;

pub use stop::Stop;

//! The cost of one entry.

ghost use Rattle.std.specs.Prelude.{◌<◌};
ghost use Rattle.tt_moves.specs.declared.limit.TheConstants.{COST_LIMIT};

/// The cost that an entry adds next to the other entries, and the cost that it removes.
#[derive(Clone, Copy)]
pub struct EntryCost {
    pub rise: u32,
    pub fall: u32,
    ghost small_rise: { rise < COST_LIMIT },
    ghost small_fall: { fall < COST_LIMIT },
}

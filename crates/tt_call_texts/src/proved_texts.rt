//! What a page with a bound is made of.

use tt_call_answers::PageNames;

/// What a page is made of besides the proofs of its bound.
#[derive(Clone, Copy, Debug)]
pub struct ProvedTexts<'a> {
    /// The bytes of the instance.
    pub instance: &'a [u8],
    /// The bytes of the solution.
    pub solution: &'a [u8],
    pub names: PageNames<'a>,
    pub style: &'a str,
}

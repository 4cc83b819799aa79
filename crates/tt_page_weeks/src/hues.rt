//! The colours of lectures.

ghost use Rattle.std.specs.Prelude.{◌≡◌};
ghost use Rattle.tt_page_text.specs.Puts.{put_text};
ghost use Rattle.tt_page_weeks.specs.Lectures.{hue_class};

use tt_page_text::{PageText, Part, put};

/// The number of hues; the style of a page has a class for each.
pub const HUES: u32 = 12;

/// Appends the class of a curriculum's hue, if there is a curriculum.
#[tactic(auto, using(tt_page_text::proofs::Growing::puts), unfolding(crate::specs::Lectures::hue_class))]
pub fn put_hue(out: &mut PageText, curriculum: Option<u32>)
    ensures { out.new ≡ put_text out.old (hue_class curriculum) }
{
    match curriculum {
        Some(number) => put(out, &[Part::Text(" hue"), Part::Number(number % HUES)]),
        None => {}
    }
}

//! The parts of a page that are the same on each.

ghost use Rattle.std.specs.Prelude.{◌≡◌};
ghost use Rattle.page_texts.specs.Parts.{text_of};

use crate::texts::{BACK_BEGIN, BACK_END, BETWEEN, FRONT, MIDDLE, SCRIPT, STYLE};

/// A part of a page. What else the page has stands between some of them.
#[derive(Clone, Copy)]
pub enum Part {
    /// What stands before the style.
    Front,
    /// The style.
    Style,
    /// What stands between the style and the classes.
    Middle,
    /// What stands before each order.
    Between,
    /// What stands before the script.
    BackBegin,
    /// The script.
    Script,
    /// What stands behind the script.
    BackEnd,
}

impl Part {
    /// Its text.
    #[tactic(auto, unfolding(crate::specs::Parts::text_of))]
    pub fn text(self) -> &'static [u8]
        ensures { result.now ≡ text_of self }
    {
        match self {
            Part::Front => FRONT,
            Part::Style => STYLE,
            Part::Middle => MIDDLE,
            Part::Between => BETWEEN,
            Part::BackBegin => BACK_BEGIN,
            Part::Script => SCRIPT,
            Part::BackEnd => BACK_END,
        }
    }
}

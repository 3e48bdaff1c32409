//! What the JSON of classes is made of.

use class_texts::Page;
use lock_modes::Text;

/// A page of classes, and what else is told of the steps.
#[derive(Clone, Copy)]
pub struct Sheet<'a> {
    /// The page. Its path is the spec file's name as it was given.
    pub page: &'a Page<'a>,
    /// The session of each step.
    pub step_sessions: &'a [u8],
    /// The statements of each step, on one line.
    pub statements: &'a [Text],
}

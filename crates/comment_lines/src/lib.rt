//! Lines of a spec file that have nothing but a comment, and what such a line asks for.
#![tactic(auto)]

mod blanks;
mod comments;
mod places;

pub use blanks::{after_blanks, trimmed};
pub use comments::{Comment, behind_label, comment_lines};

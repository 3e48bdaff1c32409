//! The text that shows one order: its moments in lanes beside each other, with the reasons of waits and rings, and what is left behind them.
#![tactic(auto)]

mod breaking;
mod characters;
mod ends;
mod frame;
mod lane;
mod lanes;
mod laws;
mod legend;
mod levels;
mod names;
mod notes;
mod orders;
mod page;
mod pages;
mod stale;
mod told;
mod words;

pub use characters::{put, put_blanks, put_line, put_number, put_shown};
pub use ends::values_line;
pub use laws::{
    broken_lines_fit, broken_texts_are_whole, shortened_names_differ, small_pages_are_narrow,
};
pub use levels::level_text;
pub use names::put_cut;
pub use notes::words_of;
pub use orders::{put_if, put_name};
pub use page::Page;
pub use pages::{push_line, push_lines, put_part, show_text};
pub use told::{push_event, step_name};

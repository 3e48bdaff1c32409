//! What is shown of an order as JSON, for scripts and for the script of a page, and the parts that other JSON is made of.
#![tactic(auto)]

mod laws;
mod levels;
mod moments;
mod page;
mod show;
mod strings;
mod texts;
mod words;

pub use laws::{pages_are_free, strings_are_whole};
pub use levels::{level_word, push_levels, push_line_numbers};
pub use moments::push_lines;
pub use page::Page;
pub use show::{push_indices, push_names, push_standing, push_steps, push_table, show_json};
pub use strings::{
    push, push_before, push_count, push_index, push_name, push_number, push_string, push_word,
};
pub use texts::push_value;

//! What the classes of a page are.

ghost use Rattle.std.specs.Prelude.{◌≡◌};
ghost use Rattle.class_texts.specs.Letters.{kind_of};

use order_classes::Grouping;

/// By what the orders of a page are grouped.
#[derive(Clone, Copy, PartialEq, Eq)]
pub enum ClassKind {
    /// By all that they show.
    Shows,
    /// By the rows, counts and errors told, and the rows left.
    Answers,
    /// By what books tell of them.
    Outcomes,
}

impl ClassKind {
    /// The kind of classes that orders of a spec are grouped into.
    pub fn of(by: Grouping) -> ClassKind
        ensures { result ≡ kind_of by }
    {
        match by {
            Grouping::Shows => ClassKind::Shows,
            Grouping::Answers => ClassKind::Answers,
        }
    }
}

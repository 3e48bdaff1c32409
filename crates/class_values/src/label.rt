//! What stands in front of members.

ghost use Rattle.std.specs.Prelude.{◌≡◌};
ghost use Rattle.class_values.specs.Labels.{label};

/// A member that a class has, or that is told of what is asked.
#[derive(Clone, Copy)]
pub enum Label {
    FirstRank,
    ClassOrders,
    Letters,
    Order,
    Transcripts,
    FinalRows,
    Open,
    QueryRows,
    Expectations,
    Queries,
}

impl Label {
    /// What stands in front of the member.
    #[tactic(auto, unfolding(crate::specs::Labels::label))]
    pub(crate) fn text(self) -> &'static str
        ensures { result.now ≡ label self }
    {
        match self {
            Label::FirstRank => "{\"first_rank\":",
            Label::ClassOrders => ",\"orders\":",
            Label::Letters => ",\"letters\":",
            Label::Order => ",\"order\":",
            Label::Transcripts => ",\"transcripts\":",
            Label::FinalRows => ",\"final_rows\":",
            Label::Open => ",\"open\":",
            Label::QueryRows => ",\"query_rows\":",
            Label::Expectations => ",\"expectations\":",
            Label::Queries => ",\"queries\":",
        }
    }
}

//! The commands by their names.

ghost use Rattle.std.specs.Prelude.{◌≡◌};
ghost use Rattle.command_line.specs.Lines.{name_in};

/// A command.
#[derive(Clone, Copy, Drop)]
pub(crate) enum Name {
    Check,
    One,
    Count,
    Rank,
    Order,
    Show,
    Classes,
    Run,
    Join,
    Missing,
    Holds,
    Report,
    Audit,
    Judge,
    Test,
}

/// The command that is spelled so.
pub(crate) fn name_of(spelled: &str) -> Option<Name>
    ensures { result ≡ name_in spelled.now }
{
    match spelled {
        "check" => Some(Name::Check),
        "one" => Some(Name::One),
        "count" => Some(Name::Count),
        "rank" => Some(Name::Rank),
        "order" => Some(Name::Order),
        "show" => Some(Name::Show),
        "classes" => Some(Name::Classes),
        "run" => Some(Name::Run),
        "join" => Some(Name::Join),
        "missing" => Some(Name::Missing),
        "holds" => Some(Name::Holds),
        "report" => Some(Name::Report),
        "audit" => Some(Name::Audit),
        "judge" => Some(Name::Judge),
        "test" => Some(Name::Test),
        _ => None,
    }
}

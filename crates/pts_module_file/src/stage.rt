ghost use Rattle.std.specs.Prelude.{◌≡◌};
ghost use Rattle.pts_module_file.specs.Lines as lines;

use pts_lines::{Declaring, DeclaringLine};
use pts_names::Name;

/// What may come next in a file.
#[derive(Clone, Copy, Debug, PartialEq, Eq)]
pub(crate) enum Stage {
    /// The line with the format's name.
    Format,
    /// The line with the module's name.
    Module,
    /// A line `uses`, or what may follow them.
    Uses,
    /// A parameter, or what may follow them.
    Parameters,
    /// A declaration, or `end`.
    Declarations,
    /// Nothing but lines that are passed over.
    Ended,
}

/// What a line is.
#[derive(Debug, Drop)]
pub(crate) enum Item {
    /// A line that is passed over.
    Passed,
    /// The line of the format, of the module's name, or the last one.
    Fixed,
    Uses(Name),
    Declared(DeclaringLine),
}

/// Whether a parameter or a declaration may stand there.
pub(crate) fn may_declare(stage: Stage, declaring: Declaring) -> bool
    ensures { result ≡ lines.may_declare stage declaring }
{
    match stage {
        Stage::Uses | Stage::Parameters => true,
        Stage::Declarations => match declaring {
            Declaring::Parameter => false,
            _ => true,
        },
        _ => false,
    }
}

/// What may come after a parameter or a declaration.
pub(crate) fn behind(declaring: Declaring) -> Stage
    ensures { result ≡ lines.behind declaring }
{
    match declaring {
        Declaring::Parameter => Stage::Parameters,
        _ => Stage::Declarations,
    }
}

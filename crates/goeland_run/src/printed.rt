//! What a run prints.

ghost use Rattle.std.specs.Prelude.{◌≡◌};
ghost use Rattle.goeland_run.specs.PrintedText.{first_text, second_text};

use goeland_report::Report;

/// What a run prints.
#[derive(Drop)]
pub(crate) enum Printed {
    /// That the words are no command.
    Usage,
    /// That the file is too large.
    TooLarge,
    /// That the file could not be read.
    ReadFault,
    /// A text that was made in the run.
    Made(Report),
}

/// What is printed first.
pub(crate) fn first_text(printed: &Printed) -> &[u8]
    ensures { result.now ≡ first_text printed.now }
{
    match printed {
        Printed::Usage => {
            b"% usage: goeland prove [OPTIONS] [FILE] or goeland bench N [--workers W]\n"
        }
        Printed::TooLarge => b"% refused TooLarge\n",
        Printed::ReadFault => b"% read fault\n",
        Printed::Made(report) => report.first.as_slice(),
    }
}

/// What is printed then. It is empty but for a proof.
pub(crate) fn second_text(printed: &Printed) -> &[u8]
    ensures { result.now ≡ second_text printed.now }
{
    match printed {
        Printed::Usage | Printed::TooLarge | Printed::ReadFault => &[],
        Printed::Made(report) => report.second.as_slice(),
    }
}

//! The command `gs3check`.
#![tactic(auto)]

ghost use Rattle.std.specs.Prelude.{◌≡◌};
ghost use Rattle.std.specs.Process.{exit_status};
ghost use Rattle.gs3_run.specs.Run.{exit_of};

use gl_outside::{HostShelf, HostSink, command_words};
use gs3_run::{CheckStatus, check_run};
use std::process::ExitCode;

/// The exit code that tells how a check ended.
fn exit_code(status: CheckStatus) -> ExitCode
    ensures { exit_status result ≡ exit_of status }
{
    match status {
        CheckStatus::Valid => ExitCode::SUCCESS,
        CheckStatus::Invalid => ExitCode::from(1),
        CheckStatus::Usage => ExitCode::from(2),
        CheckStatus::Refused => ExitCode::from(3),
        CheckStatus::ReadFault => ExitCode::from(4),
        CheckStatus::WriteFault => ExitCode::from(5),
        CheckStatus::OutOfMemory => ExitCode::from(6),
    }
}

fn main(rt: HostRuntime) -> ExitCode {
    let alloc = rt.alloc();
    let Ok(words) = command_words(&rt) else {
        return exit_code(CheckStatus::OutOfMemory);
    };
    let mut shelf = HostShelf::new(&rt);
    let mut out = HostSink::new(&rt);
    exit_code(check_run(alloc, words.as_slice(), &mut shelf, &mut out))
}

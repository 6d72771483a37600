//! The command `goeland`.
#![tactic(auto)]

ghost use Rattle.std.specs.Prelude.{◌≡◌};
ghost use Rattle.std.specs.Process.{exit_status};
ghost use Rattle.goeland_run.specs.Run.{exit_of};

use deepening::Kept;
use gl_outside::{HostShelf, HostSink, command_words};
use goeland_run::{Status, run};
use pool_run::gate::Gate;
use std::process::ExitCode;

/// A gate that holds nobody up.
struct Ajar;

impl Gate for Ajar {
    fn before(&self, _node: u128) {}
}

/// The exit code that tells how a run ended.
fn exit_code(status: Status) -> ExitCode
    ensures { exit_status result ≡ exit_of status }
{
    match status {
        Status::Proved => ExitCode::SUCCESS,
        Status::GaveUp => ExitCode::from(1),
        Status::Usage => ExitCode::from(2),
        Status::Refused => ExitCode::from(3),
        Status::ReadFault => ExitCode::from(4),
        Status::WriteFault => ExitCode::from(5),
        Status::OutOfMemory => ExitCode::from(6),
    }
}

fn main(rt: HostRuntime) -> ExitCode {
    let alloc = rt.alloc();
    let Ok(words) = command_words(&rt) else {
        return exit_code(Status::OutOfMemory);
    };
    let mut shelf = HostShelf::new(&rt);
    let mut out = HostSink::new(&rt);
    let mut kept = Kept::new(alloc);
    exit_code(run(
        &rt,
        alloc,
        words.as_slice(),
        &mut shelf,
        &mut out,
        &Ajar,
        &mut kept,
    ))
}

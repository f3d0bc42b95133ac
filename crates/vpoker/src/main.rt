// The program: its arguments, standard input and standard output, handed to the one call that does the work.
#![tactic(auto)]

ghost use Rattle.std.specs.Prelude.{◌≡◌, ◌≢◌};

mod stack;

use stack::has_stack;
use std::env;
use std::io::ErrorKind;
use std::process::ExitCode;
use vp_io::{RealSink, RealSource};
use vp_run::{Status, run};

/// The exit code where std refuses the arguments for another cause than memory, as for one that is not UTF-8.
/// No status has it.
const REFUSED_ARGUMENTS: u8 = 8;

fn main(rt: HostRuntime) -> ExitCode {
    // Before anything is asked for: a stack that cannot grow later would end the program by a signal.
    if !has_stack() {
        return ExitCode::from(Status::NoMemory.code());
    }
    let mut source = RealSource::new(rt.stdin());
    let sink = RealSink::new(rt.stdout());
    let code = match env::args(&rt) {
        Ok(arguments) => run(rt.alloc(), arguments, &mut source, sink).0,
        Err(error) => code_of_refusal(error.kind()),
    };
    ExitCode::from(code)
}

/// The exit code where std does not hand over the arguments.
fn code_of_refusal(kind: ErrorKind) -> u8
    ensures memory { kind ≡ ErrorKind.OutOfMemory → result ≡ 6 }
    ensures other { kind ≢ ErrorKind.OutOfMemory → result ≡ 8 }
{
    match kind {
        ErrorKind::OutOfMemory => Status::NoMemory.code(),
        _ => REFUSED_ARGUMENTS,
    }
}

//! The program `ats`: it reads its words, runs the command that they name over the system's files
//! and standard output, and ends with the status as its exit code. It writes nothing on standard
//! error.
#![tactic(auto)]

ghost use Rattle.std.specs.Prelude.{◌≡◌, ◌≢◌, ◌⊎◌, IfErr};

use ats_command::ats;
use ats_command_input::Status;
use ats_system::{RealFiles, RealSink};
use std::env;
use std::io::ErrorKind;
use std::process::ExitCode;
use std::rt::Env;

// The words of the program's call, without its own name.
fn words_of(rt: &(impl Env + AllocGlobal)) -> Result<Vec<String>, Status>
    ensures { IfErr result (λ status. (status ≡ Status.Words) ⊎ (status ≡ Status.NoMemory)) }
{
    match env::args(rt) {
        Ok(all) => all
            .skip(1)
            .collect(rt.alloc())
            .map_err(|_| Status::NoMemory),
        Err(e) => Err(status_of(e.kind())),
    }
}

// How a call ends whose words the system does not give: where a word is not UTF-8, they name no command.
fn status_of(kind: ErrorKind) -> Status
    ensures memory { kind ≡ ErrorKind.OutOfMemory → result ≡ Status.NoMemory }
    ensures words { kind ≢ ErrorKind.OutOfMemory → result ≡ Status.Words }
{
    if kind == ErrorKind::OutOfMemory {
        Status::NoMemory
    } else {
        Status::Words
    }
}

// Runs the command that these words name.
fn run(rt: HostRuntime, words: &[String]) -> Status {
    match RealFiles::new(rt.alloc(), rt, words) {
        Ok(mut files) => ats(rt.alloc(), words, &mut files, &mut RealSink::new(rt)),
        Err(_) => Status::NoMemory,
    }
}

fn main(rt: HostRuntime) -> ExitCode {
    let status = match words_of(&rt) {
        Ok(words) => run(rt, &words),
        Err(status) => status,
    };
    ExitCode::from(status.code())
}

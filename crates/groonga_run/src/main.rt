// groonga-run: runs a command file, and prints one reply per command.
#![tactic(auto)]

use gr_outside::{RealFiles, RealSink};
use gr_runner::{Status, main_call};
use std::io::ErrorKind;
use std::process::ExitCode;
use std::{env, io};

fn main(rt: HostRuntime) -> ExitCode {
    let status = match words(&rt) {
        Ok(words) => run(rt, &words),
        Err(refused) => refused,
    };
    // Where standard error is closed or full, the exit status alone tells how the run ended.
    if let Some(message) = status.message() {
        let _told: io::Result<()> = eprintln!(rt; "groonga-run: {message}");
    }
    ExitCode::from(status.code())
}

// Runs what the words name, over the files and the standard output of the machine.
fn run(rt: HostRuntime, words: &[String]) -> Status {
    let mut files = RealFiles::new(rt);
    let mut sink = RealSink::new(rt.stdout());
    main_call(rt.alloc(), words, &mut files, &mut sink).status
}

// The words without the program's own name. One that is no UTF-8 is refused.
fn words(rt: &HostRuntime) -> Result<Vec<String>, Status> {
    match env::args(rt) {
        Ok(all) => match all.skip(1).collect(rt.alloc()) {
            Ok(words) => Ok(words),
            Err(_) => Err(Status::NoMemory),
        },
        Err(error) if error.kind() == ErrorKind::OutOfMemory => Err(Status::NoMemory),
        Err(_) => Err(Status::Usage),
    }
}

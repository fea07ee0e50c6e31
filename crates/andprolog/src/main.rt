//! Floor: program. The program: makes the real outside, reads the command line, runs it, and ends with the status's number.
//!
//! It stands on the top call and on the outside over the system. Nothing stands above it.
#![tactic(auto)]

ghost use Rattle.std.specs.Prelude.{◌≡◌};
ghost use Rattle.std.specs.Process.{exit_status};
ghost use Rattle.ap_top.specs.Status.{number_of};

use ap_outside::{OpenGate, StdFiles, StdSink, StdSource};
use ap_top::{Status, run};
use std::alloc::Global;
use std::process::ExitCode;
use std::random::RandomSource;
use std::sync::Wait;
use std::thread::Threads;
use std::{env, io};

fn code_of(status: Status) -> ExitCode
    ensures { exit_status result ≡ number_of status }
{
    ExitCode::from(status.number())
}

fn run_words<R: Threads + Wait + RandomSource + Sync>(
    rt: &HostRuntime,
    threads: &R,
    words: &[&str],
) -> Status {
    let mut files = StdFiles::new(rt);
    let mut queries = StdSource::new(rt.stdin());
    let mut out = StdSink::new(rt.stdout());
    run(
        threads,
        rt.alloc(),
        words,
        &mut files,
        &mut queries,
        &mut out,
        &OpenGate,
    )
}

// The command line, the program's name first.
fn run_args<R: Threads + Wait + RandomSource + Sync>(
    rt: &HostRuntime,
    threads: &R,
    alloc: Global,
) -> io::Result<Status> {
    let args: Vec<String> = env::args(rt)?.collect(alloc)?;
    let mut words = Vec::new(alloc);
    for arg in &args {
        words.push(arg.as_str())?;
    }
    Ok(run_words(rt, threads, &words))
}

// How the run over the process's words and streams ends.
fn run_process<R: Threads + Wait + RandomSource + Sync>(rt: &HostRuntime, threads: &R) -> Status {
    match run_args(rt, threads, rt.alloc()) {
        Ok(status) => status,
        Err(error) if error.kind() == io::ErrorKind::OutOfMemory => Status::NoMemory,
        // A word that is no text: no command line has one.
        Err(_) => run_words(rt, threads, &[]),
    }
}

fn main(rt: HostRuntime) -> ExitCode {
    code_of(run_process(&rt, &rt))
}

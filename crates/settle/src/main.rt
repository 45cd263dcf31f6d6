// The program: reads an exercise, runs it through the library, and prints the key.
// No rule of a settlement lives here; what the script's words mean stands in `script`.
#![tactic(auto)]

mod answer;
mod block;
mod desk;
mod help;
mod input;
mod sheet;

use desk::Desk;
use help::HELP;
use input::{Request, Source, requested};
use script::{Wrong, parse};
use sheet::Sheet;
use std::alloc::Global;
use std::io::Write;
use std::process::ExitCode;
use std::{fmt, io};
use text::Lines;

// Why no key was printed, or not all of it. No `anyhow::Error` says it: that keeps 120 bytes of a message, and a long
// word with what was expected in its place takes more, as a path may.
#[derive(Drop)]
enum Failure<'a> {
    Unread(&'a Source, io::Error),
    NotUnderstood(u64, Wrong<'a>),
    Unwritten(io::Error),
}

impl fmt::Display for Failure<'_> {
    fn fmt<W: fmt::Write>(&self, f: &mut fmt::Formatter<W>) -> fmt::Result {
        match self {
            Failure::Unread(source, e) => write!(f, "cannot read {source}: {e}"),
            Failure::NotUnderstood(line, wrong) => write!(f, "line {line}: {wrong}"),
            Failure::Unwritten(e) => write!(f, "cannot write the key: {e}"),
        }
    }
}

// Only while the key is written an error of the library comes up by `?`.
impl From<io::Error> for Failure<'_> {
    fn from(e: io::Error) -> Self {
        Failure::Unwritten(e)
    }
}

// Fails at the first line that is not understood.
fn check(text: &[u8]) -> Result<(), Failure<'_>> {
    for line in Lines::of(text) {
        if let Err(wrong) = parse(line.text) {
            return Err(Failure::NotUnderstood(line.number, wrong));
        }
    }
    Ok(())
}

// Answers every command in turn.
fn run<W: Write + Drop>(heap: Global, text: &[u8], to: W) -> io::Result<()> {
    let mut sheet = Sheet::new(heap, to)?;
    let mut desk = Desk::new(heap);
    for line in Lines::of(text) {
        if let Ok(Some(command)) = parse(line.text) {
            let answer = desk.answer(command, &line)?;
            sheet.write(&line, &answer)?;
        }
    }
    sheet.finish()
}

fn exercise<'a>(rt: &HostRuntime, text: &'a [u8]) -> Result<(), Failure<'a>> {
    check(text)?;
    run(rt.alloc(), text, rt.stdout())?;
    Ok(())
}

// What went wrong is said on standard error, and the status is 1 then.
fn told<E: fmt::Display + Drop>(rt: &HostRuntime, done: Result<(), E>) -> ExitCode {
    match done {
        Ok(()) => ExitCode::SUCCESS,
        Err(e) => {
            let _ = eprintln!(rt; "settle: {e}");
            ExitCode::FAILURE
        }
    }
}

// An error that `main` returns would be printed once more, so it returns the status alone.
fn main(rt: HostRuntime) -> ExitCode {
    match requested(&rt) {
        Ok(Request::Run(source)) => match source.read(&rt) {
            Ok(text) => told(&rt, exercise(&rt, text.as_slice())),
            Err(e) => told(&rt, Err(Failure::Unread(&source, e))),
        },
        Ok(Request::Help) => match rt.print(HELP) {
            Ok(()) => ExitCode::SUCCESS,
            Err(_) => ExitCode::FAILURE,
        },
        Err(e) => told(
            &rt,
            Err(format_args!("{e}; settle --help says how to use it")),
        ),
    }
}

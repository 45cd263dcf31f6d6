// What the program was asked for, and the script that it was given.
use anyhow::bail;
use std::io::Read;
use std::{env, fmt, fs, io};

// Where a script comes from.
#[derive(Drop)]
pub enum Source {
    File(String),
    StandardInput,
}

#[derive(Drop)]
pub enum Request {
    Run(Source),
    Help,
}

pub fn requested(rt: &HostRuntime) -> anyhow::Result<Request> {
    let mut arguments = env::args(rt)?;
    let _ = arguments.next();
    let Some(path) = arguments.next() else {
        return Ok(Request::Run(Source::StandardInput));
    };
    if arguments.next().is_some() {
        bail!("one file at the most can be named");
    }
    if path.as_str() == "--help" {
        return Ok(Request::Help);
    }
    Ok(Request::Run(Source::File(path)))
}

impl Source {
    pub fn read(&self, rt: &HostRuntime) -> io::Result<Vec<u8>> {
        match self {
            Source::File(path) => fs::read(rt, path.as_str()),
            Source::StandardInput => {
                let mut text = Vec::new(rt.alloc());
                rt.stdin().read_to_end(&mut text)?;
                Ok(text)
            }
        }
    }
}

impl fmt::Display for Source {
    fn fmt<W: fmt::Write>(&self, f: &mut fmt::Formatter<W>) -> fmt::Result {
        f.write_str(match self {
            Source::File(path) => path.as_str(),
            Source::StandardInput => "standard input",
        })
    }
}

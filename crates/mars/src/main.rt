//! The program `mars`, over the real files and streams.
#![tactic(auto)]

#[cfg(test)]
mod order;
#[cfg(test)]
mod plans;
#[cfg(test)]
mod tests;

use mars_host::{FileShelf, StdSink, StdSource};
use mars_top::{Refusal, mars, say, status};
use std::io::ErrorKind;
use std::process::ExitCode;
use std::{env, io};

fn main(rt: HostRuntime) -> ExitCode {
    let mut err = StdSink::new(rt.stderr());
    let words = match words(&rt) {
        Ok(words) => words,
        Err(refused) => {
            let answer = Err(refused);
            say(&mut err, &answer);
            return ExitCode::from(status(&answer));
        }
    };
    let mut shelf = FileShelf::new(&rt);
    let mut input = StdSource::new(rt.reader());
    let mut out = StdSink::new(io::writer(&rt));
    let status = mars(
        rt.alloc(),
        &words,
        &mut shelf,
        &mut input,
        &mut out,
        &mut err,
    );
    ExitCode::from(status)
}

// The words after the program's name. Words that aren't UTF-8 are no command.
fn words(rt: &HostRuntime) -> Result<Vec<String>, Refusal> {
    let args = match env::args(rt) {
        Ok(args) => args,
        Err(error) if error.kind() == ErrorKind::InvalidData => return Err(Refusal::Usage),
        Err(_) => return Err(Refusal::Memory),
    };
    let mut words = Vec::new(rt.alloc());
    for word in args.skip(1) {
        if words.push(word).is_err() {
            return Err(Refusal::Memory);
        }
    }
    Ok(words)
}

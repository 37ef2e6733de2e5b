//! The notary's program: it reads its words, makes the objects of the real world, and hands both to a top call.
//!
//! A top call is generic over what it is lent ([`dv_outside`]'s traits), so its contract, which says what each command puts
//! and when each exit status comes, holds over files, over memory and over any other world. There are two top calls:
//! [`dv_server::run_serve`] has the line of the server, and [`dv_tool::run_tool`] those of all other commands: `request`, `init`,
//! `reissue` and `show`.
//!
//! The crate stands on `dv_server` and `dv_tool`, on `dv_exit` for the statuses, and on `dv_outside`.
#![tactic(auto)]

#[cfg(test)]
mod tests;

use dv_exit::Status;
use dv_outside::{Diag, DirShelf, FileStation, StdDiag, StdSource, SystemClock};
use dv_server::run_serve;
use dv_tool::run_tool;
use std::env;
use std::env::Env;
use std::io::ErrorKind;
use std::process::ExitCode;

// The words after the program's name, or the status where they can't be had.
fn words_of(rt: &(impl Env + AllocGlobal)) -> Result<Vec<String>, Status> {
    let words = match env::args(rt) {
        Ok(words) => words,
        Err(error) if error.kind() == ErrorKind::OutOfMemory => return Err(Status::Memory),
        // A word that is no UTF-8 is in no line.
        Err(_) => return Err(Status::Words),
    };
    words
        .skip(1)
        .collect(rt.alloc())
        .map_err(|_| Status::Memory)
}

fn main(rt: HostRuntime) -> ExitCode {
    let mut diag = StdDiag::new(&rt);
    let words = match words_of(&rt) {
        Ok(words) => words,
        Err(status) => {
            diag.line(match status {
                Status::Memory => "there is not enough memory for the words",
                _ => "a word of the command line isn't UTF-8",
            });
            return ExitCode::from(status.number());
        }
    };
    let path = match words.as_slice() {
        [_, path, ..] => path.as_str(),
        _ => "",
    };
    let mut shelf = DirShelf::new(&rt);
    let mut source = StdSource::new(rt.reader());
    let mut clock = SystemClock::new(&rt);
    let station = FileStation::new(&rt, path);
    let words = words.as_slice();
    let (status, _station) = match words {
        [command, ..] if command.as_str() == "serve" => {
            run_serve(
                &rt,
                words,
                &mut shelf,
                &mut source,
                &mut clock,
                &mut diag,
                station,
            )
        }
        _ => run_tool(
            &rt,
            words,
            &mut shelf,
            &mut source,
            &mut clock,
            &mut diag,
            station,
        ),
    };
    ExitCode::from(status)
}

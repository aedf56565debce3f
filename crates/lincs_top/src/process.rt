//! The program over its process: the words, the files and the streams of the system.

use crate::program::run;
use crate::status::{Status, exit_code};
use edge_core::{FileShelf, StdSink};
use std::env;
use std::io::ErrorKind;
use std::process::ExitCode;

// The words after the program's name, or the status if there are none to be had: out of memory, or a
// word that isn't UTF-8.
fn words(rt: &HostRuntime) -> Result<Vec<String>, Status> {
    let mut words = Vec::new(rt.alloc());
    match env::args(rt) {
        Ok(args) => {
            for word in args.skip(1) {
                if words.push(word).is_err() {
                    return Err(Status::NoMemory);
                }
            }
            Ok(words)
        }
        Err(error) if error.kind() == ErrorKind::OutOfMemory => Err(Status::NoMemory),
        Err(_) => Err(Status::Usage),
    }
}

/// Runs the program over the process that it is in, and returns its exit code.
pub fn start(rt: &HostRuntime) -> ExitCode {
    let status = match words(rt) {
        Ok(words) => {
            let mut shelf = FileShelf::new(rt);
            let mut out = StdSink::new(rt.stdout());
            let mut err = StdSink::new(rt.stderr());
            run(rt.alloc(), &words, &mut shelf, &mut out, &mut err)
        }
        Err(status) => status,
    };
    exit_code(status)
}

//! `lint` reads a document from standard input, prints it again and ends with status 0. If the bytes are not a
//! document, it prints `line N` on standard error and ends with status 1: N is the first line for which the text up to
//! it begins no document, or the last line of a text that is cut short. If memory runs out once the bytes are read, it prints
//! `memory` there, with status 1 too. If standard output fails, it ends with status 1 and prints nothing more.
//!
//! `lint --names` prints, in place of the document, what a linter advises of its families: a line for each name and each piece of
//! advice. It ends with status 0 if there is none, and else with 1.
#![tactic(auto)]

mod verdict;

use std::env;
use std::io::{Read, Write};
use std::process::ExitCode;
use verdict::{advise, lint};

fn main(rt: HostRuntime) -> anyhow::Result<ExitCode> {
    let alloc = rt.alloc();
    let mut words: Vec<String> = Vec::new(alloc);
    for word in env::args(&rt)?.skip(1) {
        words.push(word)?;
    }
    let (mut out, mut errors) = (rt.stdout(), rt.stderr());
    let mut bytes: Vec<u8> = Vec::new(alloc);
    let status = match words.as_slice() {
        [] => {
            rt.stdin().read_to_end(&mut bytes)?;
            lint(alloc, &bytes, &mut out, &mut errors)
        }
        [word] if word.as_str() == "--names" => {
            rt.stdin().read_to_end(&mut bytes)?;
            advise(alloc, &bytes, &mut out, &mut errors)
        }
        _ => {
            errors.write_all(b"usage: lint [--names]\n")?;
            2
        }
    };
    Ok(ExitCode::from(status))
}

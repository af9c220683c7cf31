//! What `lint` prints about the bytes that it read.
ghost use Rattle.std.specs.Prelude.{◌≡◌, ◌≤◌, []};
ghost use Rattle.lint.specs.Documents.{PrintsAgain, IsWithoutAdvice};

use fm_core::lint::{Warning, lint_exposition};
use fm_raw::EncodeError;
use fm_reader::{ReadError, read};
use fm_writer::encode_exposition;
use std::alloc::Global;
use std::io::Write;
use std::str;

/// Writes a document again and returns 0, or writes to `errors` why it doesn't and returns 1. If `out` fails, it returns 1 and
/// writes nothing to `errors`.
pub fn lint<W: Write, E: Write>(alloc: Global, bytes: &[u8], out: &mut W, errors: &mut E) -> u8
    ensures small { result ≤ 1 }
    ensures printed { result ≡ 0 → PrintsAgain (W.contents out.old) (W.contents out.new) bytes.now }
{
    let Ok(text) = str::from_utf8(bytes) else {
        return refuse_bytes(alloc, bytes, errors);
    };
    match read(alloc, text) {
        Ok(exposition) => match encode_exposition(alloc, out, &exposition) {
            Ok(()) => 0,
            Err(EncodeError::Memory) => refuse(errors, ReadError::Memory),
            Err(_) => 1,
        },
        Err(error) => refuse(errors, error),
    }
}

/// Writes what a linter advises of the families of a document, a line each, and returns 0 if there is nothing to write, and else 1. Bytes
/// that are no document are refused as by `lint`.
pub fn advise<W: Write, E: Write>(alloc: Global, bytes: &[u8], out: &mut W, errors: &mut E) -> u8
    ensures small { result ≤ 1 }
    ensures nothing { result ≡ 0 → IsWithoutAdvice bytes.now }
{
    let Ok(text) = str::from_utf8(bytes) else {
        return refuse_bytes(alloc, bytes, errors);
    };
    match read(alloc, text) {
        Ok(exposition) => match lint_exposition(alloc, &exposition) {
            Ok(warnings) => print_warnings(out, &warnings),
            Err(_) => refuse(errors, ReadError::Memory),
        },
        Err(error) => refuse(errors, error),
    }
}

// Writes each warning on a line of its own, and returns 0 if there is none, and else 1.
fn print_warnings<W: Write>(out: &mut W, warnings: &[Warning]) -> u8
    ensures small { result ≤ 1 }
    ensures nothing { result ≡ 0 → warnings.now ≡ [] }
{
    for warning in warnings {
        if writeln!(out, "{warning}").is_err() {
            return 1;
        }
    }
    u8::from(!warnings.is_empty())
}

// Writes which line of bytes that are no UTF-8 text has the fault. That is the line of the first byte that belongs to
// no character, or one before it.
fn refuse_bytes<E: Write>(alloc: Global, bytes: &[u8], errors: &mut E) -> u8
    ensures { result ≡ 1 }
{
    let text = front_text(bytes);
    match read(alloc, text) {
        Ok(_) => refuse(
            errors,
            ReadError::NotADocument {
                line: text.lines().count() + 1,
            },
        ),
        Err(error) => refuse(errors, error),
    }
}

// The bytes before the first one that belongs to no character.
fn front_text(bytes: &[u8]) -> &str {
    match str::from_utf8(bytes) {
        Ok(text) => text,
        Err(error) => match str::from_utf8(&bytes[..error.valid_up_to()]) {
            Ok(text) => text,
            Err(_) => "",
        },
    }
}

// Writes why nothing was read. A writer that fails doesn't change the result.
fn refuse<E: Write>(errors: &mut E, error: ReadError) -> u8
    ensures { result ≡ 1 }
{
    let _ = match error {
        ReadError::Memory => writeln!(errors, "memory"),
        ReadError::NotADocument { line } => writeln!(errors, "line {line}"),
    };
    1
}

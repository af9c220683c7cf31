//! Ways to write a registry's document, and to read one.
ghost use Rattle.fastmetrics.specs.HasHistory.{HasHistory};

use fastmetrics::format::text::{EncodeError, ReadError, collect, encode, encode_exposition, read};
use fastmetrics::registry::Registry;
use std::alloc::Global;
use std::fs;
use std::io::{self, BufWriter, Write};
use std::rt::Files;

/// The document in memory, such as for the body of a web server's response.
pub fn body(alloc: Global, registry: &Registry) -> Result<Vec<u8>, EncodeError>
    requires { HasHistory registry.now }
{
    let mut body = Vec::new(alloc);
    encode(alloc, &mut body, registry)?;
    Ok(body)
}

/// The same in two steps: `collect` visits the metrics, and the exposition may be looked at before it is written. Without a
/// family there is no body.
pub fn body_of_any(alloc: Global, registry: &Registry) -> Result<Option<Vec<u8>>, EncodeError>
    requires { HasHistory registry.now }
{
    let exposition = collect(alloc, registry)?;
    if exposition.families().is_empty() {
        return Ok(None);
    }
    let mut body = Vec::new(alloc);
    encode_exposition(alloc, &mut body, &exposition)?;
    Ok(Some(body))
}

/// The document as a text.
pub fn text(alloc: Global, registry: &Registry) -> anyhow::Result<String>
    requires { HasHistory registry.now }
{
    let body = body(alloc, registry)?;
    Ok(String::from_utf8(body)?)
}

/// Sends the document to a socket or another writer that likes large pieces.
pub fn send<W: Write + Drop>(alloc: Global, socket: W, registry: &Registry) -> anyhow::Result<()>
    requires { HasHistory registry.now }
{
    let mut writer = BufWriter::new(alloc, socket)?;
    encode(alloc, &mut writer, registry)?;
    writer.flush()?;
    Ok(())
}

/// Puts the document where a textfile collector or a web server finds it: it is written to a file beside and then renamed, so
/// that nobody reads half of it.
pub fn publish<R: Files>(
    rt: &R,
    alloc: Global,
    registry: &Registry,
    path: &str,
) -> anyhow::Result<()>
    requires { HasHistory registry.now }
{
    let document = body(alloc, registry)?;
    let mut beside = String::from_str(alloc, path)?;
    beside.push_str(".new")?;
    fs::write(rt, beside.as_str(), document.as_slice())?;
    fs::rename(rt, beside.as_str(), path)?;
    Ok(())
}

/// How many families a document of this library has.
pub fn families_of(alloc: Global, document: &str) -> Result<usize, ReadError> {
    Ok(read(alloc, document)?.families().len())
}

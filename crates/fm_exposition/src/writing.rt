// Writing a text.
ghost use Rattle.std.specs.Prelude.{OnOk, OnErr, IfErr};
ghost use Rattle.std.specs.Io.KnownBytes.{Appends};
ghost use Rattle.fm_exposition.specs.Written.{AppendsBeginning, IsWritersFault};

use fm_raw::EncodeError;
use std::io::Write;

/// Writes a text. Fails with `Write` if the writer returns an error, and with `WriteZero` if it returns 0; then only a
/// beginning of the text was written. No call is tried again, and the writer is not flushed.
pub fn write_text<W: Write>(writer: &mut W, text: &[u8]) -> Result<(), EncodeError>
    ensures ok { OnOk result (Appends (W.contents writer.old) (W.contents writer.new) text.now) }
    ensures stopped { OnErr result
        (AppendsBeginning (W.contents writer.old) (W.contents writer.new) text.now) }
    ensures fault { IfErr result IsWritersFault }
{
    let mut rest = text;
    while !rest.is_empty() {
        match writer.write(rest) {
            Ok(0) => return Err(EncodeError::WriteZero),
            Ok(count) => rest = &rest[count..],
            Err(_) => return Err(EncodeError::Write),
        }
    }
    Ok(())
}

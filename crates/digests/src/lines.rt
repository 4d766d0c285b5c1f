//! The lines of the digests.
ghost use Rattle.std.specs.Prelude.{◌≡◌, ◌++◌, ◌∷◌, OnOk, is_some};
ghost use Rattle.hex.specs.Hex.{encode_lower};
ghost use Rattle.digests.specs.Lines.{escape_of, escaped, has_escapes, line_of, mark_of};

use hex::encode_to_slice;
use std::alloc::AllocError;

/// Adds the line of a file: its digest in hex, two spaces and its name. If the name has a backslash, a
/// line feed or a carriage return, the line begins with a backslash, and these are `\\`, `\n` and `\r`.
///
/// # Errors
///
/// `AllocError` if memory is refused. A part of the line may stand there then.
pub fn push_line(line: &mut Vec<u8>, name: &[u8], digest: &[u8; 32]) -> Result<(), AllocError>
    ensures { OnOk result (line.new.items ≡ line.old.items ++ line_of name.now digest.now) }
{
    push_mark(line, name)?;
    push_hex(line, digest)?;
    line.extend_from_slice(b"  ")?;
    push_escaped(line, name)?;
    line.push(b'\n')?;
    Ok(())
}

// In a line, what stands behind the backslash in the place of a byte, if it is escaped.
fn escape_of(byte: u8) -> Option<u8>
    ensures { result ≡ escape_of byte }
{
    match byte {
        b'\\' => Some(b'\\'),
        b'\n' => Some(b'n'),
        b'\r' => Some(b'r'),
        _ => None,
    }
}

// Whether a byte of the name is escaped in its line.
fn has_escapes(name: &[u8]) -> bool
    ensures { result ≡ has_escapes name.now }
{
    name.iter().any(|byte| is_escaped(*byte))
}

fn is_escaped(byte: u8) -> bool
    ensures { result ≡ is_some (escape_of byte) }
{
    escape_of(byte).is_some()
}

// The backslash of a line whose name has escapes.
fn push_mark(line: &mut Vec<u8>, name: &[u8]) -> Result<(), AllocError>
    ensures { OnOk result (line.new.items ≡ line.old.items ++ mark_of name.now) }
{
    if has_escapes(name) {
        line.push(b'\\')?;
    }
    Ok(())
}

fn push_hex(line: &mut Vec<u8>, digest: &[u8; 32]) -> Result<(), AllocError>
    ensures { OnOk result (line.new.items ≡ line.old.items ++ encode_lower digest.now) }
{
    let mut text = [0u8; 64];
    match encode_to_slice(digest.as_slice(), &mut text) {
        Ok(()) => line.extend_from_slice(&text),
        Err(_) => unreachable!(),
    }
}

fn push_escaped(line: &mut Vec<u8>, name: &[u8]) -> Result<(), AllocError>
    ensures { OnOk result (line.new.items ≡ line.old.items ++ escaped name.now) }
{
    for byte in name {
        match escape_of(*byte) {
            Some(escape) => line.extend_from_slice(&[b'\\', escape])?,
            None => line.push(*byte)?,
        }
    }
    Ok(())
}

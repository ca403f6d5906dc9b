//! A line of a text or an answer, as it stands in a row.
ghost use Rattle.std.specs.Prelude.{◌<◌, OnOk};
ghost use Rattle.sim_rows.specs.Meant.{AppendsPlain};

use std::alloc::{AllocError, Global};

/// Appends what a line says. It stands as it is, and a line feed behind it, but for what follows a backslash: `\r` and `\t`
/// are a carriage return and a tab, `\xHH` the byte of this number in hexadecimal digits, `\#` the number of the turn of a
/// block, and any other byte itself. A backslash at the end leaves the line feed out.
pub fn append_line(
    alloc: Global,
    line: &[u8],
    turn: u32,
    out: &mut Vec<u8>,
) -> Result<(), AllocError>
    ensures plain { OnOk result (AppendsPlain line.now out.old.items out.new.items) }
{
    if line.contains(&b'\\') {
        return append_escaped(alloc, line, turn, out);
    }
    out.extend_from_slice(line)?;
    out.push(b'\n')?;
    Ok(())
}

/// What the bytes before have said.
#[derive(Clone, Copy)]
enum Behind {
    /// Nothing that is open.
    Nothing,
    Backslash,
    /// A backslash and `x`.
    Hexadecimal,
    /// These, and a first digit of this value.
    Digit(u8),
}

/// Appends what a line with backslashes says.
fn append_escaped(
    alloc: Global,
    line: &[u8],
    turn: u32,
    out: &mut Vec<u8>,
) -> Result<(), AllocError> {
    let mut behind = Behind::Nothing;
    for byte in line.iter() {
        behind = match (behind, *byte) {
            (Behind::Nothing, b'\\') => Behind::Backslash,
            (Behind::Backslash, b'x') => Behind::Hexadecimal,
            (Behind::Hexadecimal, digit) => Behind::Digit(hexadecimal(digit)),
            (Behind::Digit(high), digit) => {
                out.push((high << 4) | hexadecimal(digit))?;
                Behind::Nothing
            }
            (Behind::Backslash, b'#') => {
                let number = format!(in alloc; "{turn}")?;
                out.extend_from_slice(number.as_bytes())?;
                Behind::Nothing
            }
            (Behind::Backslash, letter) => {
                out.push(escaped(letter))?;
                Behind::Nothing
            }
            (Behind::Nothing, byte) => {
                out.push(byte)?;
                Behind::Nothing
            }
        };
    }
    if !matches!(behind, Behind::Backslash) {
        out.push(b'\n')?;
    }
    Ok(())
}

/// The byte that a letter behind a backslash says.
fn escaped(letter: u8) -> u8 {
    match letter {
        b'r' => b'\r',
        b't' => b'\t',
        other => other,
    }
}

/// The value of a hexadecimal digit; any other byte counts as 0.
fn hexadecimal(digit: u8) -> u8
    ensures bound { result < 16 }
{
    match digit {
        b'0'..=b'9' => digit - b'0',
        b'a'..=b'f' => digit - b'a' + 10,
        _ => 0,
    }
}

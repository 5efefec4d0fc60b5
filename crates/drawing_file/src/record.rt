//! The records of a drawing file: a tag of one byte, a length of two bytes, high byte first, and so many bytes.
ghost use Rattle.std.specs.Prelude.{◌≡◌};
ghost use Rattle.drawing_file.specs.Format.{read, sorted, reading, first_of, Fronts};

use crate::fault::FileFault;
use crate::paint::PaintBytes;

/// Each holds its bytes as a part of the file.
#[derive(Clone, Copy)]
pub enum Record<'a> {
    Line(&'a [u8]),
    Paint(PaintBytes<'a>),
}

/// A record, and the bytes after it.
#[derive(Clone, Copy)]
pub struct Reading<'a> {
    pub record: Record<'a>,
    pub rest: &'a [u8],
}

fn record_of<'a>(tag: u8, body: &'a [u8]) -> Result<Record<'a>, FileFault>
    ensures { read result ≡ sorted tag body.now }
{
    match tag {
        2 if body.len() % 8 == 0 => Ok(Record::Line(body)),
        2 => Err(FileFault::WrongLength),
        5 => {
            let bytes = body.as_array().ok_or(FileFault::WrongLength)?;
            Ok(Record::Paint(PaintBytes::try_from(bytes)?))
        }
        _ => Err(FileFault::UnknownTag),
    }
}

/// The first record of bytes that are not all read yet.
pub fn next_record<'a>(bytes: &'a [u8]) -> Result<Reading<'a>, FileFault>
    ensures read { reading result ≡ first_of bytes.now }
    ensures front { Fronts bytes.now (reading result) }
{
    let [tag, high, low, body @ ..] = bytes else {
        return Err(FileFault::CutShort);
    };
    let n = usize::from(u16::from_be_bytes([*high, *low]));
    match body.split_at_checked(n) {
        Some((body, rest)) => Ok(Reading {
            record: record_of(*tag, body)?,
            rest,
        }),
        None => Err(FileFault::CutShort),
    }
}

//! Fields of a size at a place, once all of their bytes have come.

ghost use Rattle.dd_record.specs.Answers.{Gives};
ghost use Rattle.dd_record.specs.Reading.{come, kept, number, coordinate};

use crate::fault::Stop;
use byteorder::{ByteOrder, LittleEndian};

/// The bytes of the field at a place.
#[tactic(auto, unfolding(crate::specs::Reading::come))]
pub(crate) fn come<const N: usize>(bytes: &[u8], at: usize) -> Result<[u8; N], Stop>
    ensures { Gives result (come at N bytes.now) }
{
    if bytes.len() < at || bytes.len() - at < N {
        return Err(Stop::Short);
    }
    let mut field = [0; N];
    field.copy_from_slice(&bytes[at..at + N]);
    Ok(field)
}

/// A value, where it keeps the rule of the field at a place.
#[tactic(auto, unfolding(crate::specs::Reading::kept))]
pub(crate) fn kept<T: Drop>(at: usize, keeps: bool, value: T) -> Result<T, Stop>
    ensures { Gives result (kept at keeps value) }
{
    if keeps {
        Ok(value)
    } else {
        Err(Stop::Bad { at })
    }
}

/// The number of one byte at a place.
pub(crate) fn u8_at(bytes: &[u8], at: usize) -> Result<u8, Stop>
    ensures { Gives result (number at 1 bytes.now) }
{
    let field: [u8; 1] = come(bytes, at)?;
    Ok(field[0])
}

/// The number of four bytes at a place.
pub(crate) fn u32_at(bytes: &[u8], at: usize) -> Result<u32, Stop>
    ensures { Gives result (number at 4 bytes.now) }
{
    let field: [u8; 4] = come(bytes, at)?;
    Ok(LittleEndian::read_u32(&field))
}

/// The number of eight bytes at a place.
pub(crate) fn u64_at(bytes: &[u8], at: usize) -> Result<u64, Stop>
    ensures { Gives result (number at 8 bytes.now) }
{
    let field: [u8; 8] = come(bytes, at)?;
    Ok(LittleEndian::read_u64(&field))
}

/// The coordinate of four bytes at a place.
pub(crate) fn i32_at(bytes: &[u8], at: usize) -> Result<i32, Stop>
    ensures { Gives result (coordinate at bytes.now) }
{
    let field: [u8; 4] = come(bytes, at)?;
    Ok(LittleEndian::read_i32(&field))
}

//! All bytes of a source.
ghost use Rattle.std.specs.Prelude.{◌≤◌, IfErr, IfOk};
ghost use Rattle.byte_io.specs.Whole.{AreAll, StopsEarly};

use crate::Source;
use std::alloc::Global;

/// The error of [`read_all`].
#[derive(Clone, Copy, Debug, PartialEq, Eq)]
pub enum ReadAllError {
    /// The source counted a fault.
    Fault,
    /// The source has more bytes than the limit.
    TooLong,
    /// There is not enough memory for the bytes.
    NoMemory,
}

/// Reads a source to its end and returns its bytes, at most `limit` of them. Each call reads at most 4096 bytes.
///
/// ```text
/// let bytes = read_all(alloc, &mut PlainSource::new(b"some bytes"), 16)?;
/// ```
///
/// # Errors
///
/// - [`ReadAllError::Fault`] if the source counted a fault.
/// - [`ReadAllError::TooLong`] if the source has more bytes than `limit`.
/// - [`ReadAllError::NoMemory`] if there is not enough memory for the bytes, which are at least one and at most
///   `limit`.
pub fn read_all<S: Source>(
    alloc: Global,
    source: &mut S,
    limit: usize,
) -> Result<Vec<u8>, ReadAllError>
    ensures all { IfOk result (λ bytes. AreAll (S.left source.old) (S.left source.new) limit bytes.items) }
    ensures early { IfErr result (λ why. StopsEarly why limit (S.left source.old) (S.left source.new)
        (S.faults source.old) (S.faults source.new)) }
    ensures later { S.faults source.old ≤ S.faults source.new }
{
    let mut bytes = Vec::new(alloc);
    let mut chunk = [0; 4096];
    'chunks: loop {
        let Ok(count) = source.read(&mut chunk) else {
            return Err(ReadAllError::Fault);
        };
        if count == 0 {
            return Ok(bytes);
        }
        if count > limit - bytes.len() {
            return Err(ReadAllError::TooLong);
        }
        if bytes.extend_from_slice(&chunk[..count]).is_err() {
            return Err(ReadAllError::NoMemory);
        }
    }
}

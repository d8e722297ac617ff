//! Reading a source to its end.
ghost use Rattle.std.specs.Prelude.{◌≡◌, ◌+◌, ◌<◌, ◌≤◌, length, vec_len, IfOk, OnOk, IsErrOf, IfSome};
ghost use Rattle.im_edge.specs.Faults.{Rose};
ghost use Rattle.im_edge.specs.Source.{IsInRoom, IsSpent, HandsOut, IfReadFailed};
ghost use Rattle.im_edge.specs.Reading.{Gave, KeepsLimit};
ghost use Rattle.im_edge.specs.declared.reading.ReadError.TheVariants as errors;

use crate::source::{Got, Source};
use std::alloc::{AllocError, Global};
use thiserror::Error;

/// The bytes of one read at most. 64 KiB is what a pipe of Linux holds.
const READ_SIZE: usize = 65536;

/// From so many bytes on a text grows by less than doubling.
const LARGE: usize = 1_048_576;

/// Why a source was not read to its end.
#[derive(Clone, Copy, Debug, PartialEq, Eq, Error)]
pub enum ReadError {
    /// The source met a fault.
    #[error("read failed")]
    Fault,
    /// More bytes came than the caller allows.
    #[error("too many bytes")]
    TooLong,
    /// There was no memory for the bytes.
    #[error("no memory")]
    NoMemory,
}

impl From<AllocError> for ReadError {
    ghost from_gives = { λ _ e. e ≡ errors.NoMemory };

    fn from(_cause: AllocError) -> ReadError {
        ReadError::NoMemory
    }
}

/// HandsOut a source to its end, and gives all its bytes, of which there may be at most `most`.
///
/// It takes at most `most + 1` bytes: the one more shows that there are too many. After an error
/// the bytes that came are lost.
pub fn read_all<S: Source>(alloc: Global, source: &mut S, most: usize) -> Result<Vec<u8>, ReadError>
    requires { most < usize.MAX }

    // The bytes are all those that were left.
    ensures content { IfOk result (λ bytes.
        Gave (S.left source.old) (S.left source.new) bytes.items) }
    ensures all { IfOk result (λ bytes.
        IfSome (S.left source.old) (λ left. left ≡ bytes.items)) }
    ensures end { OnOk result (IsSpent (S.left source.new)) }
    ensures fits { IfOk result (λ bytes. vec_len bytes ≤ most) }

    ensures limit { KeepsLimit most result (S.left source.old) (S.left source.new) }
    ensures fault { IsErrOf result ReadError.Fault
        → Rose (S.faults source.old) (S.faults source.new) }
    ensures later { S.faults source.old ≤ S.faults source.new }
{
    let mut buffer = buffer_of(alloc, READ_SIZE)?;
    read_through(alloc, source, &mut buffer, most)
}

/// A buffer of so many bytes.
fn buffer_of(alloc: Global, size: usize) -> Result<Vec<u8>, AllocError>
    ensures { IfOk result (λ buffer. vec_len buffer ≡ size) }
{
    vec![in alloc; 0; size]
}

/// HandsOut a source to its end, through a buffer.
fn read_through<S: Source>(
    alloc: Global,
    source: &mut S,
    buffer: &mut [u8],
    most: usize,
) -> Result<Vec<u8>, ReadError>
    requires some { 0 < length buffer.old }
    requires below_max { most < usize.MAX }
    ensures content { IfOk result (λ bytes.
        Gave (S.left source.old) (S.left source.new) bytes.items) }
    ensures end { OnOk result (IsSpent (S.left source.new)) }
    ensures fits { IfOk result (λ bytes. vec_len bytes ≤ most) }
    ensures limit { KeepsLimit most result (S.left source.old) (S.left source.new) }
    ensures fault { IsErrOf result ReadError.Fault
        → Rose (S.faults source.old) (S.faults source.new) }
    ensures later { S.faults source.old ≤ S.faults source.new }
{
    let mut bytes = Vec::new(alloc);
    loop {
        let allowed = most - bytes.len();
        let room = buffer.len().min(allowed + 1);
        match read_front(source, buffer, room) {
            Got::Bytes(count) if count > allowed => return Err(ReadError::TooLong),
            Got::Bytes(count) => {
                make_room(&mut bytes, count)?;
                bytes.extend_from_slice(&buffer[..count])?
            }
            Got::End => return Ok(bytes),
            Got::Failed => return Err(ReadError::Fault),
        }
    }
}

/// Makes room for so many bytes more. A large text grows by an eighth where a vector would double.
fn make_room(bytes: &mut Vec<u8>, count: usize) -> Result<(), AllocError>
    ensures items { bytes.new.items ≡ bytes.old.items }
    ensures len { vec_len bytes.new ≡ vec_len bytes.old }
{
    if bytes.len() >= LARGE && bytes.capacity() - bytes.len() < count {
        bytes.reserve_exact(count.max(bytes.len() / 8))
    } else {
        Ok(())
    }
}

/// One read into the first `room` bytes of the buffer.
fn read_front<S: Source>(source: &mut S, buffer: &mut [u8], room: usize) -> Got
    requires some { 0 < room }
    requires within { room ≤ length buffer.old }
    ensures count { IsInRoom result room }
    ensures content { HandsOut result buffer.new (S.left source.old) (S.left source.new) }
    ensures cause { IfReadFailed result (Rose (S.faults source.old) (S.faults source.new)) }
    ensures later { S.faults source.old ≤ S.faults source.new }
{
    source.read(&mut buffer[..room])
}

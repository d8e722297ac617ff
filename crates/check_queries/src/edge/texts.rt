//! Whole texts, read and written.
use im_edge::{MemSink, MemSource, ReadError, WriteFault, read_all, write_all};
use std::alloc::Global;
use std::test::Fail;

/// What reading `COMMIT` by pieces of 4 bytes comes to, if it is an error, and in how many calls. A limit is below all memory.
fn reading(alloc: Global, fails: &[u64], most: usize) -> Result<(Option<ReadError>, u64), Fail> {
    if most == usize::MAX {
        return Err(Fail::from("that is no limit"));
    }
    let mut source = MemSource::new(b"COMMIT".to_vec(alloc)?, 4, fails.to_vec(alloc)?);
    let error = match read_all(alloc, &mut source, most) {
        Ok(bytes) if bytes.as_slice() == b"COMMIT".as_slice() => None,
        Ok(_) => return Err(Fail::from("another text was read")),
        Err(error) => Some(error),
    };
    Ok((error, source.calls()))
}

#[test]
fn a_text_is_read_to_its_end_within_the_limit(rt: HostRuntime) -> Result<(), Fail> {
    let cases: [(&[u64], usize, Option<ReadError>, u64); 6] = [
        (&[], 6, None, 3),
        (&[], 5, Some(ReadError::TooLong), 2),
        (&[], 2, Some(ReadError::TooLong), 1),
        (&[2], 6, Some(ReadError::Fault), 2),
        (&[3], 6, Some(ReadError::Fault), 3),
        (&[4], 6, None, 3),
    ];
    for (fails, most, error, calls) in cases {
        assert_eq!(rt; reading(rt.alloc(), fails, most)?, (error, calls));
    }
    Ok(())
}

/// Whether writing `1,created,1,1` by pieces of 5 bytes answers so, in so many calls, and leaves this in the sink.
fn is_written(
    alloc: Global,
    fails: &[u64],
    room: usize,
    answer: Result<(), WriteFault>,
    calls: u64,
    taken: &[u8],
) -> Result<bool, Fail> {
    let mut sink = MemSink::new(alloc, 5, fails.to_vec(alloc)?);
    sink.push_room(room)?;
    let written = write_all(&mut sink, b"1,created,1,1");
    Ok(written == answer && sink.calls() == calls && sink.taken() == taken)
}

#[test]
fn a_text_is_written_whole_or_a_prefix_of_it(rt: HostRuntime) -> Result<(), Fail> {
    let alloc = rt.alloc();
    assert!(rt; is_written(alloc, &[], 13, Ok(()), 3, b"1,created,1,1")?);
    assert!(rt; is_written(alloc, &[], 12, Err(WriteFault), 3, b"1,created,")?);
    assert!(rt; is_written(alloc, &[3], 13, Err(WriteFault), 3, b"1,created,")?);
    assert!(rt; is_written(alloc, &[1], 13, Err(WriteFault), 1, b"")?);
    Ok(())
}

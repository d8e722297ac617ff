//! The doubles in memory, call by call.
use im_edge::{Got, MemSink, MemSource, Put, Sink, Source};
use im_values::NoMemory;
use std::test::Fail;

/// Whether reads into a buffer of 6 bytes answer so, one after the other, and put these at its front.
fn reads_so(source: &mut MemSource, answers: &[(Got, &[u8])]) -> bool {
    for (answer, front) in answers {
        let mut buf = [b'.'; 6];
        if source.read(&mut buf) != *answer || !buf.starts_with(front) {
            return false;
        }
    }
    true
}

#[test]
fn a_source_hands_out_pieces_and_fails_where_it_is_told(rt: HostRuntime) -> Result<(), Fail> {
    let alloc = rt.alloc();
    let mut source = MemSource::new(b"SELECT K".to_vec(alloc)?, 4, vec![in alloc; 2_u64]?);
    let answers: [(Got, &[u8]); 5] = [
        (Got::Bytes(4), b"SELE"),
        (Got::Failed, b""),
        (Got::Bytes(4), b"CT K"),
        (Got::End, b""),
        (Got::End, b""),
    ];
    assert!(rt; reads_so(&mut source, &answers));
    assert_eq!(rt; source.calls(), 5);
    Ok(())
}

#[test]
fn a_source_hands_out_no_more_than_there_is_room_for(rt: HostRuntime) -> Result<(), Fail> {
    let alloc = rt.alloc();
    let mut source = MemSource::new(b"1234567".to_vec(alloc)?, 100, Vec::new(alloc));
    let answers: [(Got, &[u8]); 3] = [
        (Got::Bytes(6), b"123456"),
        (Got::Bytes(1), b"7"),
        (Got::End, b""),
    ];
    assert!(rt; reads_so(&mut source, &answers));
    Ok(())
}

/// Whether writes answer so, one after the other. No text is empty.
fn writes_so(sink: &mut MemSink, answers: &[(&[u8], Put)]) -> bool {
    for (text, answer) in answers {
        if text.is_empty() || sink.write(text) != *answer {
            return false;
        }
    }
    true
}

#[test]
fn a_sink_takes_pieces_and_fails_where_it_is_told(rt: HostRuntime) -> Result<(), Fail> {
    let alloc = rt.alloc();
    let mut sink = MemSink::new(alloc, 5, vec![in alloc; 3_u64]?);
    sink.push_room(20)?;
    let answers: [(&[u8], Put); 4] = [
        (b"1,created", Put::Bytes(5)),
        (b"ated", Put::Bytes(4)),
        (b",1,1", Put::Failed),
        (b",1,1", Put::Bytes(4)),
    ];
    assert!(rt; writes_so(&mut sink, &answers));
    assert_eq!(rt; sink.calls(), 4);
    assert_eq!(rt; sink.taken(), b"1,created,1,1".as_slice());
    Ok(())
}

#[test]
fn room_adds_up_and_is_refused_past_all_memory(rt: HostRuntime) -> Result<(), Fail> {
    let mut sink = MemSink::new(rt.alloc(), 8, Vec::new(rt.alloc()));
    sink.push_room(3)?;
    sink.push_room(2)?;
    assert!(rt; writes_so(&mut sink, &[(b"12345", Put::Bytes(5)), (b"6", Put::Failed)]));
    sink.push_room(1)?;
    assert_eq!(rt; sink.push_room(usize::MAX), Err(NoMemory));
    assert!(rt; writes_so(&mut sink, &[(b"6", Put::Bytes(1))]));
    Ok(())
}

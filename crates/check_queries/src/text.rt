use im_group::Cell;
use im_replies::{Body, Fault, How, Records, Reply, Served};
use im_text::{Passage, Waiting};
use im_values::{List, Name};
use std::alloc::Global;
use std::test::Fail;

/// Whether line 5 is reported so.
fn is_reported(alloc: Global, reply: &Reply, text: &str) -> Result<bool, Fail> {
    let mut waiting = Waiting::with_room(alloc, 64)?;
    waiting.put(alloc, Passage::Line(5, reply))?;
    Ok(waiting.bytes() == text.as_bytes())
}

#[test]
fn memory_and_a_full_store_are_refused_with_their_values(rt: HostRuntime) -> Result<(), Fail> {
    let alloc = rt.alloc();
    let memory = Reply::refusal(alloc, Fault::Memory { k: 2 });
    assert!(rt; is_reported(alloc, &memory, "5,error,99,memory,2\n")?);
    let full = Fault::StoreFull { need: 96, left: 8 };
    let full = Reply::settled(alloc, 3, Body::Error(full));
    assert!(rt; is_reported(alloc, &full, "at,5,3\n5,error,18,store-full,96,8\n")?);
    Ok(())
}

#[test]
fn a_pruned_extent_has_a_word_of_its_own(rt: HostRuntime) -> Result<(), Fail> {
    let alloc = rt.alloc();
    let how = How::Pruned { scn: 2, stale: 1 };
    let mark = Served {
        place: 13,
        extent: 4,
        how,
    };
    let reply = Reply {
        place: Some(13),
        marks: List::of(vec![in alloc; mark]?),
        body: Body::Step { extent: 4, how },
    };
    let text = "at,5,13\nmark,5,13,4,pruned,2,1\n5,served,4,pruned,2,1\n";
    assert!(rt; is_reported(alloc, &reply, text)?);
    Ok(())
}

#[test]
fn a_text_with_a_line_feed_is_quoted(rt: HostRuntime) -> Result<(), Fail> {
    let alloc = rt.alloc();
    let cells = vec![in alloc; Cell::Text(Name::of(alloc, b"a\nb")?)]?;
    let records = Records::of(vec![in alloc; cells]?);
    let reply = Reply::settled(alloc, 3, Body::Answer { scn: 2, records });
    assert!(rt; is_reported(alloc, &reply, "at,5,3\n5,answer,2,1\n5,row,\"a\nb\"\n")?);
    Ok(())
}

/// Whether this is how the end of worker 17 is reported.
fn is_end(alloc: Global, lacks: u64, place: Option<u64>, text: &str) -> Result<bool, Fail> {
    let mut waiting = Waiting::with_room(alloc, 64)?;
    let end = Passage::Worker {
        who: 17,
        over: false,
        lacks,
        place,
    };
    waiting.put(alloc, end)?;
    Ok(waiting.bytes() == text.as_bytes())
}

#[test]
fn a_spent_worker_reports_its_lacks_and_its_last_idle_place(rt: HostRuntime) -> Result<(), Fail> {
    let alloc = rt.alloc();
    assert!(rt; is_end(alloc, 0, Some(9), "worker,17,spent,0,9\n")?);
    assert!(rt; is_end(alloc, 2, None, "worker,17,spent,2,\n")?);
    Ok(())
}

#[test]
fn replies_wait_behind_each_other_whatever_room_there_is(rt: HostRuntime) -> Result<(), Fail> {
    let alloc = rt.alloc();
    for piece in [0, 16, 65536] {
        let mut waiting = Waiting::with_room(alloc, piece)?;
        for _ in 0..1000 {
            waiting.put(alloc, Passage::Reply(4, &Body::RolledBack))?;
        }
        assert_eq!(rt; waiting.bytes().len(), 14_000);
        waiting.clear();
        assert!(rt; waiting.bytes().is_empty());
        waiting.put(alloc, Passage::Reply(5, &Body::Begun { scn: 4 }))?;
        assert!(rt; waiting.bytes() == b"5,begun,4\n".as_slice());
    }
    Ok(())
}

// What no clause says: that the calls succeed where memory is ample, and examples of each answer.
use pz_io::{
    FailingFiles, Files, Got, MemFiles, NarrowFiles, NarrowSink, Opened, OsFiles, OsSink,
    ReadError, RoomySink, Sink, WriteError, read_all, write_all,
};
use std::alloc::{AllocError, Global};
use std::process::Abort;
use std::test::Fail;

fn entry_of(alloc: Global, name: &str, text: &str) -> Result<(String, Vec<u8>), AllocError> {
    let bytes = Vec::from_slice(alloc, text.as_bytes())?;
    Ok((String::from_str(alloc, name)?, bytes))
}

// Files in memory with these names and texts.
fn files_of(alloc: Global, entries: &[(&str, &str)]) -> Result<MemFiles, AllocError> {
    let mut all = Vec::new(alloc);
    for (name, text) in entries {
        all.push(entry_of(alloc, name, text)?)?;
    }
    Ok(MemFiles::new(all))
}

// A call of files, with the answer that is wanted. A read has room for two bytes, and is to hand
// out this text.
#[derive(Clone, Copy)]
enum Call {
    Open(&'static str, Opened),
    Read(Got, &'static str),
}

fn expect_answers<F: Files>(rt: &impl Abort, files: &mut F, calls: &[Call]) {
    for call in calls {
        match call {
            Call::Open(name, wanted) => assert_eq!(rt; files.open(name), *wanted, "{name}"),
            Call::Read(wanted, text) => expect_read(rt, files, *wanted, text),
        }
    }
}

fn expect_read<F: Files>(rt: &impl Abort, files: &mut F, wanted: Got, text: &str) {
    let mut buf = [0u8; 2];
    let got = files.read(&mut buf);
    assert_eq!(rt; got, wanted, "{text}");
    if let Got::Bytes(n) = got {
        assert_eq!(rt; &buf[..n], text.as_bytes());
    }
}

#[test]
fn a_file_is_read_in_several_reads_and_a_refused_open_leaves_nothing(
    rt: HostRuntime,
) -> Result<(), Fail> {
    let mut files = files_of(rt.alloc(), &[("a", "xy"), ("b", "pqrst")])?;
    expect_answers(
        &rt,
        &mut files,
        &[
            Call::Read(Got::End, "nothing was opened yet"),
            Call::Open("b", Opened::Ready),
            Call::Read(Got::Bytes(2), "pq"),
            Call::Read(Got::Bytes(2), "rs"),
            Call::Read(Got::Bytes(1), "t"),
            Call::Read(Got::End, ""),
            Call::Read(Got::End, ""),
            Call::Open("a", Opened::Ready),
            Call::Open("c", Opened::Failed),
            Call::Read(Got::End, "no file is open"),
        ],
    );
    Ok(())
}

#[test]
fn a_listed_call_fails_and_the_next_one_answers_again(rt: HostRuntime) -> Result<(), Fail> {
    let inner = files_of(rt.alloc(), &[("a", "xyz")])?;
    let mut files = FailingFiles::new(inner, vec![in rt.alloc(); 2, 4, 6]?);
    expect_answers(
        &rt,
        &mut files,
        &[
            Call::Open("a", Opened::Ready),
            Call::Read(Got::Failed, "call 2"),
            Call::Read(Got::Bytes(2), "xy"),
            Call::Read(Got::Failed, "call 4"),
            Call::Read(Got::Bytes(1), "z"),
            Call::Open("a", Opened::Failed),
            Call::Read(Got::End, "no file is open"),
        ],
    );
    Ok(())
}

// Reads the named file within the limit, and compares what comes.
fn expect_read_all<F: Files>(
    rt: &impl Abort,
    alloc: Global,
    files: &mut F,
    name: &str,
    limit: usize,
    wanted: Result<&str, ReadError>,
) {
    match (read_all(alloc, files, name, limit), wanted) {
        (Ok(bytes), Ok(text)) => assert_eq!(rt; bytes.as_slice(), text.as_bytes(), "{name}"),
        (Err(error), Err(wanted)) => assert_eq!(rt; error, wanted, "{name}"),
        _ => assert!(rt; false, "another answer for {name} within {limit}"),
    }
}

#[test]
fn a_file_within_its_limit_is_read_whole(rt: HostRuntime) -> Result<(), Fail> {
    let mut files = files_of(
        rt.alloc(),
        &[
            ("a", "xyz"),
            ("empty", ""),
            ("twice", "first"),
            ("twice", "second"),
        ],
    )?;
    let rows: [(&str, usize, Result<&str, ReadError>); 6] = [
        ("a", 3, Ok("xyz")),
        ("a", 2, Err(ReadError::TooLong)),
        ("empty", 0, Ok("")),
        ("twice", 9, Ok("first")),
        ("b", 9, Err(ReadError::Fault)),
        ("", 9, Err(ReadError::Fault)),
    ];
    for (name, limit, wanted) in rows {
        expect_read_all(&rt, rt.alloc(), &mut files, name, limit, wanted);
    }
    Ok(())
}

// Many reads of the buffer's length, and one of a part of it.
#[test]
fn a_long_file_is_read_whole(rt: HostRuntime) -> Result<(), Fail> {
    let text = "0123456789".repeat(rt.alloc(), 1000)?;
    let mut files = files_of(rt.alloc(), &[("long", text.as_str())])?;
    expect_read_all(
        &rt,
        rt.alloc(),
        &mut files,
        "long",
        10_000,
        Ok(text.as_str()),
    );
    expect_read_all(
        &rt,
        rt.alloc(),
        &mut files,
        "long",
        9_999,
        Err(ReadError::TooLong),
    );
    Ok(())
}

// Reading `xyz` takes three calls: the open, a read of all bytes, and one that answers End.
#[test]
fn each_failing_call_of_a_read_is_a_fault_and_none_an_end(rt: HostRuntime) -> Result<(), Fail> {
    for call in 1..4u64 {
        let inner = files_of(rt.alloc(), &[("a", "xyz")])?;
        let mut files = FailingFiles::new(inner, vec![in rt.alloc(); call]?);
        expect_read_all(&rt, rt.alloc(), &mut files, "a", 3, Err(ReadError::Fault));
        expect_read_all(&rt, rt.alloc(), &mut files, "a", 3, Ok("xyz"));
    }
    Ok(())
}

// Files that hand out one byte at a time, of which a read is given room for two.
#[test]
fn narrow_files_hand_out_no_more_than_their_most(rt: HostRuntime) -> Result<(), Fail> {
    let inner = files_of(rt.alloc(), &[("a", "xyz")])?;
    let failing = FailingFiles::new(inner, vec![in rt.alloc(); 3, 7]?);
    let mut files = NarrowFiles::new(failing, 1);
    expect_answers(
        &rt,
        &mut files,
        &[
            Call::Open("a", Opened::Ready),
            Call::Read(Got::Bytes(1), "x"),
            Call::Read(Got::Failed, "call 3"),
            Call::Read(Got::Bytes(1), "y"),
            Call::Read(Got::Bytes(1), "z"),
            Call::Read(Got::End, ""),
            Call::Open("a", Opened::Failed),
            Call::Open("b", Opened::Failed),
            Call::Read(Got::End, "no file is open"),
        ],
    );
    Ok(())
}

// Reading `xyz` in parts of one byte takes five calls, and in parts of two bytes four.
#[test]
fn a_file_is_read_whole_in_small_parts_or_not_at_all(rt: HostRuntime) -> Result<(), Fail> {
    for (most, calls) in [(1, 5u64), (2, 4), (3, 3), (usize::MAX, 3)] {
        for call in 1..7u64 {
            let inner = files_of(rt.alloc(), &[("a", "xyz")])?;
            let failing = FailingFiles::new(inner, vec![in rt.alloc(); call]?);
            let mut files = NarrowFiles::new(failing, most);
            let wanted = if call <= calls {
                Err(ReadError::Fault)
            } else {
                Ok("xyz")
            };
            expect_read_all(&rt, rt.alloc(), &mut files, "a", 3, wanted);
        }
    }
    Ok(())
}

fn expect_writes<W: Sink>(rt: &impl Abort, sink: &mut W, rows: &[(&str, Result<(), WriteError>)]) {
    for (piece, wanted) in rows {
        assert_eq!(rt; write_all(sink, piece.as_bytes()), *wanted, "{piece}");
    }
}

#[test]
fn a_sink_with_little_room_takes_a_front(rt: HostRuntime) -> Result<(), Fail> {
    let mut sink = RoomySink::new(rt.alloc(), 5, Vec::new(rt.alloc()))?;
    expect_writes(
        &rt,
        &mut sink,
        &[
            ("abc", Ok(())),
            ("defg", Err(WriteError::Fault { sent: 2 })),
            ("h", Err(WriteError::Fault { sent: 0 })),
            ("", Ok(())),
        ],
    );
    assert_eq!(rt; sink.bytes(), b"abcde".as_slice());
    Ok(())
}

#[test]
fn a_listed_write_fails_with_what_was_sent(rt: HostRuntime) -> Result<(), Fail> {
    let mut sink = RoomySink::new(rt.alloc(), 9, vec![in rt.alloc(); 2]?)?;
    expect_writes(
        &rt,
        &mut sink,
        &[
            ("abc", Ok(())),
            ("def", Err(WriteError::Fault { sent: 0 })),
            ("ghi", Ok(())),
        ],
    );
    assert_eq!(rt; sink.bytes(), b"abcghi".as_slice());
    Ok(())
}

// Writes of one piece are numbered one by one: `abc` takes two of them.
#[test]
fn a_narrow_sink_takes_no_more_than_its_most(rt: HostRuntime) -> Result<(), Fail> {
    let inner = RoomySink::new(rt.alloc(), 6, vec![in rt.alloc(); 4]?)?;
    let mut sink = NarrowSink::new(inner, 2);
    expect_writes(
        &rt,
        &mut sink,
        &[
            ("abc", Ok(())),
            ("defg", Err(WriteError::Fault { sent: 2 })),
            ("hi", Err(WriteError::Fault { sent: 1 })),
            ("", Ok(())),
        ],
    );
    assert_eq!(rt; sink.bytes(), b"abcdeh".as_slice());
    Ok(())
}

#[test]
fn the_system_refuses_a_name_that_no_file_has_and_takes_output(rt: HostRuntime) {
    let mut files = OsFiles::new(rt);
    let missing = "no file has this name";
    expect_answers(
        &rt,
        &mut files,
        &[
            Call::Open("no file has this name", Opened::Failed),
            Call::Read(Got::End, "no file is open"),
        ],
    );
    expect_read_all(
        &rt,
        rt.alloc(),
        &mut files,
        missing,
        9,
        Err(ReadError::Fault),
    );
    let mut sink = OsSink::new(rt);
    expect_writes(&rt, &mut sink, &[("a line of output\n", Ok(()))]);
}

//! Texts, places, and the objects of the outside.

use opal_base::{
    Bytes, DecodeFault, Failed, FileFault, Files, MemFiles, MemSink, MemSource, Names, NullSink,
    Pos, Sink, Source, SourceFault, StdSink, StdSource, SureFiles, SureSource, Units, line_col,
    read_all, units_to_utf8, utf8_to_units, write_all,
};
use std::alloc::Global;
use std::io;
use std::process::Abort;
use std::test::Fail;

fn units_of(alloc: Global, units: &[u16]) -> Result<Units, Fail> {
    Ok(Units::from_vec(units.to_vec(alloc)?))
}

// The cases of RFC 3629, section 7, and the first and last of each row of table 3-7 of the Unicode standard.
#[test]
fn decodes_utf8(rt: HostRuntime) -> Result<(), Fail> {
    let cases: [(&[u8], &[u16]); 14] = [
        (&[], &[]),
        (
            &[0x41, 0xe2, 0x89, 0xa2, 0xce, 0x91, 0x2e],
            &[0x41, 0x2262, 0x391, 0x2e],
        ),
        (
            &[0xed, 0x95, 0x9c, 0xea, 0xb5, 0xad, 0xec, 0x96, 0xb4],
            &[0xd55c, 0xad6d, 0xc5b4],
        ),
        (
            &[0xef, 0xbb, 0xbf, 0xf0, 0xa3, 0x8e, 0xb4],
            &[0xfeff, 0xd84c, 0xdfb4],
        ),
        (&[0x00], &[0x00]),
        (&[0x7f], &[0x7f]),
        (&[0xc2, 0x80], &[0x80]),
        (&[0xdf, 0xbf], &[0x7ff]),
        (&[0xe0, 0xa0, 0x80], &[0x800]),
        (&[0xed, 0x9f, 0xbf], &[0xd7ff]),
        (&[0xee, 0x80, 0x80], &[0xe000]),
        (&[0xef, 0xbf, 0xbf], &[0xffff]),
        (&[0xf0, 0x90, 0x80, 0x80], &[0xd800, 0xdc00]),
        (&[0xf4, 0x8f, 0xbf, 0xbf], &[0xdbff, 0xdfff]),
    ];
    for (bytes, want) in cases {
        let units = utf8_to_units(rt.alloc(), bytes)?;
        assert_eq!(rt; units.as_slice(), want);
        assert_eq!(rt; units_to_utf8(rt.alloc(), &units)?.as_slice(), bytes);
    }
    Ok(())
}

#[test]
fn refuses_what_is_no_utf8(rt: HostRuntime) {
    let cases: [(&[u8], usize); 21] = [
        (&[0x61, 0xff], 1),
        (&[0xfe], 0),
        (&[0x80], 0),
        (&[0xc0, 0x80], 0),
        (&[0xc1, 0xbf], 0),
        (&[0xe0, 0x80, 0x80], 0),
        (&[0xe0, 0x9f, 0xbf], 0),
        (&[0xf0, 0x80, 0x80, 0x80], 0),
        (&[0xf0, 0x8f, 0xbf, 0xbf], 0),
        (&[0xed, 0xa0, 0x80], 0),
        (&[0xed, 0xbf, 0xbf], 0),
        (&[0xf4, 0x90, 0x80, 0x80], 0),
        (&[0xf5, 0x80, 0x80, 0x80], 0),
        (&[0xc3], 0),
        (&[0xe2, 0x89], 0),
        (&[0xf0, 0x9f, 0x98], 0),
        (&[0xc3, 0x28], 0),
        (&[0x61, 0xc3, 0xa9, 0xc3], 3),
        (&[0x61, 0xe2, 0x89, 0xa2, 0xed, 0xa0, 0x80, 0x61], 4),
        (&[0xf0, 0x9f, 0x98, 0x80, 0xe2, 0x82, 0x61], 4),
        (&[0xf0, 0x9f, 0x98, 0x80, 0x0a, 0x80], 5),
    ];
    for (bytes, offset) in cases {
        match utf8_to_units(rt.alloc(), bytes) {
            Ok(_) => assert!(rt; false, "accepted with offset {offset} wanted"),
            Err(fault) => assert_eq!(rt; fault, DecodeFault::BadByte { offset }),
        }
    }
}

#[test]
fn writes_utf8(rt: HostRuntime) -> Result<(), Fail> {
    let cases: [(&[u16], &[u8]); 6] = [
        (&[0xd83d, 0xde00, 0x0a], &[0xf0, 0x9f, 0x98, 0x80, 0x0a]),
        (&[0xd800], &[0xef, 0xbf, 0xbd]),
        (&[0x41, 0xdc00], &[0x41, 0xef, 0xbf, 0xbd]),
        (&[0xdc00, 0xd800], &[0xef, 0xbf, 0xbd, 0xef, 0xbf, 0xbd]),
        (&[0xd83d, 0x41], &[0xef, 0xbf, 0xbd, 0x41]),
        (
            &[0xd83d, 0xd83d, 0xde00],
            &[0xef, 0xbf, 0xbd, 0xf0, 0x9f, 0x98, 0x80],
        ),
    ];
    for (units, want) in cases {
        let units = units_of(rt.alloc(), units)?;
        assert_eq!(rt; units_to_utf8(rt.alloc(), &units)?.as_slice(), want);
    }
    Ok(())
}

#[test]
fn finds_places(rt: HostRuntime) -> Result<(), Fail> {
    let text: &[u16] = &[0x61, 0x0a, 0x0a, 0xd83d, 0xde00, 0x0d, 0x62];
    let cases: [(&[u16], usize, u32, u32); 9] = [
        (&[], 0, 0, 0),
        (text, 0, 0, 0),
        (text, 1, 0, 1),
        (text, 2, 1, 0),
        (text, 3, 2, 0),
        (text, 4, 2, 1),
        (text, 5, 2, 2),
        (text, 6, 2, 3),
        (text, 7, 2, 4),
    ];
    for (units, at, line, col) in cases {
        let units = units_of(rt.alloc(), units)?;
        assert!(rt; units.len() < 100 && at <= units.len());
        assert_eq!(rt; line_col(&units, at), Pos { line, col }, "at {at}");
    }
    Ok(())
}

#[test]
fn keeps_lists(rt: HostRuntime) -> Result<(), Fail> {
    let mut bytes = Bytes::new(rt.alloc());
    bytes.push(7)?;
    bytes.extend(&[8, 9])?;
    assert_eq!(rt; bytes.as_slice(), [7, 8, 9].as_slice());
    assert_eq!(rt; bytes.len(), 3);
    assert_eq!(rt; bytes.at(2), 9);

    let mut units = Units::new(rt.alloc());
    units.push(0x61)?;
    units.push(0xd800)?;
    assert_eq!(rt; units.len(), 2);
    assert_eq!(rt; units.at(1), 0xd800);
    let copy = units.try_clone()?;
    assert_eq!(rt; copy.as_slice(), [0x61, 0xd800].as_slice());

    let mut names = Names::new(rt.alloc());
    names.push(units)?;
    names.push(Units::new(rt.alloc()))?;
    assert_eq!(rt; names.len(), 2);
    assert_eq!(rt; names.at(0).as_slice(), copy.as_slice());
    Ok(())
}

// What calls with a buffer of two bytes answer, and the bytes that they gave.
fn read_in_pairs<S: Source>(
    rt: &(impl Abort + AllocGlobal),
    source: &mut S,
    answers: &[Result<usize, Failed>],
    want: &[u8],
) -> Result<(), Fail> {
    let mut given = Vec::new(rt.alloc());
    for answer in answers {
        let mut buf = [0; 2];
        let got = source.read(&mut buf);
        assert_eq!(rt; got, *answer);
        if let Ok(count) = got {
            given.extend_from_slice(&buf[..count])?;
        }
    }
    assert_eq!(rt; given.as_slice(), want);
    Ok(())
}

#[test]
fn reads(rt: HostRuntime) -> Result<(), Fail> {
    let bytes: &[u8] = &[1, 2, 3, 4, 5];
    let to_end = [Ok(2), Ok(2), Ok(1), Ok(0)];
    let failing = vec![in rt.alloc(); 1, 4]?;
    read_in_pairs(
        &rt,
        &mut MemSource::new(rt.alloc(), bytes.to_vec(rt.alloc())?, failing),
        &[Ok(2), Err(Failed), Ok(2), Ok(1), Err(Failed), Ok(0)],
        bytes,
    )?;
    read_in_pairs(
        &rt,
        &mut SureSource::new(rt.alloc(), bytes.to_vec(rt.alloc())?),
        &to_end,
        bytes,
    )?;
    read_in_pairs(&rt, &mut StdSource::new(bytes), &to_end, bytes)
}

// Inputs of 0, 5 and 5000 bytes, read with a bound that they keep, reach or pass.
#[test]
fn reads_all(rt: HostRuntime) -> Result<(), Fail> {
    for (len, most, read) in [
        (0, 0, 0),
        (5, 6, 5),
        (5, 5, 5),
        (5, 4, 5),
        (5, 3, 4),
        (5000, 4999, 5000),
        (5000, 4095, 4096),
        (5000, 9000, 5000),
    ] {
        let mut source = SureSource::new(rt.alloc(), vec![in rt.alloc(); 7; len]?);
        assert_eq!(rt;
            read_all(rt.alloc(), &mut source, most).map(|bytes| bytes.len()),
            Ok(read)
        );
    }
    for (call, answer) in [
        (0, Err(SourceFault::Failed)),
        (1, Err(SourceFault::Failed)),
        (2, Ok(5)),
    ] {
        let bytes = vec![in rt.alloc(); 7; 5]?;
        let mut source = MemSource::new(rt.alloc(), bytes, vec![in rt.alloc(); call]?);
        assert_eq!(rt;
            read_all(rt.alloc(), &mut source, 9).map(|bytes| bytes.len()),
            answer
        );
    }
    Ok(())
}

#[test]
fn writes(rt: HostRuntime) -> Result<(), Fail> {
    let failing = vec![in rt.alloc(); 1]?;
    let mut sink = MemSink::new(rt.alloc(), 3, failing);
    for (piece, answer, taken) in [
        ("hello", Ok(3), "hel"),
        ("lo", Err(Failed), "hel"),
        ("lo", Ok(2), "hello"),
        ("", Ok(0), "hello"),
    ] {
        assert_eq!(rt; sink.write(piece.as_bytes()), answer);
        assert_eq!(rt; sink.taken(), taken.as_bytes());
    }
    assert_eq!(rt; NullSink::new().write(b"hello"), Ok(5));
    Ok(())
}

#[test]
fn writes_all(rt: HostRuntime) -> Result<(), Fail> {
    for (failing, answer, taken) in [(9, Ok(()), "hello"), (3, Err(Failed), "hel")] {
        let mut sink = MemSink::new(rt.alloc(), 1, vec![in rt.alloc(); failing]?);
        assert_eq!(rt; write_all(&mut sink, b"hello"), answer);
        assert_eq!(rt; sink.taken(), taken.as_bytes());
    }
    assert_eq!(rt; write_all(&mut NullSink::new(), b"hello"), Ok(()));

    let mut room = [0u8; 4];
    let mut sink = StdSink::new(io::Cursor::new(&mut room[..]));
    assert_eq!(rt; write_all(&mut sink, b"abc"), Ok(()));
    assert_eq!(rt; write_all(&mut sink, b"de"), Err(Failed));
    drop(sink);
    assert_eq!(rt; room.as_slice(), b"abcd".as_slice());
    Ok(())
}

fn reads_as<F: Files>(
    rt: &(impl Abort + AllocGlobal),
    files: &mut F,
    name: &str,
    most: usize,
    want: Result<&[u8], FileFault>,
) {
    match (files.read(rt.alloc(), name, most), want) {
        (Ok(bytes), Ok(want)) => assert_eq!(rt; bytes.as_slice(), want),
        (Err(fault), Err(want)) => assert_eq!(rt; fault, want),
        _ => assert!(rt; false, "{name}, {most}"),
    }
}

#[test]
fn reads_files(rt: HostRuntime) -> Result<(), Fail> {
    let mut files = MemFiles::new(rt.alloc(), vec![in rt.alloc(); 1]?);
    let mut sure = SureFiles::new(rt.alloc());
    for (name, bytes) in [("a", b"old"), ("b", b"two"), ("a", b"new")] {
        files.insert(name.to_string(rt.alloc())?, bytes.to_vec(rt.alloc())?)?;
        sure.insert(name.to_string(rt.alloc())?, bytes.to_vec(rt.alloc())?)?;
    }
    let cases: [(&str, usize, Result<&[u8], FileFault>); 5] = [
        ("a", 10, Ok(b"new")),
        ("b", 2, Ok(b"tw")),
        ("b", 3, Ok(b"two")),
        ("a", 0, Ok(b"")),
        ("ab", 10, Err(FileFault::Absent)),
    ];
    reads_as(&rt, &mut files, "a", 10, Ok(b"new"));
    reads_as(&rt, &mut files, "a", 10, Err(FileFault::Failed));
    for (name, most, want) in cases {
        reads_as(&rt, &mut files, name, most, want);
        reads_as(&rt, &mut sure, name, most, want);
    }
    Ok(())
}

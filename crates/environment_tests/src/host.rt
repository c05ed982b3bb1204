//! An environment in memory: files that have no fault, an input in pieces and torn puts; and the adapters over std on a reader and
//! a writer that fail.

use crate::doubles::{Broken, Full};
use host_io::{
    Failed, Files, LoadFile, MemSink, MemSource, PutEnd, Sink, Source, StdSink, StdSource,
    SureFiles,
};
use std::alloc::Global;
use std::test::Fail;

/// Whether the file of that name holds this text and no more.
fn is_held<F: Files>(alloc: Global, files: &mut F, name: &str, text: &str) -> bool {
    match files.load(alloc, name, text.len()) {
        Ok(bytes) => bytes.as_slice() == text.as_bytes(),
        Err(_) => false,
    }
}

#[test]
fn sure_files_hold_every_name(rt: HostRuntime) -> Result<(), Fail> {
    let mut files = SureFiles::new(rt.alloc(), Vec::new(rt.alloc()));
    assert!(rt; is_held(rt.alloc(), &mut files, "hello", ""));
    // saved anew, and over what was saved
    for text in ["A\n", "DEF"] {
        assert!(rt; files.save(rt.alloc(), "hello", text.as_bytes()).is_ok());
        assert!(rt; is_held(rt.alloc(), &mut files, "hello", text));
    }
    assert!(rt; matches!(files.load(rt.alloc(), "hello", 2), Err(LoadFile::TooLong)));
    assert!(rt; is_held(rt.alloc(), &mut files, "hell", ""));
    assert!(rt; files.calls() == 7);
    Ok(())
}

/// Five bytes in pieces of two, of which the second read fails.
#[test]
fn an_input_comes_in_pieces(rt: HostRuntime) -> Result<(), Fail> {
    let bytes = Vec::from_slice(rt.alloc(), b"hello")?;
    let fails = Vec::from_slice(rt.alloc(), &[1])?;
    let mut source = MemSource::in_pieces(bytes, 2, fails);
    let mut buffer = *b"...";
    assert!(rt; source.read(&mut buffer) == Ok(2));
    assert!(rt; &buffer == b"he.");
    assert!(rt; source.read(&mut buffer) == Err(Failed));
    assert!(rt; source.read(&mut buffer[..1]) == Ok(1));
    assert!(rt; source.left() == b"lo".as_slice());
    assert!(rt; source.read(&mut buffer) == Ok(2));
    assert!(rt; &buffer == b"lo.");
    assert!(rt; source.read(&mut buffer) == Ok(0));
    assert!(rt; source.is_closed());
    Ok(())
}

/// Two puts that fail: the first takes two bytes of its piece, and the second all of a piece that has no more.
#[test]
fn puts_are_torn(rt: HostRuntime) -> Result<(), Fail> {
    let cuts = Vec::from_slice(rt.alloc(), &[(1, 2), (2, 9)])?;
    let mut sink = MemSink::torn(rt.alloc(), cuts);
    assert!(rt; sink.put(b"abc") == Ok(()));
    assert!(rt; sink.put(b"") == Ok(()));
    assert!(rt; sink.put(b"defg") == Err(PutEnd::Failed));
    assert!(rt; sink.put(b"hi") == Err(PutEnd::Failed));
    assert!(rt; sink.put(b"j") == Ok(()));
    assert!(rt; sink.bytes() == b"abcdehij".as_slice());
    assert!(rt; sink.faults() == 2);
    Ok(())
}

/// A reader that fails each time, and a writer that takes nothing of a piece that has bytes.
#[test]
fn adapters_tell_and_count_faults(rt: HostRuntime) {
    let mut source = StdSource::new(Broken);
    assert!(rt; source.read(&mut []) == Ok(0));
    assert!(rt; source.read(&mut [0u8]) == Err(Failed));
    assert!(rt; source.read(&mut [0u8]) == Err(Failed));
    assert!(rt; source.faults() == 2);
    let mut sink = StdSink::new(Full);
    assert!(rt; sink.put(b"") == Ok(()));
    assert!(rt; sink.put(b"a") == Err(PutEnd::Failed));
    assert!(rt; sink.faults() == 1);
}

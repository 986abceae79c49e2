//! Folders and sinks, in memory and real.

use host_edge::{DiskFolder, Failed, Folder, LoadNo, MemFolder, MemSink, Sink, StdSink};
use std::alloc::{AllocError, Global};
use std::fs;
use std::fs::Permissions;
use std::os::unix::fs::{PermissionsExt, symlink};
use std::test::*;

#[test]
fn what_is_stored_is_loaded(rt: HostRuntime) -> Result<(), AllocError> {
    let name = "host_edge_test.bin";
    let words = [name, "b", name];
    let alloc = rt.alloc();
    let mut folder = DiskFolder::new(rt, &words);
    for size in [0, 1, 4096, 5000] {
        let bytes: Vec<u8> = vec![in alloc; 7; size]?;
        assert!(rt; folder.store(name, &bytes) == Ok(()));
        let found = folder.load(name, size as u64, alloc);
        assert!(rt; found.is_ok_and(|found| found.as_slice() == bytes.as_slice()));
    }
    assert!(rt; folder.load(name, 4999, alloc).err() == Some(LoadNo::TooLong));
    assert!(rt; folder.load("no such file", 9, alloc).err() == Some(LoadNo::Failed));
    assert!(rt; folder.store("no/such/folder", b"x") == Err(Failed));
    assert!(rt; fs::remove_file(&rt, name).is_ok());
    Ok(())
}

#[test]
fn a_stored_file_keeps_its_mode(rt: HostRuntime) {
    let (name, link, alloc) = ("mode_test.bin", "mode_test.link", rt.alloc());
    let words = [name, link];
    assert!(rt; fs::write(&rt, name, b"old bytes").is_ok());
    assert!(rt; fs::set_permissions(&rt, name, Permissions::from_mode(0o640)).is_ok());
    assert!(rt; symlink(&rt, name, link).is_ok());
    let mut folder = DiskFolder::new(rt, &words);
    for (to, bytes) in [(name, b"new"), (link, b"by!")] {
        assert!(rt; folder.store(to, bytes) == Ok(()));
        let found = folder.load(name, 9, alloc);
        assert!(rt; found.is_ok_and(|found| found.as_slice() == bytes.as_slice()));
        let mode = fs::metadata(&rt, name).map(|found| found.permissions().mode() & 0o777);
        assert!(rt; mode.is_ok_and(|mode| mode == 0o640));
    }
    let kept = fs::symlink_metadata(&rt, link).is_ok_and(|found| found.file_type().is_symlink());
    assert!(rt; kept, "a link is written through");
    for device in ["/dev/full", "."] {
        assert!(rt; folder.store(device, b"x") == Err(Failed));
    }
    assert!(rt; fs::remove_file(&rt, link).is_ok() && fs::remove_file(&rt, name).is_ok());
}

/// Whether a file holds these bytes.
fn holds(folder: &mut DiskFolder<'_>, name: &str, bytes: &[u8], alloc: Global) -> bool {
    let found = folder.load(name, 9, alloc);
    found.is_ok_and(|found| found.as_slice() == bytes)
}

/// Another name of the old file shows that it was replaced, and not written in place.
#[test]
fn a_file_is_replaced_as_a_whole(rt: HostRuntime) {
    let (link, old, alloc) = ("whole_test.link", "whole_test.old", rt.alloc());
    let letters = [b'n'; 255];
    let long = std::str::from_utf8(letters.as_slice()).unwrap_or("");
    for name in ["whole_test.bin", long] {
        let words = [name, link, old];
        let mut folder = DiskFolder::new(rt, &words);
        assert!(rt; folder.store(name, b"old") == Ok(()));
        assert!(rt; fs::hard_link(&rt, name, old).is_ok() && symlink(&rt, name, link).is_ok());
        for (to, bytes) in [(link, b"one".as_slice()), (name, b"two".as_slice())] {
            assert!(rt; folder.store(to, bytes) == Ok(()));
            assert!(rt; holds(&mut folder, name, bytes, alloc));
            assert!(rt; holds(&mut folder, old, b"old", alloc));
        }
        for gone in [name, link, old] {
            assert!(rt; fs::remove_file(&rt, gone).is_ok());
        }
    }
}

#[test]
fn calls_in_turn(rt: HostRuntime) {
    let mut folder = MemFolder::new(rt.alloc());
    assert!(rt; folder.put_file("a", b"hello") == Ok(()));
    assert!(rt; folder.fail_at(5) == Ok(()));
    assert!(rt; folder.fail_at(6) == Ok(()));
    let loads = [
        ("a", 5, None),
        ("a", u64::MAX, None),
        ("a", 4, Some(LoadNo::TooLong)),
        ("b", 9, Some(LoadNo::Failed)),
        ("a", 9, Some(LoadNo::Failed)),
    ];
    for (name, limit, want) in loads {
        match folder.load(name, limit, rt.alloc()) {
            Ok(bytes) => {
                assert!(rt; bytes.as_slice() == b"hello".as_slice());
                assert!(rt; want == None);
            }
            Err(no) => assert!(rt; want == Some(no)),
        }
    }
    for (name, text, want) in [
        ("b", "x", Err(Failed)),
        ("b", "xy", Ok(())),
        ("a", "", Ok(())),
    ] {
        assert!(rt; folder.store(name, text.as_bytes()) == want);
        let kept = folder
            .file(name)
            .is_some_and(|bytes| bytes == text.as_bytes());
        assert!(rt; kept == want.is_ok());
    }
}

#[test]
fn the_second_put_fails(rt: HostRuntime) {
    let mut sink = MemSink::new(rt.alloc());
    assert!(rt; sink.fail_at(2) == Ok(()));
    for (bytes, want) in [("one ", Ok(())), ("two ", Err(Failed)), ("three", Ok(()))] {
        assert!(rt; sink.put(bytes.as_bytes()) == want);
    }
    assert!(rt; sink.bytes() == b"one three".as_slice());
}

#[test]
fn bytes_come_in_order(rt: HostRuntime) {
    let mut full = [0; 7];
    let mut sink = StdSink::new(full.as_mut_slice());
    assert!(rt; sink.put(b"one ") == Ok(()));
    assert!(rt; sink.put(b"") == Ok(()));
    assert!(rt; sink.put(b"two") == Ok(()));
    assert!(rt; sink.put(b"!") == Err(Failed));
    assert!(rt; full.as_slice() == b"one two".as_slice());
}

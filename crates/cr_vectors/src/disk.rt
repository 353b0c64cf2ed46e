//! A file in memory: that its calls succeed where memory suffices, and what they then give.

use cr_disk::MemoryFile;
use sqlite_disk::Disk;
use std::test::Fail;

#[test]
fn a_file_in_memory_gives_back_what_was_written(rt: HostRuntime) -> Result<(), Fail> {
    let mut file = MemoryFile::new(rt.alloc());
    assert!(rt; matches!(file.len(), Ok(0)));
    assert!(rt; file.write_at(2, b"abc").is_ok());
    assert!(rt; matches!(file.len(), Ok(5)));
    let mut whole = [9u8; 5];
    assert!(rt; file.read_at(0, &mut whole).is_ok());
    assert_eq!(rt; whole, *b"\0\0abc");
    assert!(rt; file.set_len(3).is_ok());
    assert!(rt; file.sync().is_ok());
    assert!(rt; file.read_at(0, &mut whole).is_err());
    let mut last = [9u8; 1];
    assert!(rt; file.read_at(2, &mut last).is_ok());
    assert_eq!(rt; last, *b"a");
    Ok(())
}

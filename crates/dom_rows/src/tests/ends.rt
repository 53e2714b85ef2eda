use dom_io::{
    CleanShelf, CleanSink, DiskShelf, MemShelf, MemSink, OutSink, Shelf, ShelfFault, Sink,
    SinkFault, read_first,
};
use dom_words::{Name, Seq};
use std::io::{Read, Write};
use std::test::Fail;
use std::{fs, io, process};

#[test]
fn memory_ends(rt: HostRuntime) -> Result<(), Fail> {
    let mut bytes = Seq::new(rt.alloc());
    for byte in b"hello" {
        bytes.push(*byte)?;
    }
    let mut files = Seq::new(rt.alloc());
    files.push((Name::of(rt.alloc(), b"greeting")?, bytes))?;
    let mut shelf = MemShelf::new(rt.alloc(), files, vec![in rt.alloc(); 3]?);
    let short = shelf.read("greeting", 4).map_err(|_| "read")?;
    assert_eq!(rt; short.as_slice(), b"hell".as_slice());
    assert!(rt; shelf.read("nothing", 4).is_err());
    assert!(rt; shelf.read("greeting", 4).is_err());
    assert!(rt; shelf.read("greeting", 9).is_ok());

    let mut sink = MemSink::new(rt.alloc(), 6, vec![in rt.alloc(); (2, 1)]?)?;
    assert_eq!(rt; sink.put(b"ab"), Ok(()));
    assert_eq!(rt; sink.put(b"cd"), Err(SinkFault));
    assert_eq!(rt; sink.put(b"efgh"), Err(SinkFault));
    assert_eq!(rt; sink.held(), b"abcefg".as_slice());
    Ok(())
}

#[test]
fn clean_ends(rt: HostRuntime) -> Result<(), Fail> {
    let mut bytes = Seq::new(rt.alloc());
    bytes.push(7)?;
    bytes.push(8)?;
    let mut files = Seq::new(rt.alloc());
    files.push((Name::of(rt.alloc(), b"numbers")?, bytes))?;
    let mut shelf = CleanShelf::new(rt.alloc(), files);
    let some = shelf.read("numbers", 1).map_err(|_| "read")?;
    assert_eq!(rt; some.as_slice(), [7].as_slice());
    let none = shelf.read("nothing", 1).map_err(|_| "read")?;
    assert_eq!(rt; none.len(), 0);
    assert_eq!(rt; CleanSink::new().put(b"ab"), Ok(()));
    Ok(())
}

// A file of this process alone.
fn own_path(rt: &HostRuntime, name: &str) -> Result<String, Fail> {
    let number = process::id(rt.process());
    Ok(format!(in rt.alloc(); "/tmp/dom_io_{number}_{name}")?)
}

#[test]
fn disk_shelf_reads_a_real_file(rt: HostRuntime) -> Result<(), Fail> {
    let path = own_path(&rt, "shelf")?;
    fs::write(&rt, path.as_str(), b"five bytes")?;
    let mut shelf = DiskShelf::new(&rt, rt.alloc());
    let short = shelf.read(path.as_str(), 4).map_err(|_| "read")?;
    assert_eq!(rt; short.as_slice(), b"five".as_slice());
    let all = shelf.read(path.as_str(), 99).map_err(|_| "read")?;
    assert_eq!(rt; all.as_slice(), b"five bytes".as_slice());
    fs::remove_file(&rt, path.as_str())?;
    let absent = shelf.read(path.as_str(), 4);
    assert!(rt; matches!(absent, Err(ShelfFault::Failed)));
    Ok(())
}

#[test]
fn out_sink_writes_a_real_output(rt: HostRuntime) -> Result<(), Fail> {
    let path = own_path(&rt, "sink")?;
    {
        let mut sink = OutSink::new(fs::create(&rt, path.as_str())?);
        assert_eq!(rt; sink.put(b"one,"), Ok(()));
        assert_eq!(rt; sink.put(b"two"), Ok(()));
    }
    let text = fs::read_to_string(&rt, path.as_str())?;
    assert_eq!(rt; text.as_str(), "one,two");
    fs::remove_file(&rt, path.as_str())?;
    let mut full = OutSink::new(fs::create(&rt, "/dev/full")?);
    assert_eq!(rt; full.put(b"one"), Err(SinkFault));
    Ok(())
}

// Takes so many bytes at a write, and counts its flushes, which succeed or not.
#[derive(Drop)]
struct Slow {
    held: Vec<u8>,
    step: usize,
    flushes: u32,
    is_flushed: bool,
}

impl Write for Slow {
    fn write(&mut self, buf: &[u8]) -> io::Result<usize> {
        let count = self.step.min(buf.len());
        self.held
            .extend_from_slice(&buf[..count])
            .map_err(|_| io::Error::from(io::ErrorKind::OutOfMemory))?;
        Ok(count)
    }

    fn flush(&mut self) -> io::Result<()> {
        self.flushes = self.flushes.saturating_add(1);
        if self.is_flushed {
            Ok(())
        } else {
            Err(io::ErrorKind::Other.into())
        }
    }
}

// Gives so many bytes at a read, and fails at the read with a number, from 0, if there is one.
#[derive(Drop)]
struct Pieces {
    bytes: Vec<u8>,
    place: usize,
    step: usize,
    before: Option<u32>,
}

impl Read for Pieces {
    fn read(&mut self, buf: &mut [u8]) -> io::Result<usize> {
        if self.before == Some(0) {
            return Err(io::ErrorKind::Other.into());
        }
        self.before = self.before.map(|n| n.saturating_sub(1));
        let rest = self.bytes.get(self.place..).unwrap_or(&[]);
        let count = self.step.min(buf.len()).min(rest.len());
        buf[..count].copy_from_slice(&rest[..count]);
        self.place = self.place.saturating_add(count);
        Ok(count)
    }
}

const SHORT_WRITES: [(usize, bool, Result<(), SinkFault>, &str, u32); 4] = [
    (1, true, Ok(()), "one,", 1),
    (3, true, Ok(()), "one,", 1),
    (9, false, Err(SinkFault), "one,", 1),
    (0, true, Err(SinkFault), "", 0),
];

#[test]
fn short_writes(rt: HostRuntime) -> Result<(), Fail> {
    for (step, is_flushed, answer, held, flushes) in SHORT_WRITES {
        let mut out = Slow {
            held: Vec::new(rt.alloc()),
            step,
            flushes: 0,
            is_flushed,
        };
        assert_eq!(rt; OutSink::new(&mut out).put(b"one,"), answer);
        assert_eq!(rt; out.held.as_slice(), held.as_bytes());
        assert_eq!(rt; out.flushes, flushes);
    }
    Ok(())
}

const SHORT_READS: [(usize, Option<u32>, usize, Option<&str>); 6] = [
    (1, None, 4, Some("five")),
    (3, None, 4, Some("five")),
    (3, None, 99, Some("five bytes")),
    (1, Some(3), 4, None),
    (1, Some(4), 4, Some("five")),
    (0, None, 4, Some("")),
];

#[test]
fn short_reads(rt: HostRuntime) -> Result<(), Fail> {
    for (step, before, most, answer) in SHORT_READS {
        let mut pieces = Pieces {
            bytes: Vec::from_slice(rt.alloc(), b"five bytes")?,
            place: 0,
            step,
            before,
        };
        match read_first(&mut pieces, rt.alloc(), most) {
            Ok(bytes) => {
                assert_eq!(rt; Some(bytes.as_slice()), answer.map(|text| text.as_bytes()));
                assert_eq!(rt; pieces.place, bytes.len());
            }
            Err(fault) => {
                assert_eq!(rt; fault, ShelfFault::Failed);
                assert!(rt; answer.is_none());
            }
        }
    }
    Ok(())
}

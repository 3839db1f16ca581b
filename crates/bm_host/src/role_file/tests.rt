use super::{Identity, RoleFile};
use std::alloc::Global;
use std::fs::{Metadata, OpenFile};
use std::io;
use std::io::{ErrorKind, Read, Seek, SeekFrom, Write};
use std::test::Fail;

/// A file in memory that grows at its end alone. A read or a write moves at most so many bytes.
#[derive(Drop)]
struct Slow {
    bytes: Vec<u8>,
    at: usize,
    most: usize,
}

impl Read for Slow {
    fn read(&mut self, buf: &mut [u8]) -> io::Result<usize> {
        let Some(rest) = self.bytes.get(self.at..) else {
            return Ok(0);
        };
        let count = rest.len().min(buf.len()).min(self.most);
        buf[..count].copy_from_slice(&rest[..count]);
        self.at += count;
        Ok(count)
    }
}

impl Write for Slow {
    fn write(&mut self, buf: &[u8]) -> io::Result<usize> {
        let count = buf.len().min(self.most);
        self.bytes.extend_from_slice(&buf[..count])?;
        Ok(count)
    }

    fn flush(&mut self) -> io::Result<()> {
        Ok(())
    }
}

impl Seek for Slow {
    fn seek(&mut self, to: SeekFrom) -> io::Result<u64> {
        match to {
            SeekFrom::Start(place) => self.at = place as usize,
            SeekFrom::End(_) => self.at = self.bytes.len(),
            SeekFrom::Current(_) => return Err(io::Error::from(ErrorKind::Unsupported)),
        }
        Ok(self.at as u64)
    }
}

impl OpenFile for Slow {
    fn metadata(&self) -> io::Result<Metadata> {
        Ok(Metadata::of_file(self.bytes.len() as u64))
    }

    fn set_len(&self, _size: u64) -> io::Result<()> {
        Err(io::Error::from(ErrorKind::Unsupported))
    }

    fn sync_all(&self) -> io::Result<()> {
        Ok(())
    }

    fn sync_data(&self) -> io::Result<()> {
        Ok(())
    }
}

fn slow_file(bytes: Vec<u8>, most: usize) -> RoleFile<Slow> {
    let identity = Identity {
        device: 0,
        inode: 0,
    };
    let file = Slow { bytes, at: 0, most };
    RoleFile::new(file, identity, SeekFrom::Start(0))
}

// How many bytes the file takes at a time, what is appended, and written at its end, whether that goes well, and what
// it holds. A file that takes nothing fails a write of bytes, and not one of none; one that takes a byte at a time gets
// all.
const WRITES: [(usize, &[u8], bool, &[u8]); 4] = [
    (0, b"", true, b"0123"),
    (0, b"ab", false, b"0123"),
    (1, b"ab", true, b"0123ab"),
    (4, b"ab", true, b"0123ab"),
];

fn written_so(
    alloc: Global,
    most: usize,
    from: &[u8],
    taken: bool,
    held: &[u8],
) -> Result<bool, Fail> {
    let mut appended = slow_file(b"0123".to_vec(alloc)?, most);
    let mut placed = slow_file(b"0123".to_vec(alloc)?, most);
    Ok(
        appended.write_next(from).is_ok() == taken
            && placed.write_at(4, from).is_ok() == taken
            && appended.file.bytes.as_slice() == held
            && placed.file.bytes.as_slice() == held,
    )
}

#[test]
fn writes_in_pieces(rt: HostRuntime) -> Result<(), Fail> {
    for (i, &(most, from, taken, held)) in WRITES.iter().enumerate() {
        assert!(rt; written_so(rt.alloc(), most, from, taken, held)?, "row {i}");
    }
    Ok(())
}

// How many bytes the file gives at a time, the place from which 3 of its 4 bytes are read, and whether that fills all.
// An end inside is an error.
const READS: [(usize, u64, bool); 5] = [
    (1, 1, true),
    (1, 2, false),
    (3, 1, true),
    (3, 2, false),
    (0, 1, false),
];

// Whether the read goes so. The next bytes are the first then, whether it filled all or not.
fn read_so(alloc: Global, most: usize, place: u64, filled: bool) -> Result<bool, Fail> {
    let mut file = slow_file(b"0123".to_vec(alloc)?, most);
    let mut into = [0; 3];
    let mut next = [b'.'; 1];
    let first = if most == 0 { b'.' } else { b'0' };
    let went = file.read_at(place, &mut into).is_ok() == filled && (!filled || into == *b"123");
    file.read_next(&mut next)?;
    Ok(went && next == [first])
}

#[test]
fn reads_in_pieces(rt: HostRuntime) -> Result<(), Fail> {
    for (i, &(most, place, filled)) in READS.iter().enumerate() {
        assert!(rt; read_so(rt.alloc(), most, place, filled)?, "row {i}");
    }
    Ok(())
}

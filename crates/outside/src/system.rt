ghost use Rattle.std.specs.Prelude.{None, ◌≤◌, IfOk, length};

use crate::folder::{Folder, TakeError};
use crate::sink::{Failed, Sink};
use fl_base::Name;
use std::alloc::Global;
use std::io::{ErrorKind, Read};
use std::rt::Files;
use std::{fs, str};

/// How many bytes are read at once.
const PIECE: usize = 4096;

/// The system's files. It tells no contents, and counts a fault at each failure of the system.
#[derive(Drop)]
pub struct FileFolder<'a, R: Files> {
    rt: &'a R,
    faults: u64,
}

impl<'a, R: Files> FileFolder<'a, R> {
    pub fn new(rt: &'a R) -> FileFolder<'a, R> {
        FileFolder { rt, faults: 0 }
    }
}

fn open<R: Files>(rt: &R, name: &Name) -> Result<R::File, TakeError> {
    let path = match str::from_utf8(name.bytes()) {
        Ok(path) => path,
        Err(_) => return Err(TakeError::Failed),
    };
    match fs::open(rt, path) {
        Ok(file) => Ok(file),
        Err(error) => match error.kind() {
            ErrorKind::NotFound | ErrorKind::NotADirectory => Err(TakeError::Missing),
            _ => Err(TakeError::Failed),
        },
    }
}

/// All that a file holds. It reads at most one byte more than the limit.
fn read_to<F: Read>(alloc: Global, file: &mut F, limit: u64) -> Result<Vec<u8>, TakeError>
    ensures { IfOk result (λ bytes. length bytes.items ≤ limit) }
{
    let mut bytes = Vec::new(alloc);
    let mut piece = [0u8; PIECE];
    for _ in 0..u64::MAX {
        let size = (limit - bytes.len() as u64).min(PIECE as u64 - 1) as usize + 1;
        let count = match file.read(&mut piece[..size]) {
            Ok(count) => count,
            Err(_) => return Err(TakeError::Failed),
        };
        if count == 0 {
            return Ok(bytes);
        }
        if bytes.extend_from_slice(&piece[..count]).is_err() {
            return Err(TakeError::Memory);
        }
        if bytes.len() as u64 > limit {
            return Err(TakeError::TooLong);
        }
    }
    Err(TakeError::Failed)
}

fn read_file<R: Files>(rt: &R, alloc: Global, name: &Name, limit: u64) -> Result<Vec<u8>, TakeError>
    ensures { IfOk result (λ bytes. length bytes.items ≤ limit) }
{
    let mut file = open(rt, name)?;
    read_to(alloc, &mut file, limit)
}

impl<R: Files> Folder for FileFolder<'_, R> {
    ghost state = { λ folder. record { contents = None; faults = folder.faults } };

    fn take(&mut self, alloc: Global, name: &Name, limit: u64) -> Result<Vec<u8>, TakeError> {
        match read_file(self.rt, alloc, name, limit) {
            Err(TakeError::Failed) => {
                self.faults = self.faults.saturating_add(1);
                Err(TakeError::Failed)
            }
            answer => answer,
        }
    }
}

/// Standard output. It doesn't tell what it took, and counts a fault at each failure of the system.
#[derive(Drop)]
pub struct StdSink<'a, R: Print> {
    rt: &'a R,
    faults: u64,
}

impl<'a, R: Print> StdSink<'a, R> {
    pub fn new(rt: &'a R) -> StdSink<'a, R> {
        StdSink { rt, faults: 0 }
    }
}

/// Writes a piece whole. A write that takes nothing of what is left is a failure.
fn write_whole<R: Print>(rt: &R, piece: &[u8]) -> Result<(), Failed> {
    let mut at = 0;
    while at < piece.len() {
        match rt.write_some(&piece[at..]) {
            Ok(0) | Err(_) => return Err(Failed),
            Ok(count) => at += count,
        }
    }
    Ok(())
}

impl<R: Print> Sink for StdSink<'_, R> {
    ghost state = { λ sink. record { taken = None; faults = sink.faults } };

    fn put(&mut self, piece: &[u8]) -> Result<(), Failed> {
        match write_whole(self.rt, piece) {
            Ok(()) => Ok(()),
            Err(Failed) => {
                self.faults = self.faults.saturating_add(1);
                Err(Failed)
            }
        }
    }
}

#[cfg(test)]
mod tests {
    use super::*;
    use std::fmt::Display;
    use std::io;
    use std::test::Fail;

    /// Names with a limit, what comes of them, and the faults up to there.
    static TAKES: [(&[u8], u64, &str, u64); 8] = [
        (b"outside_takes_files.tmp", 10_000, "taken", 0),
        (b"outside_takes_files.tmp", u64::MAX, "taken", 0),
        (b"outside_takes_files.tmp", 9_999, "too long", 0),
        (b"outside_takes_files.tmp", 0, "too long", 0),
        (b"outside_no_such_file.tmp", 9, "missing", 0),
        (b"outside_takes_files.tmp/below", 9, "missing", 0),
        (b".", 9, "failed", 1),
        (b"\xff", 9, "failed", 2),
    ];

    fn kind_of(answer: &Result<Vec<u8>, TakeError>) -> &'static str {
        match answer {
            Ok(_) => "taken",
            Err(TakeError::Missing) => "missing",
            Err(TakeError::TooLong) => "too long",
            Err(TakeError::Failed) => "failed",
            Err(TakeError::Memory) => "memory",
        }
    }

    /// Takes the file of a row, and tells whether what is due comes.
    fn take_one(
        rt: &HostRuntime,
        folder: &mut FileFolder<HostRuntime>,
        row: &(&[u8], u64, &str, u64),
        bytes: &[u8],
    ) -> Result<bool, Fail> {
        let name = Name::of(rt.alloc(), row.0).map_err(|_| "memory")?;
        let answer = folder.take(rt.alloc(), &name, row.1);
        let is_told = kind_of(&answer) == row.2 && folder.faults == row.3;
        match answer {
            Ok(taken) => Ok(is_told && taken.as_slice() == bytes),
            Err(_) => Ok(is_told),
        }
    }

    /// A file of 10,000 bytes at limits round its length, a name without a file, one that is no text, and a folder.
    #[test]
    fn takes_files(rt: HostRuntime) -> Result<(), Fail> {
        let path = "outside_takes_files.tmp";
        let bytes = vec![in rt.alloc(); 7u8; 10_000]?;
        fs::write(&rt, path, bytes.as_slice())?;
        let mut folder = FileFolder::new(&rt);
        for row in TAKES.iter() {
            assert!(rt; take_one(&rt, &mut folder, row, bytes.as_slice())?);
        }
        fs::remove_file(&rt, path)?;
        Ok(())
    }

    /// An output that takes at most so many bytes at once.
    #[derive(Drop)]
    struct Slow {
        most: usize,
    }

    impl Print for Slow {
        fn print<D: Display + Drop>(&self, _value: D) -> io::Result<()> {
            Err(ErrorKind::Unsupported.into())
        }

        fn println<D: Display + Drop>(&self, _value: D) -> io::Result<()> {
            Err(ErrorKind::Unsupported.into())
        }

        fn write_all(&self, _bytes: &[u8]) -> io::Result<()> {
            Err(ErrorKind::Unsupported.into())
        }

        fn write_some(&self, bytes: &[u8]) -> io::Result<usize> {
            Ok(bytes.len().min(self.most))
        }
    }

    /// Standard output itself, then outputs that take a piece bit by bit, and one that takes nothing.
    #[test]
    fn puts_pieces(rt: HostRuntime) -> Result<(), Fail> {
        let mut sink = StdSink::new(&rt);
        assert!(rt; sink.put(b"").is_ok());
        assert!(rt; sink.put(b"a piece\n").is_ok());
        assert_eq!(rt; sink.faults, 0);
        for (most, piece, faults) in [
            (1, b"abc", 0),
            (2, b"abc", 0),
            (3, b"abc", 0),
            (0, b"abc", 1),
        ] {
            let slow = Slow { most };
            let mut sink = StdSink::new(&slow);
            assert_eq!(rt; sink.put(piece).is_ok(), faults == 0);
            assert_eq!(rt; sink.faults, faults);
            assert!(rt; sink.put(b"").is_ok());
        }
        Ok(())
    }
}

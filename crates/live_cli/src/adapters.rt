//! The real source, sink and folder. They tell nothing of what they hold, and count what fails.
ghost use Rattle.std.specs.Prelude.{◌≡◌, None, ◌≤◌, length};

use std::alloc::{AllocError, Global};
use std::fs;
use std::io::{self, ErrorKind, Read, Write};
use std::rt::Files;
use text_core::{
    ByKey, Bytes, Folder, FolderFault, Names, OutOfMemory, Sink, Source, Taken, Text, Wrote,
};

/// A reader that is read as a source.
#[derive(Drop)]
pub struct RealSource<T: Read + Drop> {
    inner: T,
    count: u64,
}

impl<T: Read + Drop> RealSource<T> {
    /// The source that reads from `inner`, of which nothing failed yet.
    pub fn new(inner: T) -> RealSource<T>
        ensures { result.count ≡ 0 }
    {
        RealSource { inner, count: 0 }
    }
}

impl<T: Read + Drop> Source for RealSource<T> {
    ghost left = { λ _. None };

    ghost failed = { λ s. s.count };

    fn faults(&self) -> u64 {
        self.count
    }

    fn read(&mut self, into: &mut [u8]) -> Taken {
        match self.inner.read(into) {
            Ok(0) => Taken::End,
            Ok(n) => Taken::Count(n),
            Err(_) => {
                self.count = self.count.saturating_add(1);
                Taken::Failed
            }
        }
    }
}

/// A writer that takes the output.
#[derive(Drop)]
pub struct RealSink<T: Write + Drop> {
    inner: T,
    count: u64,
}

impl<T: Write + Drop> RealSink<T> {
    /// The sink that writes to `inner`, where nothing failed yet.
    pub fn new(inner: T) -> RealSink<T>
        ensures { result.count ≡ 0 }
    {
        RealSink { inner, count: 0 }
    }
}

// How many bytes of the piece went out: all, or those before a write that failed or took nothing.
fn write_front<T: Write>(inner: &mut T, piece: &[u8]) -> usize
    ensures { result ≤ length piece.now }
{
    let mut sent = 0;
    for _ in 0..piece.len() {
        if sent >= piece.len() {
            return sent;
        }
        match inner.write(&piece[sent..]) {
            Ok(0) => return sent,
            Ok(n) => sent += n,
            Err(_) => return sent,
        }
    }
    sent
}

impl<T: Write + Drop> Sink for RealSink<T> {
    ghost written = { λ _. None };

    ghost failed = { λ s. s.count };

    fn faults(&self) -> u64 {
        self.count
    }

    fn write(&mut self, piece: &[u8]) -> Wrote {
        let sent = write_front(&mut self.inner, piece);
        if sent == piece.len() {
            return Wrote::Whole;
        }
        self.count = self.count.saturating_add(1);
        Wrote::Failed(sent)
    }
}

/// A folder of the file system. Its files are the regular files in it, also those that a link
/// leads to; a folder in it is none.
#[derive(Drop)]
pub struct RealFolder<R: Files + AllocGlobal + Clone + Drop> {
    rt: R,
    dir: Text,
    listed: ByKey<()>,
    count: u64,
}

impl<R: Files + AllocGlobal + Clone + Drop> RealFolder<R> {
    /// The folder of that path, where nothing failed yet.
    pub fn new(rt: R, dir: Text) -> RealFolder<R>
        ensures { result.count ≡ 0 }
    {
        let listed = ByKey::new(rt.alloc());
        RealFolder {
            rt,
            dir,
            listed,
            count: 0,
        }
    }

    fn path_of(&self, alloc: Global, name: &str) -> Result<Text, OutOfMemory> {
        let mut path = self.dir.copy(alloc)?;
        path.push_str("/")?;
        path.push_str(name)?;
        Ok(path)
    }
}

fn add_name(alloc: Global, names: &mut ByKey<()>, name: &str) -> Result<(), OutOfMemory> {
    let name = Text::copy_of(alloc, name)?;
    names.insert(name, ())
}

// The names of the regular files. A name that is not UTF-8 is an error of the entry.
fn list<R: Files + AllocGlobal + Clone + Drop>(rt: &R, dir: &str) -> io::Result<ByKey<()>> {
    let alloc = rt.alloc();
    let mut names = ByKey::new(alloc);
    for entry in fs::read_dir(rt, dir)? {
        let entry = entry?;
        if fs::metadata(rt, entry.path())?.is_file() {
            if add_name(alloc, &mut names, entry.file_name()).is_err() {
                return Err(io::Error::from(AllocError));
            }
        }
    }
    Ok(names)
}

// At most so many bytes of the file's front.
fn read_front<R: Files + AllocGlobal>(rt: &R, path: &str, most: usize) -> io::Result<Vec<u8>> {
    let mut file = fs::open(rt, path)?;
    let mut bytes = Vec::new(rt.alloc());
    let mut chunk = [0u8; 4096];
    for _ in 0..u64::MAX {
        if bytes.len() > most {
            break;
        }
        let n = file.read(&mut chunk)?;
        if n == 0 {
            break;
        }
        bytes.extend_from_slice(&chunk[..n])?;
    }
    bytes.truncate(most);
    Ok(bytes)
}

impl<R: Files + AllocGlobal + Clone + Drop> Folder for RealFolder<R> {
    ghost use Rattle.text_core.specs.Keyed.{keys};

    ghost files = { λ _. None };

    ghost listed = { λ d. keys d.listed };

    ghost failed = { λ d. d.count };

    fn faults(&self) -> u64 {
        self.count
    }

    fn names(&mut self, alloc: Global) -> Result<Names, FolderFault> {
        match list(&self.rt, self.dir.as_str()) {
            Ok(listed) => {
                let names = listed.keys(alloc)?;
                self.listed = listed;
                Ok(names)
            }
            Err(error) => {
                if error.kind() == ErrorKind::OutOfMemory {
                    return Err(FolderFault::OutOfMemory);
                }
                self.count = self.count.saturating_add(1);
                Err(FolderFault::Failed)
            }
        }
    }

    fn read(&mut self, alloc: Global, name: &str, most: usize) -> Result<Bytes, FolderFault> {
        let path = self.path_of(alloc, name)?;
        match read_front(&self.rt, path.as_str(), most.saturating_add(1)) {
            Ok(bytes) => Ok(Bytes::from_vec(bytes)),
            Err(error) => {
                if error.kind() == ErrorKind::OutOfMemory {
                    return Err(FolderFault::OutOfMemory);
                }
                self.count = self.count.saturating_add(1);
                Err(FolderFault::Failed)
            }
        }
    }
}

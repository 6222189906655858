//! Objects of the outside whose listed calls fail, for tests.
ghost use Rattle.std.specs.Prelude.{◌≡◌};
ghost use Rattle.text_core.specs.Outside.{WritesFront};

use crate::{Bytes, Folder, FolderFault, Names, Seq, Sink, Source, Taken, Wrote};
use std::alloc::Global;

/// A source, sink or folder of which some calls fail: those whose numbers are listed, the first
/// call having the number 1. What is inside stays as it is at such a call, but that a sink still
/// takes the first `passing` bytes of the piece.
#[derive(Debug, Drop)]
pub struct Failing<T> {
    inner: T,
    failing: Seq<u64>,
    passing: usize,
    calls: u64,
    count: u64,
}

impl<T> Failing<T> {
    /// `inner`, with these calls failing.
    pub fn new(inner: T, failing: Seq<u64>, passing: usize) -> Failing<T>
        ensures { result.inner ≡ inner }
    {
        Failing {
            inner,
            failing,
            passing,
            calls: 0,
            count: 0,
        }
    }

    /// What is inside.
    pub fn inner(&self) -> &T
        ensures { result.now ≡ self.now.inner }
    {
        &self.inner
    }
}

// Whether the call of that number is listed.
fn fails(failing: &[u64], calls: u64) -> bool {
    failing.contains(&calls)
}

impl<S: Source> Source for Failing<S> {
    ghost left = { λ f. S.left f.inner };

    ghost failed = { λ f. f.count };

    fn faults(&self) -> u64 {
        self.count
    }

    fn read(&mut self, into: &mut [u8]) -> Taken {
        self.calls = self.calls.saturating_add(1);
        if fails(self.failing.as_slice(), self.calls) {
            self.count = self.count.saturating_add(1);
            return Taken::Failed;
        }
        match self.inner.read(into) {
            Taken::Count(n) => Taken::Count(n),
            Taken::End => Taken::End,
            Taken::Failed => {
                self.count = self.count.saturating_add(1);
                Taken::Failed
            }
        }
    }
}

// A write whose failure is certain: the front of the piece that went out.
fn write_front<S: Sink>(inner: &mut S, piece: &[u8], passing: usize) -> usize
    ensures { WritesFront (S.written inner.old) (S.written inner.new) piece.now result }
{
    let most = passing.min(piece.len());
    match inner.write(&piece[..most]) {
        Wrote::Whole => most,
        Wrote::Failed(n) => n,
    }
}

impl<S: Sink> Sink for Failing<S> {
    ghost written = { λ f. S.written f.inner };

    ghost failed = { λ f. f.count };

    fn faults(&self) -> u64 {
        self.count
    }

    fn write(&mut self, piece: &[u8]) -> Wrote {
        self.calls = self.calls.saturating_add(1);
        if fails(self.failing.as_slice(), self.calls) {
            self.count = self.count.saturating_add(1);
            return Wrote::Failed(write_front(&mut self.inner, piece, self.passing));
        }
        match self.inner.write(piece) {
            Wrote::Whole => Wrote::Whole,
            Wrote::Failed(n) => {
                self.count = self.count.saturating_add(1);
                Wrote::Failed(n)
            }
        }
    }
}

impl<F: Folder> Folder for Failing<F> {
    ghost files = { λ f. F.files f.inner };

    ghost listed = { λ f. F.listed f.inner };

    ghost failed = { λ f. f.count };

    fn faults(&self) -> u64 {
        self.count
    }

    fn names(&mut self, alloc: Global) -> Result<Names, FolderFault> {
        self.calls = self.calls.saturating_add(1);
        if fails(self.failing.as_slice(), self.calls) {
            self.count = self.count.saturating_add(1);
            return Err(FolderFault::Failed);
        }
        match self.inner.names(alloc) {
            Ok(names) => Ok(names),
            Err(FolderFault::OutOfMemory) => Err(FolderFault::OutOfMemory),
            Err(FolderFault::Failed) => {
                self.count = self.count.saturating_add(1);
                Err(FolderFault::Failed)
            }
        }
    }

    fn read(&mut self, alloc: Global, name: &str, most: usize) -> Result<Bytes, FolderFault> {
        self.calls = self.calls.saturating_add(1);
        if fails(self.failing.as_slice(), self.calls) {
            self.count = self.count.saturating_add(1);
            return Err(FolderFault::Failed);
        }
        match self.inner.read(alloc, name, most) {
            Ok(bytes) => Ok(bytes),
            Err(FolderFault::OutOfMemory) => Err(FolderFault::OutOfMemory),
            Err(FolderFault::Failed) => {
                self.count = self.count.saturating_add(1);
                Err(FolderFault::Failed)
            }
        }
    }
}

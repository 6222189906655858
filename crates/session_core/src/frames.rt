//! The frames of a journal, and their size.
ghost use Rattle.std.specs.Prelude.{◌≡◌, ◌-◌, ◌≤◌, ◌++◌, drop, length, min, IfOk, OnOk};
ghost use Rattle.doc_model.specs.Journal.{total_length};
ghost use Rattle.session_core.specs.Machine.{frames_in, journal_frames};

use crate::entry::Entry;
use std::alloc::Global;
use text_core::{Bytes, Frames, OutOfMemory, Seq};

// Copies frames to the end of a list.
fn push_frames(alloc: Global, frames: &[Bytes], found: &mut Frames) -> Result<(), OutOfMemory>
    ensures { OnOk result (found.new ≡ found.old ++ frames.now) }
{
    for frame in frames {
        found.push(frame.copy(alloc)?)?;
    }
    Ok(())
}

/// These frames once more.
pub(crate) fn frames_copy(alloc: Global, frames: &[Bytes]) -> Result<Frames, OutOfMemory>
    ensures { IfOk result (λ copy. copy ≡ frames.now) }
{
    let mut copy = Seq::new(alloc);
    push_frames(alloc, frames, &mut copy)?;
    Ok(copy)
}

/// The length of all frames, in bytes, or the largest number if it is smaller.
pub(crate) fn frames_size(frames: &[Bytes]) -> u64
    ensures { result ≡ min (total_length frames.now) 18446744073709551615 }
{
    let mut size: u64 = 0;
    for frame in frames {
        size = size.saturating_add(frame.len() as u64);
    }
    size
}

fn frames_in(entry: &Entry) -> &[Bytes]
    ensures { result.now ≡ frames_in entry.entry.now }
{
    match entry {
        Entry::Heard(_) => &[],
        Entry::Handled(frames) => frames.as_slice(),
        Entry::Fell(frames) => frames.as_slice(),
    }
}

// The frames of a journal but for the first ones.
fn later_frames(alloc: Global, journal: &[(u32, Entry)], from: usize) -> Result<Frames, OutOfMemory>
    ensures { IfOk result (λ found. found ≡ drop from (journal_frames journal.now)) }
{
    let mut found = Seq::new(alloc);
    let mut skipped = from;
    for (_, entry) in journal {
        let frames = frames_in(entry);
        if skipped >= frames.len() {
            skipped -= frames.len();
            continue;
        }
        push_frames(alloc, &frames[skipped..], &mut found)?;
        skipped = 0;
    }
    Ok(found)
}

fn count_in(numbered: &(u32, Entry)) -> usize
    ensures { result ≡ length (frames_in numbered.now.1) }
{
    let (_, entry) = numbered;
    frames_in(entry).len()
}

// Where the last frames of a journal begin, so many of them: the entry, and how many of its frames lie before.
fn last_frames_at(journal: &[(u32, Entry)], wanted: usize) -> (usize, usize)
    ensures within { result.0 ≤ length journal.now }
    ensures found { drop result.1 (journal_frames (drop result.0 journal.now)) ≡ drop (length (journal_frames journal.now) - wanted) (journal_frames journal.now) }
{
    let mut start = journal.len();
    let mut missing = wanted;
    while start > 0 {
        start -= 1;
        let count = count_in(&journal[start]);
        if count >= missing {
            return (start, count - missing);
        }
        missing -= count;
    }
    (0, 0)
}

/// The frames of a journal from number `from` on, the first having the number 0. The journal holds `count` frames, or
/// more where `count` is the largest number. They are looked for from the end, so that the latest are found at once.
pub(crate) fn frames_from(
    alloc: Global,
    journal: &[(u32, Entry)],
    count: u64,
    from: u64,
) -> Result<Frames, OutOfMemory>
    requires { count ≡ min (length (journal_frames journal.now)) 18446744073709551615 }
    ensures { IfOk result (λ found. found ≡ drop from (journal_frames journal.now)) }
{
    if count == u64::MAX {
        return later_frames(alloc, journal, from as usize);
    }
    let wanted = count.saturating_sub(from);
    let (start, skipped) = last_frames_at(journal, wanted as usize);
    later_frames(alloc, &journal[start..], skipped)
}

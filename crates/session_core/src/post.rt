//! How a text is put into the inbox.
ghost use Rattle.std.specs.Prelude.{◌≡◌, ◌+◌, ◌<◌, ◌≤◌, [], ◌∷◌, ◌++◌, vec_len, vec_capacity, IfOk, IfErr, OnOk, OnErr};
ghost use Rattle.std.specs.VecDeque.{deque_len};
ghost use Rattle.session_core.specs.Posted.{Refuses, IsMemory};

use crate::entry::{Entry, Waiting};
use machine_api::PostFault;
use std::alloc::Global;
use std::collections::VecDeque;
use text_core::{Bytes, OutOfMemory};

// How many messages may wait.
const INBOX_LIMIT: usize = 1024;

// The kept size that no post passes, in bytes.
const JOURNAL_LIMIT: u64 = 16_777_216;

/// Whether a message of size `asked` may be put into an inbox where so many wait, and into a journal of size `kept`.
pub(crate) fn may_post(waiting: usize, kept: u64, asked: u64) -> Result<(), PostFault>
    ensures inbox { OnOk result (waiting < 1024) }
    ensures journal { OnOk result (kept + asked ≤ 16777216) }
    ensures err { IfErr result (Refuses waiting kept asked) }
{
    if waiting >= INBOX_LIMIT {
        return Err(PostFault::Full);
    }
    if asked > JOURNAL_LIMIT {
        return Err(PostFault::JournalFull { kept, asked });
    }
    if kept > JOURNAL_LIMIT - asked {
        return Err(PostFault::JournalFull { kept, asked });
    }
    Ok(())
}

// The text twice, for the journal and for the inbox.
fn copies(alloc: Global, text: &[u8]) -> Result<(Bytes, Bytes), OutOfMemory>
    ensures { IfOk result (λ c. (c.0 ≡ text.now) × (c.1 ≡ text.now)) }
{
    let kept = Bytes::copy_of(alloc, text)?;
    let waiting = Bytes::copy_of(alloc, text)?;
    Ok((kept, waiting))
}

// Puts a text into the inbox and the journal, with room for its outcome.
fn put(
    alloc: Global,
    journal: &mut Vec<(u32, Entry)>,
    inbox: &mut VecDeque<Waiting>,
    by: u32,
    text: &[u8],
) -> Result<(), OutOfMemory>
    requires { vec_len journal.old + deque_len inbox.old ≤ vec_capacity journal.old }
    ensures journal { OnOk result (journal.new.items ≡ journal.old.items ++ (by, Entry.Heard text.now) ∷ []) }
    ensures inbox { OnOk result (inbox.new.items ≡ inbox.old.items ++ Waiting.Heard text.now ∷ []) }
    ensures journal_len { OnOk result (vec_len journal.new ≡ vec_len journal.old + 1) }
    ensures inbox_len { OnOk result (deque_len inbox.new ≡ deque_len inbox.old + 1) }
    ensures journal_err { OnErr result (journal.new.items ≡ journal.old.items) }
    ensures inbox_err { OnErr result (inbox.new.items ≡ inbox.old.items) }
    ensures journal_len_err { OnErr result (vec_len journal.new ≡ vec_len journal.old) }
    ensures inbox_len_err { OnErr result (deque_len inbox.new ≡ deque_len inbox.old) }
    ensures room { vec_len journal.new + deque_len inbox.new ≤ vec_capacity journal.new }
{
    let (kept, waiting) = copies(alloc, text)?;
    journal.reserve(inbox.len() + 2)?;
    inbox.push_back(Waiting::Heard(waiting))?;
    journal.push_reserved((by, Entry::Heard(kept)));
    Ok(())
}

/// Puts a text into the inbox and the journal, with room for its outcome. After want of memory both are as before.
pub(crate) fn queue(
    alloc: Global,
    journal: &mut Vec<(u32, Entry)>,
    inbox: &mut VecDeque<Waiting>,
    by: u32,
    text: &[u8],
) -> Result<(), PostFault>
    requires { vec_len journal.old + deque_len inbox.old ≤ vec_capacity journal.old }
    ensures journal { OnOk result (journal.new.items ≡ journal.old.items ++ (by, Entry.Heard text.now) ∷ []) }
    ensures inbox { OnOk result (inbox.new.items ≡ inbox.old.items ++ Waiting.Heard text.now ∷ []) }
    ensures journal_len { OnOk result (vec_len journal.new ≡ vec_len journal.old + 1) }
    ensures inbox_len { OnOk result (deque_len inbox.new ≡ deque_len inbox.old + 1) }
    ensures err { IfErr result IsMemory }
    ensures journal_err { OnErr result (journal.new.items ≡ journal.old.items) }
    ensures inbox_err { OnErr result (inbox.new.items ≡ inbox.old.items) }
    ensures journal_len_err { OnErr result (vec_len journal.new ≡ vec_len journal.old) }
    ensures inbox_len_err { OnErr result (deque_len inbox.new ≡ deque_len inbox.old) }
    ensures room { vec_len journal.new + deque_len inbox.new ≤ vec_capacity journal.new }
{
    match put(alloc, journal, inbox, by, text) {
        Ok(()) => Ok(()),
        Err(OutOfMemory) => Err(PostFault::OutOfMemory),
    }
}

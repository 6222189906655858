//! What a message leaves in the journal and in the inbox.
ghost use Rattle.std.specs.Prelude.{◌≡◌, ◌+◌, ◌<◌, ◌≤◌, [], ◌∷◌, ◌++◌, length, map, min, None, vec_len, vec_capacity};
ghost use Rattle.std.specs.VecDeque.{deque_len, deque_capacity};
ghost use Rattle.session_core.specs.Written.{grown, told_as, sent_under};

use crate::entry::{Entry, Waiting};
use crate::frames::frames_size;
use machine_api::{Actions, Handled};
use process_core::{Outcome, Process};
use std::collections::VecDeque;
use text_core::{Frames, Seq};
use value_core::Values;

// The kept size with one more entry of these frames.
fn with_frames(kept: u64, frames: &Frames) -> u64
    ensures { result ≡ grown kept frames.now }
{
    kept.saturating_add(64)
        .saturating_add(frames_size(frames.as_slice()))
}

// The values that the process sent itself wait, under its generation.
fn queue_sent(inbox: &mut VecDeque<Waiting>, generation: u64, sent: Values)
    requires { deque_len inbox.old + length sent ≤ deque_capacity inbox.old }
    ensures items { inbox.new.items ≡ inbox.old.items ++ map (sent_under generation) sent }
    ensures len { deque_len inbox.new ≡ deque_len inbox.old + length sent }
{
    for value in sent.into_vec() {
        inbox.push_back_reserved(Waiting::Sent { generation, value });
    }
}

fn told_as(crashed: bool, actions: Actions) -> Handled
    ensures { result ≡ told_as crashed actions }
{
    if crashed {
        Handled::Crashed
    } else {
        Handled::Done(actions)
    }
}

/// Writes what a message gave, where there is room for it.
pub(crate) fn write_outcome(
    journal: &mut Vec<(u32, Entry)>,
    inbox: &mut VecDeque<Waiting>,
    kept: &mut u64,
    count: &mut u64,
    generation: u64,
    by: u32,
    outcome: Outcome,
) -> Handled
    requires inbox_room { deque_len inbox.old + length outcome.sent ≤ deque_capacity inbox.old }
    requires journal_room { vec_len journal.old < vec_capacity journal.old }
    ensures journal { journal.new.items ≡ journal.old.items ++ (by, Entry.Handled outcome.frames) ∷ [] }
    ensures inbox { inbox.new.items ≡ inbox.old.items ++ map (sent_under generation) outcome.sent }
    ensures kept { kept.new ≡ grown kept.old outcome.frames }
    ensures count { count.new ≡ min (count.old + length outcome.frames) 18446744073709551615 }
    ensures journal_len { vec_len journal.new ≡ vec_len journal.old + 1 }
    ensures inbox_len { deque_len inbox.new ≡ deque_len inbox.old + length outcome.sent }
    ensures capacity { vec_capacity journal.new ≡ vec_capacity journal.old }
    ensures told { result ≡ told_as outcome.crashed outcome.actions }
{
    let Outcome {
        frames,
        sent,
        actions,
        crashed,
    } = outcome;
    *kept = with_frames(*kept, &frames);
    *count = count.saturating_add(frames.len() as u64);
    queue_sent(inbox, generation, sent);
    journal.push_reserved((by, Entry::Handled(frames)));
    told_as(crashed, actions)
}

/// Writes that memory was wanting at a message, with the last words, and puts the process down under its generation.
pub(crate) fn write_fall(
    journal: &mut Vec<(u32, Entry)>,
    kept: &mut u64,
    count: &mut u64,
    process: &mut Process,
    generation: u64,
    by: u32,
    words: Frames,
)
    requires { vec_len journal.old < vec_capacity journal.old }
    ensures journal { journal.new.items ≡ journal.old.items ++ (by, Entry.Fell words) ∷ [] }
    ensures kept { kept.new ≡ grown kept.old words }
    ensures count { count.new ≡ min (count.old + length words) 18446744073709551615 }
    ensures process { process.new ≡ record { generation = generation; up = None } }
    ensures journal_len { vec_len journal.new ≡ vec_len journal.old + 1 }
    ensures capacity { vec_capacity journal.new ≡ vec_capacity journal.old }
{
    *kept = with_frames(*kept, &words);
    *count = count.saturating_add(words.len() as u64);
    process.generation = generation;
    process.up = None;
    journal.push_reserved((by, Entry::Fell(words)));
}

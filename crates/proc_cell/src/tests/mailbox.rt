//! A machine that counts its messages. It asks for nothing, tells no frame and is never up.
ghost use Rattle.std.specs.Prelude.{◌≡◌, ℕ, ◌+◌, ◌-◌, ◌<◌, ◌≤◌, min, List, [], ◌∷◌, ◌++◌, length, vec_len, vec_capacity, Some, None, IfOk, unwrap_or, is_some, is_none, sum_by};
ghost use Rattle.std.specs.List.{count_by};
ghost use Rattle.machine_api.specs.Journals.{journal_size};
ghost use Rattle.machine_api.specs.Steps.{Posts};

use machine_api::{Down, Handled, Logged, Machine, PostFault};
use std::alloc::Global;
use std::sync::Arc;
use text_core::{Bytes, Frames, OutOfMemory, Seq};

/// The texts of a message, or none for the outcome of one.
pub type Note = Option<Seq<Bytes>>;

#[derive(Drop)]
pub struct Mailbox {
    alloc: Global,
    app: u64,
    log: Vec<(u32, Note)>,
    size: u64,
    waiting: u32,
    ghost sized: { size ≡ min (journal_size (λ e. unwrap_or e []) (λ e. []) log.items) 18446744073709551615 },
    ghost counted: { waiting + count_by (λ x. is_none x.1) log.items ≡ count_by (λ x. is_some x.1) log.items },
    ghost few: { waiting ≤ 1024 },
    ghost room: { vec_len log + waiting ≤ vec_capacity log },
}

fn texts_of(alloc: Global, first: &[u8]) -> Result<Seq<Bytes>, OutOfMemory>
    ensures { IfOk result (λ t. t ≡ first.now ∷ []) }
{
    let mut texts = Seq::new(alloc);
    texts.push(Bytes::copy_of(alloc, first)?)?;
    Ok(texts)
}

fn two_texts(alloc: Global, first: &[u8], second: &[u8]) -> Result<Seq<Bytes>, OutOfMemory>
    ensures { IfOk result (λ t. t ≡ first.now ∷ second.now ∷ []) }
{
    let mut texts = texts_of(alloc, first)?;
    texts.push(Bytes::copy_of(alloc, second)?)?;
    Ok(texts)
}

impl Mailbox {
    // Adds a message, or refuses it.
    fn note(
        &mut self,
        by: u32,
        texts: Result<Seq<Bytes>, OutOfMemory>,
        asked: u64,
    ) -> Result<u64, PostFault>
        requires { IfOk texts (λ t. asked ≡ min (64 + sum_by length t) 18446744073709551615) }
        ensures app { self.new.app ≡ self.old.app }
        ensures posts { (t : List (List ℕ)) (size : ℕ) → asked ≡ min size 18446744073709551615 → IfOk texts (λ u. u ≡ t)
            → Posts by (Some t) size (count_by (λ x. is_some x.1) self.old.log.items - count_by (λ x. is_none x.1) self.old.log.items)
            (journal_size (λ e. unwrap_or e []) (λ e. []) self.old.log.items) self.old.log.items result self.new.log.items }
    {
        if self.waiting >= 1024 {
            return Err(PostFault::Full);
        }
        let kept = self.size;
        let sum = kept.saturating_add(asked);
        if sum > 16_777_216 {
            return Err(PostFault::JournalFull { kept, asked });
        }
        let Ok(texts) = texts else {
            return Err(PostFault::OutOfMemory);
        };
        if self.log.reserve(self.waiting as usize + 2).is_err() {
            return Err(PostFault::OutOfMemory);
        }
        let place = self.log.len() as u64;
        self.add(by, texts, sum);
        Ok(place)
    }

    // Adds a message, for which there is room.
    fn add(&mut self, by: u32, texts: Seq<Bytes>, size: u64)
        requires room { vec_len self.old.log + self.old.waiting + 2 ≤ vec_capacity self.old.log }
        requires few { self.old.waiting < 1024 }
        requires size { size ≡ self.old.size + 64 + sum_by length texts }
        requires small { size < 18446744073709551615 }
        ensures app { self.new.app ≡ self.old.app }
        ensures log { self.new.log.items ≡ self.old.log.items ++ (by, Some texts) ∷ [] }
    {
        self.log.push_reserved((by, Some(texts)));
        self.size = size;
        self.waiting += 1;
    }

    // Adds the outcome of a message.
    fn end(&mut self, by: u32)
        requires { 0 < self.old.waiting }
        ensures app { self.new.app ≡ self.old.app }
        ensures log { self.new.log.items ≡ self.old.log.items ++ (by, None) ∷ [] }
    {
        self.log.push_reserved((by, None));
        self.size = self.size.saturating_add(64);
        self.waiting -= 1;
    }
}

impl Logged for Mailbox {
    type Entry = Note;

    type App = u64;

    ghost journal = { λ m. m.log.items };

    ghost basis = { λ m. m.app };

    ghost lawful = { λ _ _. Unit {0} };

    fn length(&self) -> u64 {
        self.log.len() as u64
    }

    ghost begins = { λ _. tt };

    ghost shortens = { λ _ _ _ _. tt };
}

impl Machine for Mailbox {
    ghost use Rattle.std.specs.Prelude.{◌-◌, [], ◌∷◌, Some, unwrap_or, true, false, refl, is_some, is_none};
    ghost use Rattle.std.specs.List.{count_by};

    ghost heard = { λ text. Some (text ∷ []) };

    ghost mailed = { λ topic generation value. Some (topic ∷ value ∷ []) };

    ghost is_handled = { λ e. is_none e };

    ghost is_fell = { λ e. false };

    ghost is_overrun = { λ why e. false };

    ghost texts = { λ e. unwrap_or e [] };

    ghost frames = { λ e. [] };

    ghost inbox = { λ on log. count_by (λ x. is_some x.1) log - count_by (λ x. is_none x.1) log };

    ghost is_up_after = { λ on log. false };

    ghost raised = { λ on log. false };

    ghost asked = { λ on log. [] };

    fn start(alloc: Global, app: &Arc<u64>) -> Result<Self, OutOfMemory> {
        Ok(Mailbox {
            alloc,
            app: **app,
            log: Vec::new(alloc),
            size: 0,
            waiting: 0,
        })
    }

    fn hear(&mut self, by: u32, text: &[u8]) -> Result<u64, PostFault> {
        let texts = texts_of(self.alloc, text);
        self.note(by, texts, (text.len() as u64).saturating_add(64))
    }

    fn mail(
        &mut self,
        by: u32,
        topic: &[u8],
        _generation: u64,
        value: &[u8],
    ) -> Result<u64, PostFault> {
        let texts = two_texts(self.alloc, topic, value);
        let asked = (topic.len() as u64)
            .saturating_add(value.len() as u64)
            .saturating_add(64);
        self.note(by, texts, asked)
    }

    fn handle(&mut self, by: u32) -> Handled {
        if self.waiting == 0 {
            return Handled::Idle;
        }
        self.end(by);
        Handled::Done(Seq::new(self.alloc))
    }

    fn put_down(&mut self, _by: u32, _why: Down) {}

    fn frames_from(&self, alloc: Global, _from: u64) -> Result<Frames, OutOfMemory> {
        Ok(Seq::new(alloc))
    }

    fn waiting(&self) -> u32 {
        self.waiting
    }

    fn is_up(&self) -> bool {
        false
    }

    ghost carried_by_text = { λ text. (refl, refl) };

    ghost carried_by_mail = { λ topic generation value. (refl, refl) };
}

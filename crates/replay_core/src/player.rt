//! A browser of a script: its process, and what was printed of it.
ghost use Rattle.std.specs.Prelude.{◌≡◌, ◌+◌, ◌++◌, decimal, IfOk, OnOk};
ghost use Rattle.std.specs.Arc.{arc_value};
ghost use Rattle.replay_core.specs.Player.{new_player, hears, posted_to, joins, tells, join_message, event_message, handles, runs, frames_printed, page_of, posted_text, html_text, frames_text, new_frames, frame_lines, heading, numbered};

use crate::message::{event_text, join_text};
use live_page::App;
use machine_api::{Handled, PostFault};
use session_core::Session;
use std::alloc::Global;
use std::sync::Arc;
use text_core::{Bytes, OutOfMemory, Text};
use view_api::Views;

/// A browser's process, how many messages the browser has sent, the reference of its latest join, and how many frames
/// were printed.
#[derive(Drop)]
pub(crate) struct Player<V: Views> {
    session: Session<V>,
    sent: u64,
    joined: Option<Text>,
    printed: u64,
}

/// What became of a message that a browser sent.
#[derive(Clone, Copy, Debug, PartialEq, Eq)]
pub(crate) enum Posted {
    /// It waits for the process.
    Taken,
    /// The inbox held all that it may.
    Full,
    /// The journal would have grown too large.
    JournalFull,
}

impl<V: Views> Player<V> {
    /// A browser whose process is down.
    pub(crate) fn new(alloc: Global, app: &Arc<App<V>>) -> Result<Player<V>, OutOfMemory>
        ensures { IfOk result (λ p. p ≡ new_player (arc_value app.now)) }
    {
        let session = Session::start(alloc, app)?;
        Ok(Player {
            session,
            sent: 0,
            joined: None,
            printed: 0,
        })
    }
}

// The process hears a text, or refuses it.
fn hear<V: Views>(session: &mut Session<V>, text: &[u8]) -> Result<Posted, OutOfMemory>
    ensures session { OnOk result (session.new ≡ hears V.meaning text.now session.old) }
    ensures posted { IfOk result (λ p. p ≡ posted_to V.meaning text.now session.old) }
{
    match session.hear(0, text) {
        Ok(_) => Ok(Posted::Taken),
        Err(PostFault::Full) => Ok(Posted::Full),
        Err(PostFault::JournalFull { .. }) => Ok(Posted::JournalFull),
        Err(PostFault::OutOfMemory) => Err(OutOfMemory),
    }
}

// The process takes the message at the front, if one waits.
fn handle<V: Views>(session: &mut Session<V>) -> Result<(), OutOfMemory>
    ensures { OnOk result (session.new ≡ handles V.meaning session.old) }
{
    match session.handle(0) {
        Handled::Idle | Handled::Done(_) | Handled::Crashed => Ok(()),
        Handled::Fell => Err(OutOfMemory),
    }
}

// The number of the message behind so many, and its reference.
fn next_message(alloc: Global, sent: u64) -> Result<(u64, Text), OutOfMemory>
    ensures number { IfOk result (λ r. r.0 ≡ sent + 1) }
    ensures reference { IfOk result (λ r. r.1 ≡ decimal (sent + 1)) }
{
    let number = sent.checked_add(1).ok_or(OutOfMemory)?;
    let reference = Text::from_string(number.to_string(alloc)?);
    Ok((number, reference))
}

/// The browser sends the message by which it joins a page.
pub(crate) fn join<V: Views>(
    alloc: Global,
    player: Player<V>,
    name: &str,
    url: &str,
) -> Result<(Player<V>, Posted), OutOfMemory>
    ensures player { IfOk result (λ r. r.0 ≡ joins V.meaning name.now url.now player) }
    ensures posted { IfOk result (λ r. r.1 ≡ posted_to V.meaning (join_message name.now url.now player) player.session) }
{
    let Player {
        mut session,
        sent,
        joined: _joined,
        printed,
    } = player;
    let (sent, reference) = next_message(alloc, sent)?;
    let message = join_text(alloc, name, &reference, url)?;
    let posted = hear(&mut session, message.as_slice())?;
    let player = Player {
        session,
        sent,
        joined: Some(reference),
        printed,
    };
    Ok((player, posted))
}

/// The browser sends the message by which it tells an event.
pub(crate) fn tell<V: Views>(
    alloc: Global,
    player: Player<V>,
    name: &str,
    kind: &str,
    event: &str,
    value: &str,
) -> Result<(Player<V>, Posted), OutOfMemory>
    ensures player { IfOk result (λ r. r.0 ≡ tells V.meaning name.now kind.now event.now value.now player) }
    ensures posted { IfOk result (λ r. r.1 ≡ posted_to V.meaning (event_message name.now kind.now event.now value.now player) player.session) }
{
    let Player {
        mut session,
        sent,
        joined,
        printed,
    } = player;
    let (sent, reference) = next_message(alloc, sent)?;
    let message = event_text(alloc, name, &joined, &reference, kind, event, value)?;
    let posted = hear(&mut session, message.as_slice())?;
    let player = Player {
        session,
        sent,
        joined,
        printed,
    };
    Ok((player, posted))
}

/// The browser's process handles the message at the front, if one waits.
pub(crate) fn run<V: Views>(player: Player<V>) -> Result<Player<V>, OutOfMemory>
    ensures { IfOk result (λ p. p ≡ runs V.meaning player) }
{
    let Player {
        mut session,
        sent,
        joined,
        printed,
    } = player;
    handle(&mut session)?;
    Ok(Player {
        session,
        sent,
        joined,
        printed,
    })
}

// `== NAME WHAT`.
fn heading(alloc: Global, name: &str, what: &str) -> Result<Text, OutOfMemory>
    ensures { IfOk result (λ t. t ≡ heading name.now what.now) }
{
    let mut text = Text::copy_of(alloc, "== ")?;
    text.push_str(name)?;
    text.push_str(what)?;
    Ok(text)
}

// A heading with a number, and a line feed.
fn numbered(alloc: Global, name: &str, what: &str, number: usize) -> Result<Text, OutOfMemory>
    ensures { IfOk result (λ t. t ≡ numbered name.now what.now number) }
{
    let mut text = heading(alloc, name, what)?;
    let digits = number.to_string(alloc)?;
    text.push_str(digits.as_str())?;
    text.push_str("\n")?;
    Ok(text)
}

fn headed(alloc: Global, name: &str, what: &str) -> Result<Bytes, OutOfMemory>
    ensures { IfOk result (λ t. t ≡ heading name.now what.now) }
{
    let text = heading(alloc, name, what)?;
    Bytes::copy_of(alloc, text.as_str().as_bytes())
}

/// What a message prints: nothing where it was taken, else why it was refused.
pub(crate) fn posted_text(alloc: Global, name: &str, posted: Posted) -> Result<Bytes, OutOfMemory>
    ensures { IfOk result (λ t. t ≡ posted_text name.now posted) }
{
    match posted {
        Posted::Taken => Ok(Bytes::new(alloc)),
        Posted::Full => headed(alloc, name, " Full\n"),
        Posted::JournalFull => headed(alloc, name, " JournalFull\n"),
    }
}

/// What `html` prints: the page as the browser shows it, or that it has none.
pub(crate) fn html<V: Views>(
    alloc: Global,
    player: &Player<V>,
    name: &str,
) -> Result<Bytes, OutOfMemory>
    ensures { IfOk result (λ t. t ≡ html_text name.now (page_of V.meaning player.now)) }
{
    match player.session.page(alloc)? {
        Some(page) => {
            let mut text = numbered(alloc, name, " html ", page.len())?;
            text.push_str(page.as_str())?;
            text.push_str("\n")?;
            Bytes::copy_of(alloc, text.as_str().as_bytes())
        }
        None => headed(alloc, name, " down\n"),
    }
}

// Adds each frame and a line feed.
fn push_lines(frames: &[Bytes], out: &mut Bytes) -> Result<(), OutOfMemory>
    ensures { OnOk result (out.new ≡ out.old ++ frame_lines frames.now) }
{
    for frame in frames {
        out.push_slice(frame.as_slice())?;
        out.push_slice(b"\n")?;
    }
    Ok(())
}

/// What `frames` prints, and the browser behind it: the frames since its last such line.
pub(crate) fn frames<V: Views>(
    alloc: Global,
    player: Player<V>,
    name: &str,
) -> Result<(Player<V>, Bytes), OutOfMemory>
    ensures player { IfOk result (λ r. r.0 ≡ frames_printed player) }
    ensures text { IfOk result (λ r. r.1 ≡ frames_text name.now (new_frames player)) }
{
    let Player {
        session,
        sent,
        joined,
        printed,
    } = player;
    let frames = session.frames_from(alloc, printed)?;
    let head = numbered(alloc, name, " frames ", frames.len())?;
    let mut out = Bytes::copy_of(alloc, head.as_str().as_bytes())?;
    push_lines(frames.as_slice(), &mut out)?;
    let printed = printed.checked_add(frames.len() as u64).ok_or(OutOfMemory)?;
    let player = Player {
        session,
        sent,
        joined,
        printed,
    };
    Ok((player, out))
}

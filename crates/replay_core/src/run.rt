//! The run of a script.
ghost use Rattle.std.specs.Prelude.{◌≡◌, [], IfOk, OnOk};
ghost use Rattle.std.specs.Arc.{arc_value};
ghost use Rattle.text_core.specs.Outside.{Rose, Writes, Rises};
ghost use Rattle.text_core.specs.Keyed.{with_key};
ghost use Rattle.replay_core.specs.Output.{after_line, line_output, changed, printed_of, answered};
ghost use Rattle.replay_core.specs.Player.{new_player, join_message, event_message, joins, tells, runs, frames_printed, new_frames, page_of, html_text, frames_text};
ghost use Rattle.replay_core.specs.Ends.{ReplayEnds};

use crate::player::{Player, frames, html, join, posted_text, run, tell};
use live_page::App;
use script_core::{Line, Script};
use std::alloc::Global;
use std::sync::Arc;
use text_core::{ByKey, Bytes, OutOfMemory, Sink, Text, Wrote};
use view_api::Views;

/// How the run of a script ended.
#[derive(Clone, Copy, Debug, PartialEq, Eq)]
pub enum ReplayEnd {
    /// All of its output was written.
    Done,
    /// The sink failed.
    WriteFault,
    /// Memory was wanting.
    OutOfMemory,
}

fn declare<V: Views>(
    alloc: Global,
    app: &Arc<App<V>>,
    name: &Text,
    board: &mut ByKey<Player<V>>,
) -> Result<(), OutOfMemory>
    ensures { OnOk result (board.new ≡ with_key name.now (new_player (arc_value app.now)) board.old) }
{
    let player = Player::new(alloc, app)?;
    board.insert(name.copy(alloc)?, player)
}

fn send_join<V: Views>(
    alloc: Global,
    name: &Text,
    url: &Text,
    board: &mut ByKey<Player<V>>,
) -> Result<Bytes, OutOfMemory>
    ensures board { OnOk result (board.new ≡ changed name.now (joins V.meaning name.now url.now) board.old) }
    ensures text { IfOk result (λ t. t ≡ printed_of name.now (answered V.meaning name.now (join_message name.now url.now)) board.old) }
{
    match board.remove(name.as_str()) {
        Some(player) => {
            let (player, posted) = join(alloc, player, name.as_str(), url.as_str())?;
            board.insert(name.copy(alloc)?, player)?;
            posted_text(alloc, name.as_str(), posted)
        }
        None => Ok(Bytes::new(alloc)),
    }
}

fn send_event<V: Views>(
    alloc: Global,
    name: &Text,
    kind: &Text,
    event: &Text,
    value: &Text,
    board: &mut ByKey<Player<V>>,
) -> Result<Bytes, OutOfMemory>
    ensures board { OnOk result (board.new ≡ changed name.now (tells V.meaning name.now kind.now event.now value.now) board.old) }
    ensures text { IfOk result (λ t. t ≡ printed_of name.now (answered V.meaning name.now (event_message name.now kind.now event.now value.now)) board.old) }
{
    match board.remove(name.as_str()) {
        Some(player) => {
            let (player, posted) = tell(
                alloc,
                player,
                name.as_str(),
                kind.as_str(),
                event.as_str(),
                value.as_str(),
            )?;
            board.insert(name.copy(alloc)?, player)?;
            posted_text(alloc, name.as_str(), posted)
        }
        None => Ok(Bytes::new(alloc)),
    }
}

fn run_one<V: Views>(
    alloc: Global,
    name: &Text,
    board: &mut ByKey<Player<V>>,
) -> Result<Bytes, OutOfMemory>
    ensures board { OnOk result (board.new ≡ changed name.now (runs V.meaning) board.old) }
    ensures text { IfOk result (λ t. t ≡ []) }
{
    match board.remove(name.as_str()) {
        Some(player) => {
            let player = run(player)?;
            board.insert(name.copy(alloc)?, player)?;
            Ok(Bytes::new(alloc))
        }
        None => Ok(Bytes::new(alloc)),
    }
}

fn print_page<V: Views>(
    alloc: Global,
    name: &Text,
    board: &ByKey<Player<V>>,
) -> Result<Bytes, OutOfMemory>
    ensures { IfOk result (λ t. t ≡ printed_of name.now (λ p. html_text name.now (page_of V.meaning p)) board.now) }
{
    match board.get(name.as_str()) {
        Some(player) => html(alloc, player, name.as_str()),
        None => Ok(Bytes::new(alloc)),
    }
}

fn print_frames<V: Views>(
    alloc: Global,
    name: &Text,
    board: &mut ByKey<Player<V>>,
) -> Result<Bytes, OutOfMemory>
    ensures board { OnOk result (board.new ≡ changed name.now frames_printed board.old) }
    ensures text { IfOk result (λ t. t ≡ printed_of name.now (λ p. frames_text name.now (new_frames p)) board.old) }
{
    match board.remove(name.as_str()) {
        Some(player) => {
            let (player, text) = frames(alloc, player, name.as_str())?;
            board.insert(name.copy(alloc)?, player)?;
            Ok(text)
        }
        None => Ok(Bytes::new(alloc)),
    }
}

// Does one line, and gives what it writes.
fn play<V: Views>(
    alloc: Global,
    app: &Arc<App<V>>,
    line: &Line,
    board: &mut ByKey<Player<V>>,
) -> Result<Bytes, OutOfMemory>
    ensures board { OnOk result (board.new ≡ after_line V.meaning (arc_value app.now) board.old line.now) }
    ensures text { IfOk result (λ t. t ≡ line_output V.meaning board.old line.now) }
{
    match line {
        Line::Browser { name } => {
            declare(alloc, app, name, board)?;
            Ok(Bytes::new(alloc))
        }
        Line::Join { name, url } => send_join(alloc, name, url, board),
        Line::Event {
            name,
            kind,
            event,
            value,
        } => send_event(alloc, name, kind, event, value, board),
        Line::Step { name } | Line::Run { name } => run_one(alloc, name, board),
        Line::Html { name } => print_page(alloc, name, board),
        Line::Frames { name } => print_frames(alloc, name, board),
    }
}

// Writes a text, if there is one.
fn say<S: Sink>(out: &mut S, text: &Bytes) -> Wrote
    ensures bytes { Writes (S.written out.old) (S.written out.new) text.now result }
    ensures cause { Rises (S.failed out.old) (S.failed out.new) result }
{
    if text.is_empty() {
        return Wrote::Whole;
    }
    out.write(text.as_slice())
}

/// Runs a script over an app, and writes what its lines print. Each browser has a process of its own; what a browser
/// shows is the full rendering of its process's state.
pub fn replay<V: Views, S: Sink>(
    alloc: Global,
    app: &Arc<App<V>>,
    script: &Script,
    out: &mut S,
) -> ReplayEnd
    ensures { ReplayEnds V.meaning (arc_value app.now) script.now (S.written out.old) (S.written out.new) (Rose (S.failed out.old) (S.failed out.new)) result }
{
    let mut board = ByKey::new(alloc);
    for line in script.as_slice() {
        let text = match play(alloc, app, line, &mut board) {
            Ok(text) => text,
            Err(_) => return ReplayEnd::OutOfMemory,
        };
        match say(out, &text) {
            Wrote::Whole => {}
            Wrote::Failed(_) => return ReplayEnd::WriteFault,
        }
    }
    ReplayEnd::Done
}

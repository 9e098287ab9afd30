//! A script that was replayed.
ghost use Rattle.std.specs.Prelude.{◌≡◌, [], ℕ, List, IfSome};
ghost use Rattle.ocm_base.specs.Outside.{Appends};
ghost use Rattle.ocm_commands_files.specs.Words.{AreOf};
ghost use Rattle.ocm_serve_options.specs.Plans.{texts};
ghost use Rattle.ocm_law_replay.specs.Replaying.{ReplaysKeep, ReplaysWell};

use ocm_base::{Sink, Source};
use ocm_commands::command;
use ocm_commands_files::Command;
use ocm_disk::Shelf;
use std::alloc::Global;

/// What a script gives with the status 0 keeps what is promised of it.
pub fn a_replay_keeps_what_is_promised()
    ensures { ReplaysKeep }
{}

/// Runs a command as `command` does. Where the words ask for a replay, and the status is 0, the bytes that
/// were read are a script, and what was written is a text of it that keeps what is promised; the shelf has
/// the disks of its servers.
pub fn command_keeps_what_is_promised<S: Source, K: Sink>(
    alloc: Global,
    words: &[String],
    source: &mut S,
    sink: &mut K,
    shelf: &mut Shelf,
) -> u8
    requires { shelf.old ≡ [] }
    ensures kept { AreOf Command.Replay (texts words.now) → result ≡ 0
        → IfSome (S.left source.old) (λ bytes. (text : List ℕ) × Appends (K.taken sink.old) (K.taken sink.new) text × ReplaysWell bytes text shelf.new) }
{
    command(alloc, words, source, sink, shelf)
}

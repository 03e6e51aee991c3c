//! The command line, as `clap` is told it.

ghost use Rattle.std.specs.Prelude.{◌≡◌, [], ◌∷◌, codes, false, true, IfOk};
ghost use Rattle.clap.specs.Words.{App, app_of, new_app, rule_of, with_rule, with_subcommand};
ghost use Rattle.job_words.specs.Command.{bare as bare_app, dex, leaf as leaf_app, needed as needed_rule, without_help};

use clap::{Arg, ArgAction, Command};
use std::alloc::{AllocError, Global};

/// All jobs with the words that each has to have behind its own.
pub(crate) fn commands<'a>(alloc: Global) -> Result<Command<'a>, AllocError>
    ensures { IfOk result (λ command. app_of command ≡ dex) }
{
    let format = plus(bare(alloc), new_journal(alloc)?)?;
    let check = plus(format, with_one(alloc, "check", "kind")?)?;
    let show = plus(check, with_one(alloc, "show", "journal")?)?;
    let handheld = plus(show, with_names(alloc, "handheld")?)?;
    let receiver = plus(handheld, with_names(alloc, "receiver")?)?;
    let replay = plus(receiver, leaf(alloc, "replay"))?;
    plus(replay, with_one(alloc, "load", "count")?)
}

/// A command without a program's name before its words, without help and without a version, of which a subcommand has to be given.
fn bare<'a>(alloc: Global) -> Command<'a>
    ensures { app_of result ≡ bare_app }
{
    Command::new(alloc, "dex")
        .no_binary_name(true)
        .disable_help_flag(true)
        .disable_help_subcommand(true)
        .disable_version_flag(true)
        .subcommand_required(true)
}

/// The command with one subcommand more.
fn plus<'a>(command: Command<'a>, leaf: Command<'a>) -> Result<Command<'a>, AllocError>
    ensures { (app : App) → app_of leaf.entry ≡ app → app.top.is_plain ≡ true → IfOk result (λ next. app_of next ≡ with_subcommand (app_of command.entry) app.top) }
{
    command.subcommand(leaf)
}

/// A subcommand without help.
fn leaf<'a>(alloc: Global, name: &'a str) -> Command<'a>
    ensures { app_of result ≡ without_help (new_app name.entry.now) }
{
    Command::new(alloc, name).disable_help_flag(true)
}

/// The subcommand with one word more, which has to stand there.
fn and_word<'a>(alloc: Global, leaf: Command<'a>, id: &'a str) -> Result<Command<'a>, AllocError>
    ensures { IfOk result (λ next. app_of next ≡ with_rule (app_of leaf.entry) (needed_rule id.entry.now)) }
{
    leaf.arg(needed(alloc, id))
}

fn needed<'a>(alloc: Global, id: &'a str) -> Arg<'a>
    ensures rule { rule_of result ≡ needed_rule id.entry.now }
    ensures local { result.global ≡ false }
{
    Arg::new(alloc, id).required(true).action(ArgAction::Set)
}

/// A subcommand with one word behind it.
fn with_one<'a>(alloc: Global, name: &'a str, id: &'a str) -> Result<Command<'a>, AllocError>
    ensures { IfOk result (λ leaf. app_of leaf ≡ leaf_app name.entry.now (id.entry.now ∷ [])) }
{
    and_word(alloc, leaf(alloc, name), id)
}

/// A subcommand with the names of a journal and of a port behind it.
fn with_names<'a>(alloc: Global, name: &'a str) -> Result<Command<'a>, AllocError>
    ensures { IfOk result (λ leaf. app_of leaf ≡ leaf_app name.entry.now (codes "journal" ∷ codes "port" ∷ [])) }
{
    let journal = with_one(alloc, name, "journal")?;
    and_word(alloc, journal, "port")
}

/// The subcommand that makes a journal.
fn new_journal<'a>(alloc: Global) -> Result<Command<'a>, AllocError>
    ensures { IfOk result (λ leaf. app_of leaf ≡ leaf_app (codes "format") (codes "role" ∷ codes "own" ∷ codes "peer" ∷ codes "journal" ∷ [])) }
{
    let role = with_one(alloc, "format", "role")?;
    let own = and_word(alloc, role, "own")?;
    let peer = and_word(alloc, own, "peer")?;
    and_word(alloc, peer, "journal")
}

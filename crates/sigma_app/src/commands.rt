//! The commands of the tool, as the parser of command lines takes the words of each.
ghost use Rattle.std.specs.Prelude.{◌≡◌, IfOk, false};
ghost use Rattle.clap.specs.Words.{app_of, rule_of};
ghost use Rattle.clap.specs.declared.builder.command.Command.TheViews.{out-Command};
ghost use Rattle.sigma_app.specs.Commands as spec;

use clap::builder::ValueParser;
use clap::{Arg, ArgAction, Command, value_parser};
use std::alloc::{AllocError, Global};

/// The commands that print a page and end.
#[derive(Clone, Copy, Debug, PartialEq, Eq)]
pub enum CommandName {
    Ask,
    Check,
    Clauses,
    Export,
    Drill,
}

/// The command that the word names.
pub fn command_named(word: &str) -> Option<CommandName>
    ensures { result ≡ spec.named word.now }
{
    match word {
        "ask" => Some(CommandName::Ask),
        "check" => Some(CommandName::Check),
        "clauses" => Some(CommandName::Clauses),
        "export" => Some(CommandName::Export),
        "drill" => Some(CommandName::Drill),
        _ => None,
    }
}

static MODES: [&str; 2] = ["support", "full"];

fn modes<'a>() -> ValueParser<'a>
    ensures { spec.TakesModes result }
{
    ValueParser::from(MODES.as_slice())
}

fn option<'a>(alloc: Global, name: &'a str, parser: ValueParser<'a>) -> Arg<'a>
    ensures rule { rule_of result ≡ spec.option_rule name.entry.now parser.entry }
    ensures local { result.global ≡ false }
{
    Arg::new(alloc, name)
        .long(name)
        .action(ArgAction::Set)
        .value_parser(parser)
}

fn query<'a>(alloc: Global) -> Arg<'a>
    ensures rule { rule_of result ≡ spec.query_rule }
    ensures local { result.global ≡ false }
{
    Arg::new(alloc, "query")
        .required(true)
        .action(ArgAction::Set)
}

fn files<'a>(alloc: Global) -> Arg<'a>
    ensures rule { rule_of result ≡ spec.files_rule }
    ensures local { result.global ≡ false }
{
    Arg::new(alloc, "files")
        .required(true)
        .num_args(1..)
        .action(ArgAction::Append)
}

fn size<'a>(alloc: Global) -> Arg<'a>
    ensures rule { rule_of result ≡ spec.size_rule }
    ensures local { result.global ≡ false }
{
    Arg::new(alloc, "size")
        .required(true)
        .action(ArgAction::Set)
        .value_parser(value_parser!(u32).range(1..=2_000))
}

/// A command without words. Nothing stands for help, and the words begin after the command's name.
fn bare<'a>(alloc: Global, name: &'a str) -> Command<'a>
    ensures app { app_of result ≡ spec.bare_app name.entry.now }
    ensures local { (out-Command result).has_globals ≡ false }
{
    Command::new(alloc, name)
        .no_binary_name(true)
        .disable_help_flag(true)
        .disable_version_flag(true)
}

fn ask_command<'a>(alloc: Global) -> Result<Command<'a>, AllocError>
    ensures { IfOk result (λ c. spec.IsAskApp (app_of c)) }
{
    bare(alloc, "ask")
        .arg(option(alloc, "turns", value_parser!(u32).range(1..=100_000)))?
        .arg(option(alloc, "answers", value_parser!(u32).range(1..=1_000)))?
        .arg(option(alloc, "kept", value_parser!(u32).range(1..=200_000)))?
        .arg(option(alloc, "mode", modes()))?
        .arg(query(alloc))?
        .arg(files(alloc))
}

fn files_command<'a>(alloc: Global, name: &'a str) -> Result<Command<'a>, AllocError>
    ensures { IfOk result (λ c. app_of c ≡ spec.files_app name.entry.now) }
{
    bare(alloc, name).arg(files(alloc))
}

fn drill_command<'a>(alloc: Global) -> Result<Command<'a>, AllocError>
    ensures { IfOk result (λ c. app_of c ≡ spec.drill_app) }
{
    bare(alloc, "drill").arg(size(alloc))
}

/// The command of the name.
pub fn command_of<'a>(alloc: Global, name: CommandName) -> Result<Command<'a>, AllocError>
    ensures { IfOk result (λ c. spec.IsAppOf name (app_of c)) }
{
    match name {
        CommandName::Ask => ask_command(alloc),
        CommandName::Check => files_command(alloc, "check"),
        CommandName::Clauses => files_command(alloc, "clauses"),
        CommandName::Export => files_command(alloc, "export"),
        CommandName::Drill => drill_command(alloc),
    }
}

//! The commands as the parser of command lines takes them.

ghost use Rattle.std.specs.Prelude.{◌≡◌, false, IfOk, IfSome, IsNone, codes};
ghost use Rattle.std.specs.Option.{option_map_or};
ghost use Rattle.std.specs.Str.{bytes_eq};
ghost use Rattle.clap.specs.Words.{app_of, with_rule};
ghost use Rattle.goeland_words.specs.Table.{prove_table, bench_table};
ghost use Rattle.goeland_words.specs.Line.{IsNoLine};
ghost use Rattle.goeland_words.specs.Command.{value_rule, switch_rule, place_rule, bare_app, app_of_table};
ghost use Rattle.goeland_words.specs.Parsed.{Takes, Refuses, HoldsLine, IsProveLine, IsBenchLine};
ghost use Rattle.gl_outside.specs.Outside.{texts_of};

use clap::error::ErrorKind;
use clap::{Arg, ArgAction, ArgMatches, Command};
use std::alloc::{AllocError, Global};

/// What the options of `prove` and its positional word are given.
#[derive(Drop)]
pub(crate) struct ProveTexts<'a> {
    pub file: Option<&'a str>,
    pub depth: Option<&'a str>,
    pub workers: Option<&'a str>,
    pub tries: Option<&'a str>,
    pub proof_bytes: Option<&'a str>,
    pub rewrite: Option<&'a str>,
    pub schedule: Option<&'a str>,
    pub history: bool,
}

/// The same of `bench`.
#[derive(Drop)]
pub(crate) struct BenchTexts<'a> {
    pub problem: Option<&'a str>,
    pub workers: Option<&'a str>,
}

/// The command with an option that has a value.
fn with_option<'a>(
    command: Command<'a>,
    alloc: Global,
    name: &'a str,
) -> Result<Command<'a>, AllocError>
    ensures { IfOk result (λ c. app_of c ≡ with_rule (app_of command.entry) (value_rule name.entry.now)) }
{
    command.arg(Arg::new(alloc, name).long(name).action(ArgAction::Set))
}

/// The command with an option that has none.
fn with_switch<'a>(
    command: Command<'a>,
    alloc: Global,
    name: &'a str,
) -> Result<Command<'a>, AllocError>
    ensures { IfOk result (λ c. app_of c ≡ with_rule (app_of command.entry) (switch_rule name.entry.now)) }
{
    command.arg(Arg::new(alloc, name).long(name).action(ArgAction::SetTrue))
}

/// The command with a positional word.
fn with_word<'a>(command: Command<'a>, alloc: Global) -> Result<Command<'a>, AllocError>
    ensures { IfOk result (λ c. app_of c ≡ with_rule (app_of command.entry) place_rule) }
{
    command.arg(Arg::new(alloc, "WORD").action(ArgAction::Set))
}

/// A command with no arguments, whose words begin with the first argument.
fn bare<'a>(alloc: Global, name: &'a str) -> Command<'a>
    ensures { app_of result ≡ bare_app name.entry.now }
{
    Command::new(alloc, name)
        .no_binary_name(true)
        .disable_help_flag(true)
}

/// The command that reads the words after `prove`.
fn prove_command<'a>(alloc: Global) -> Result<Command<'a>, AllocError>
    ensures { IfOk result (λ c. app_of c ≡ app_of_table (codes "prove") prove_table) }
{
    let command = bare(alloc, "prove");
    let depth = with_option(command, alloc, "depth")?;
    let workers = with_option(depth, alloc, "workers")?;
    let tries = with_option(workers, alloc, "tries")?;
    let bytes = with_option(tries, alloc, "proof-bytes")?;
    let rewrite = with_option(bytes, alloc, "rewrite")?;
    let schedule = with_option(rewrite, alloc, "schedule")?;
    let history = with_switch(schedule, alloc, "history")?;
    let file = with_word(history, alloc)?;
    Ok(file)
}

/// The command that reads the words after `bench`.
fn bench_command<'a>(alloc: Global) -> Result<Command<'a>, AllocError>
    ensures { IfOk result (λ c. app_of c ≡ app_of_table (codes "bench") bench_table) }
{
    let command = bare(alloc, "bench");
    let workers = with_option(command, alloc, "workers")?;
    let number = with_word(workers, alloc)?;
    Ok(number)
}

/// What the words say, or `None` where the command takes no such words.
fn parse<'a>(
    command: Command<'a>,
    words: &'a [String],
) -> Result<Option<ArgMatches<'a>>, AllocError>
    ensures some { IfOk result (λ r. IfSome r (Takes (app_of command.entry) (texts_of words.entry.now))) }
    ensures none { IfOk result (λ r. IsNone r → Refuses (app_of command.entry) (texts_of words.entry.now)) }
{
    match command.try_get_matches_from(words) {
        Ok(matches) => Ok(Some(matches)),
        Err(error) => match error.kind() {
            ErrorKind::OutOfMemory => Err(AllocError),
            _ => Ok(None),
        },
    }
}

/// The words after `prove`, taken apart.
fn prove_matches<'a>(
    alloc: Global,
    words: &'a [String],
) -> Result<Option<ArgMatches<'a>>, AllocError>
    ensures some { IfOk result (λ r. IfSome r (HoldsLine prove_table (texts_of words.entry.now))) }
    ensures none { IfOk result (λ r. IsNone r → IsNoLine prove_table (texts_of words.entry.now)) }
{
    parse(prove_command(alloc)?, words)
}

/// The words after `bench`, taken apart.
fn bench_matches<'a>(
    alloc: Global,
    words: &'a [String],
) -> Result<Option<ArgMatches<'a>>, AllocError>
    ensures some { IfOk result (λ r. IfSome r (HoldsLine bench_table (texts_of words.entry.now))) }
    ensures none { IfOk result (λ r. IsNone r → IsNoLine bench_table (texts_of words.entry.now)) }
{
    parse(bench_command(alloc)?, words)
}

/// Whether the text is `true`.
fn is_true(text: Option<&str>) -> bool
    ensures { result ≡ option_map_or (λ s. bytes_eq s.now (codes "true")) text.entry false }
{
    match text {
        Some(text) => text == "true",
        None => false,
    }
}

/// What the words after `prove` give its options, or `None` where they are no line of it.
pub(crate) fn prove_line<'a>(
    alloc: Global,
    words: &'a [String],
) -> Result<Option<ProveTexts<'a>>, AllocError>
    ensures some { IfOk result (λ r. IfSome r (IsProveLine (texts_of words.entry.now))) }
    ensures none { IfOk result (λ r. IsNone r → IsNoLine prove_table (texts_of words.entry.now)) }
{
    let Some(matches) = prove_matches(alloc, words)? else {
        return Ok(None);
    };
    Ok(Some(ProveTexts {
        file: matches.get_str("WORD"),
        depth: matches.get_str("depth"),
        workers: matches.get_str("workers"),
        tries: matches.get_str("tries"),
        proof_bytes: matches.get_str("proof-bytes"),
        rewrite: matches.get_str("rewrite"),
        schedule: matches.get_str("schedule"),
        history: is_true(matches.get_str("history")),
    }))
}

/// What the words after `bench` give its options, or `None` where they are no line of it.
pub(crate) fn bench_line<'a>(
    alloc: Global,
    words: &'a [String],
) -> Result<Option<BenchTexts<'a>>, AllocError>
    ensures some { IfOk result (λ r. IfSome r (IsBenchLine (texts_of words.entry.now))) }
    ensures none { IfOk result (λ r. IsNone r → IsNoLine bench_table (texts_of words.entry.now)) }
{
    let Some(matches) = bench_matches(alloc, words)? else {
        return Ok(None);
    };
    Ok(Some(BenchTexts {
        problem: matches.get_str("WORD"),
        workers: matches.get_str("workers"),
    }))
}

//! The words of a command line.

ghost use Rattle.std.specs.Prelude.{◌≡◌, ◌≢◌, ℕ, ◌≤◌, List, Some, map, IfOk, IsErrOf, IfErr};
ghost use Rattle.std.specs.Prelude.{IsTrue, ◌↔◌, false};
ghost use Rattle.std.specs.List.{list_any};
ghost use Rattle.std.specs.Fmt.{decimal};
ghost use Rattle.std.specs.String.{string_bytes};
ghost use Rattle.clap.specs.Words.{app_of, kind_of, subcommand_name_of, FailsBy, HasMatchesOf};
ghost use Rattle.clap.specs.Words.{fault_of};
ghost use Rattle.clap.specs.Simple.{shape_of};
ghost use Rattle.clap.specs.declared.builder.command.Command.TheViews.{out-Command as fields_of};
ghost use Rattle.sot_commands.specs.Words.{word_of, Asks, HasNumbers, HasFormula, IsNumbered};
ghost use Rattle.sot_commands.specs.WordParser.{is_dashed, bare, numbered, watching};
ghost use Rattle.sot_commands.specs.WordParser.{missions, readers, program};

use clap::error::ErrorKind;
use clap::{Arg, ArgAction, ArgMatches, Error};
use std::alloc::{AllocError, Global};

/// What the words ask the program to do. The first seven read a text; the others read nothing.
#[derive(Clone, Copy, Debug)]
pub enum Command<'w> {
    /// Whether a mission is accepted.
    Check,
    /// The trace of a mission's flight.
    Fly,
    /// Whether the trace that stands behind a mission is one of its flight.
    Replay,
    /// Within how many holds the modules of a mission recover.
    Recover,
    /// The trace of a mission's flight, and whether a formula holds at all of its moments.
    Watch { formula: &'w str },
    /// The canonical text of a program.
    Format,
    /// A program with the certificate that is made for it, as a mission.
    Certify,
    /// A mission of so many modules for this seed.
    Make { n: u32, seed: u64 },
    /// What is counted of the flight of the mission that `Make` makes of the same numbers.
    Soak { n: u32, seed: u64 },
}

/// Why no command is known.
#[derive(Clone, Copy, Debug, PartialEq, Eq)]
pub enum WordFail {
    /// The words ask for none.
    Form,
    /// Memory ran out before that was known.
    Memory,
}

fn is_dashed(word: &[u8]) -> bool
    ensures { result ≡ is_dashed word.now }
{
    match word {
        [first, ..] => *first == b'-',
        [] => false,
    }
}

// Whether some word begins with `-`.
fn has_dash(words: &[String]) -> bool
    ensures { result ≡ list_any (λ word. is_dashed (string_bytes word)) words.now }
{
    words.iter().any(|word| is_dashed(word.as_bytes()))
}

// One of the subcommands has to be named. There is no help: its words begin with `-`.
fn bare<'a>(alloc: Global) -> clap::Command<'a>
    ensures { app_of result ≡ bare }
{
    clap::Command::new(alloc, "soter")
        .no_binary_name(true)
        .disable_help_flag(true)
        .disable_help_subcommand(true)
        .subcommand_required(true)
}

// A command with two numbers behind its word.
fn numbered<'a>(alloc: Global, name: &'a str) -> Result<clap::Command<'a>, AllocError>
    ensures shape { IfOk result (λ command. shape_of command ≡ numbered name.entry.now) }
    ensures local { IfOk result (λ command. (fields_of command).has_globals ≡ false) }
{
    let n = Arg::new(alloc, "N").required(true).action(ArgAction::Set);
    let seed = Arg::new(alloc, "SEED")
        .required(true)
        .action(ArgAction::Set);
    clap::Command::new(alloc, name).arg(n)?.arg(seed)
}

// The command with a formula behind its word.
fn watching<'a>(alloc: Global) -> Result<clap::Command<'a>, AllocError>
    ensures shape { IfOk result (λ command. shape_of command ≡ watching) }
    ensures local { IfOk result (λ command. (fields_of command).has_globals ≡ false) }
{
    let formula = Arg::new(alloc, "FORMULA")
        .required(true)
        .action(ArgAction::Set);
    clap::Command::new(alloc, "watch").arg(formula)
}

// The commands that read a mission alone, as subcommands.
fn missions<'a>(alloc: Global) -> Result<clap::Command<'a>, AllocError>
    ensures { IfOk result (λ command. app_of command ≡ missions) }
{
    let check = clap::Command::new(alloc, "check");
    let fly = clap::Command::new(alloc, "fly");
    let replay = clap::Command::new(alloc, "replay");
    let recover = clap::Command::new(alloc, "recover");
    bare(alloc)
        .subcommand(check)?
        .subcommand(fly)?
        .subcommand(replay)?
        .subcommand(recover)
}

// The commands that read a text: those of `missions`, the one that has a formula besides, and
// those that read a program.
fn readers<'a>(alloc: Global) -> Result<clap::Command<'a>, AllocError>
    ensures { IfOk result (λ command. app_of command ≡ readers) }
{
    let watch = watching(alloc)?;
    let format = clap::Command::new(alloc, "format");
    let certify = clap::Command::new(alloc, "certify");
    missions(alloc)?
        .subcommand(watch)?
        .subcommand(format)?
        .subcommand(certify)
}

// All commands: those that read a text, and those that read nothing.
fn program<'a>(alloc: Global) -> Result<clap::Command<'a>, AllocError>
    ensures { IfOk result (λ command. app_of command ≡ program) }
{
    let make = numbered(alloc, "make")?;
    let soak = numbered(alloc, "soak")?;
    readers(alloc)?.subcommand(make)?.subcommand(soak)
}

// What `clap` makes of the words.
fn parsed<'a>(alloc: Global, words: &'a [String]) -> Result<ArgMatches<'a>, Error>
    ensures fails { FailsBy (fault_of program (map string_bytes words.entry.now)) result }
    ensures matches { IfOk result (HasMatchesOf program (map string_bytes words.entry.now)) }
{
    program(alloc)?.try_get_matches_from(words)
}

// Whether a word is the decimal of a number.
fn is_decimal(alloc: Global, word: &str, number: u64) -> Result<bool, WordFail>
    ensures is { IfOk result (λ is. IsTrue is ↔ (word.now ≡ decimal number)) }
    ensures memory { IfErr result (λ fail. fail ≡ WordFail.Memory) }
{
    match format!(in alloc; "{number}") {
        Ok(text) => Ok(text.as_str() == word),
        Err(_) => Err(WordFail::Memory),
    }
}

// A word that is a number in these bounds in decimal, without zeros in front.
fn number(alloc: Global, word: &str, least: u64, most: u64) -> Result<u64, WordFail>
    ensures ok { IfOk result (λ number. (least ≤ number) × (number ≤ most)
        × (word.now ≡ decimal number)) }
    ensures form { IsErrOf result WordFail.Form → (number : ℕ) → least ≤ number → number ≤ most
        → word.now ≢ decimal number }
{
    let Ok(number) = word.parse::<u64>() else {
        return Err(WordFail::Form);
    };
    if number < least {
        return Err(WordFail::Form);
    }
    if number > most {
        return Err(WordFail::Form);
    }
    if is_decimal(alloc, word, number)? {
        Ok(number)
    } else {
        Err(WordFail::Form)
    }
}

// The two numbers behind the first word.
fn numbers(alloc: Global, words: &[String]) -> Result<(u32, u64), WordFail>
    ensures ok { IfOk result (λ numbers. HasNumbers words.now numbers.0 numbers.1) }
    ensures form { IsErrOf result WordFail.Form → (n seed : ℕ) → ¬ (HasNumbers words.now n seed) }
{
    if words.len() != 3 {
        return Err(WordFail::Form);
    }
    let n = number(alloc, words[1].as_str(), 1, 100)?;
    let seed = number(alloc, words[2].as_str(), 0, 1_000_000_000_000)?;
    Ok((n as u32, seed))
}

// The formula behind the first word.
fn formula(words: &[String]) -> Result<&str, WordFail>
    ensures ok { IfOk result (λ formula. HasFormula words.now formula.now) }
    ensures form { IsErrOf result WordFail.Form → (formula : List ℕ)
        → ¬ (HasFormula words.now formula) }
    ensures memory { ¬ (IsErrOf result WordFail.Memory) }
{
    if words.len() == 2 {
        Ok(words[1].as_str())
    } else {
        Err(WordFail::Form)
    }
}

// The command that `clap` found, with what stands behind its word.
fn found<'w>(
    alloc: Global,
    matches: &ArgMatches<'_>,
    words: &'w [String],
) -> Result<Command<'w>, WordFail>
    ensures ok { IfOk result (λ command. (subcommand_name_of matches.now ≡ Some (word_of command))
        × IsNumbered words.now command) }
    ensures form { IsErrOf result WordFail.Form → (command : _)
        → subcommand_name_of matches.now ≡ Some (word_of command)
        → ¬ (IsNumbered words.now command) }
{
    let Some(name) = matches.subcommand_name() else {
        return Err(WordFail::Form);
    };
    if name == "check" {
        Ok(Command::Check)
    } else if name == "fly" {
        Ok(Command::Fly)
    } else if name == "replay" {
        Ok(Command::Replay)
    } else if name == "recover" {
        Ok(Command::Recover)
    } else if name == "watch" {
        match formula(words) {
            Ok(formula) => Ok(Command::Watch { formula }),
            Err(fail) => Err(fail),
        }
    } else if name == "format" {
        Ok(Command::Format)
    } else if name == "certify" {
        Ok(Command::Certify)
    } else if name == "make" {
        match numbers(alloc, words) {
            Ok((n, seed)) => Ok(Command::Make { n, seed }),
            Err(fail) => Err(fail),
        }
    } else if name == "soak" {
        match numbers(alloc, words) {
            Ok((n, seed)) => Ok(Command::Soak { n, seed }),
            Err(fail) => Err(fail),
        }
    } else {
        Err(WordFail::Form)
    }
}

fn reason(error: &Error) -> WordFail
    ensures { result ≡ WordFail.Form → kind_of error.now ≢ ErrorKind.OutOfMemory }
{
    match error.kind() {
        ErrorKind::OutOfMemory => WordFail::Memory,
        _ => WordFail::Form,
    }
}

/// The command that the words ask for: its word, and behind it its numbers or its formula. A word
/// that begins with `-` stands in no form, so `clap` is not asked.
pub fn command_of(alloc: Global, words: &[String]) -> Result<Command<'_>, WordFail>
    ensures ok { IfOk result (λ command. Asks words.now command) }
    ensures form { IsErrOf result WordFail.Form → (command : _) → ¬ (Asks words.now command) }
{
    if has_dash(words) {
        return Err(WordFail::Form);
    }
    match parsed(alloc, words) {
        Ok(matches) => found(alloc, &matches, words),
        Err(error) => Err(reason(&error)),
    }
}

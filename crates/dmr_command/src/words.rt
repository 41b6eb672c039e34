//! The words of the command line.

ghost use Rattle.std.specs.Prelude.{◌≡◌, ◌≢◌, ◌⊎◌, IfErr, IfNone, IfOk, IfSome, [], codes, false};
ghost use Rattle.std.specs.Prelude.{is_some, map, pos, true};
ghost use Rattle.clap.specs.Built.{IsParsedFrom, IsPlainArg, TakesValue};
ghost use Rattle.clap.specs.Words.{app_of, args_of, first_value, found_of, groups_of, kind_of};
ghost use Rattle.clap.specs.Words.{one_text, rule_of};
ghost use Rattle.clap.specs.declared.builder.command.Command.TheViews.{out-Command};
ghost use Rattle.clap.specs.declared.parser.matches.ArgMatches.{ArgMatches};
ghost use Rattle.dmr_command.specs.Words.{AreRefused, AskFor, HasRead, IsAsked, IsNotOne, command};
ghost use Rattle.dmr_command.specs.Words.{faults_in, script_option, serve_flag, site_option};
ghost use Rattle.dmr_command.specs.Words.{terms_option, titled_command};

use crate::status::{WORDS, report_out_of_memory, report_refused_words};
use crate::version::VERSION;
use clap::builder::ValueParser;
use clap::error::ErrorKind;
use clap::{Arg, ArgAction, ArgMatches, Command, Error};
use dmr_pdu::OutOfMemory;
use dmr_replay::MEMORY;
use std::alloc::Global;
use std::io::Write;

/// The job that the words ask for.
#[derive(Clone, Copy, Debug, PartialEq, Eq)]
pub enum Job<'a> {
    /// Replay a script over the site of a site file. Both are paths.
    Script { site: &'a str, script: &'a str },
    /// Serve the site of the site file at this path over TCP for `terms` terms; 0 means forever.
    Serve { site: &'a str, terms: u32 },
}

/// Reads the program's words. The first is the program's own name.
///
/// If the words are refused, `choose` writes the word reader's text to `err`, or that either a script or `--serve` must
/// be given. `--help` and `--version` are refusals, too. A fault of `err` is ignored. The error is the exit status: 2,
/// or 4 if memory ran out.
pub fn choose<'a, E: Write>(alloc: Global, words: &'a [&'a str], err: &mut E) -> Result<Job<'a>, u8>
    // The words are accepted, and these are the values of their options.
    ensures job { IfOk result (AskFor (map (λ word. word.now) words.entry.now)) }
    // Accepted words are refused only if memory ran out.
    ensures status { IfErr result (λ status. (status ≡ MEMORY)
        ⊎ ((status ≡ WORDS) × AreRefused (map (λ word. word.now) words.entry.now))) }
{
    let found = match read_words(alloc, words) {
        Ok(found) => found,
        Err(error) => return Err(report_refusal(&error, err)),
    };
    match job_in(&found) {
        Some(job) => Ok(job),
        None => Err(report_refused_words(err, "dmr_trunk: give either --script or --serve")),
    }
}

/// Writes why the word reader refuses the words, and returns the status.
fn report_refusal<E: Write>(error: &Error, err: &mut E) -> u8
    ensures memory { kind_of error.now ≡ ErrorKind.OutOfMemory → result ≡ MEMORY }
    ensures words { kind_of error.now ≢ ErrorKind.OutOfMemory → result ≡ WORDS }
{
    if error.kind() == ErrorKind::OutOfMemory {
        report_out_of_memory(err)
    } else {
        let _ = write!(err, "{error}");
        WORDS
    }
}

/// Reads the words by the command line.
fn read_words<'a>(alloc: Global, words: &'a [&'a str]) -> Result<ArgMatches<'a>, Error>
    ensures found { IfOk result (HasRead (map (λ word. word.now) words.entry.now)) }
    ensures refused { IfErr result (λ e. (kind_of e ≡ ErrorKind.OutOfMemory)
        ⊎ (faults_in (map (λ word. word.now) words.entry.now) ≢ [])) }
{
    command(alloc)?.try_get_matches_from(words)
}

/// The job for the options found in the words; `None` if there is neither a script nor `--serve`, or there are both.
fn job_in<'a>(found: &ArgMatches<'a>) -> Option<Job<'a>>
    requires { is_some (first_value (found_of found.now) (codes "site")) ≡ true }
    ensures job { IfSome result
        (IsAsked (first_value (found_of found.now)) (one_text (found_of found.now))) }
    ensures none { IfNone result
        (IsNotOne (first_value (found_of found.now)) (one_text (found_of found.now))) }
{
    let site = found.get_str("site").unwrap_or("");
    match (found.get_str("script"), found.get_flag("serve")) {
        (Some(script), false) => Some(Job::Script { site, script }),
        (None, true) => Some(Job::Serve {
            site,
            terms: found.get_one::<u32>("terms").unwrap_or(0),
        }),
        _ => None,
    }
}

/// The most terms that the words may ask for.
const MOST_TERMS: i64 = 1_000_000;

/// The description of the program in `--help`.
const ABOUT: &str =
    "The site controller of a DMR Tier III trunked radio site: serves carriers and operators over TCP, or replays a script.";

/// The text of `--help` after the options.
const EXAMPLES: &str = "\
Examples:
  dmr_trunk --site site.toml --serve
      serves the site until it is stopped; notes go to standard error
  dmr_trunk --site site.toml --serve --terms 1
      serves one term, as many entries as the site file's term_entries, and ends
  dmr_trunk --site site.toml --script incident.txt
      replays a script, and prints what went out to each carrier and to operators

Status: 0 done; 1 a file, a port or the output; 2 the words; 3 an audit; 4 memory or a thread.
dmr_trunk(8) has more.";

/// The command line for the word reader. A successful parse has a value for the site file.
fn command<'a>(alloc: Global) -> Result<Command<'a>, OutOfMemory>
    ensures app { IfOk result (λ c. app_of c ≡ command) }
    ensures site { IfOk result (λ c. (m : ArgMatches) → IsParsedFrom c m
        → is_some (first_value (found_of m) (codes "site")) ≡ true) }
{
    titled_command(alloc)
        .arg(site_option(alloc))?
        .arg(script_option(alloc))?
        .arg(serve_flag(alloc))?
        .arg(terms_option(alloc))
}

/// A command line with this program's name and version, its `--help` texts, and no option yet.
fn titled_command<'a>(alloc: Global) -> Command<'a>
    ensures app { app_of result ≡ titled_command }
    ensures empty { (args_of result ≡ []) × (groups_of result ≡ []) }
    ensures local { ((out-Command result).has_globals ≡ false)
        × ((out-Command result).subcommand_negates_reqs ≡ false) }
{
    Command::new(alloc, "dmr_trunk")
        .version(VERSION)
        .about(ABOUT)
        .after_help(EXAMPLES)
}

/// The option `--site FILE`, which is required.
fn site_option<'a>(alloc: Global) -> Arg<'a>
    ensures rule { rule_of result ≡ site_option }
    ensures id { result.id.now ≡ codes "site" }
    ensures plain { IsPlainArg result × (result.global ≡ false) }
    ensures value { TakesValue result }
{
    Arg::new(alloc, "site")
        .long("site")
        .value_name("FILE")
        .required(true)
        .action(ArgAction::Set)
        .help("The site file: carriers, ports, radios, groups and times")
}

/// The range of N in `--terms N`.
fn terms_parser<'a>() -> ValueParser<'a>
    ensures { result ≡ ValueParser.Signed (pos 0) (pos 1000000) }
{
    clap::value_parser!(u32).range(0..=MOST_TERMS)
}

/// The option `--terms N`.
fn terms_option<'a>(alloc: Global) -> Arg<'a>
    ensures rule { rule_of result ≡ terms_option }
    ensures id { result.id.now ≡ codes "terms" }
    ensures plain { IsPlainArg result × (result.global ≡ false) }
{
    Arg::new(alloc, "terms")
        .long("terms")
        .value_name("N")
        .value_parser(terms_parser())
        .action(ArgAction::Set)
        .default_value("0")
        .help("End after this many audited terms, 1 to 1000000; 0: no end")
}

/// The flag `--serve`.
fn serve_flag<'a>(alloc: Global) -> Arg<'a>
    ensures rule { rule_of result ≡ serve_flag }
    ensures id { result.id.now ≡ codes "serve" }
    ensures plain { IsPlainArg result × (result.global ≡ false) }
{
    Arg::new(alloc, "serve")
        .long("serve")
        .action(ArgAction::SetTrue)
        .help("Serve the site's carriers and operators over TCP")
}

/// The option `--script FILE`.
fn script_option<'a>(alloc: Global) -> Arg<'a>
    ensures rule { rule_of result ≡ script_option }
    ensures id { result.id.now ≡ codes "script" }
    ensures plain { IsPlainArg result × (result.global ≡ false) }
{
    Arg::new(alloc, "script")
        .long("script")
        .value_name("FILE")
        .action(ArgAction::Set)
        .help("Replay this script, and print what goes out")
}

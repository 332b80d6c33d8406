//! The command line of the program `naga_judge`: its options, and what they ask for.
//! Part of `naga_judge`; no promise to users.
#![tactic(auto)]

use clap::{Arg, ArgAction, ArgMatches, Command, Error};
use std::alloc::{AllocError, Global};

/// What the program is asked for. Of `--json-lines`, `--json` and `--explain` one is given at most.
#[derive(Drop)]
pub struct Request<'a> {
    /// Whether each line is a document (`--json-lines`).
    pub is_lines: bool,
    /// Whether the verdict is written as JSON (`--json`).
    pub is_json: bool,
    /// Whether what is refused is listed, with the reason (`--explain`).
    pub is_explained: bool,
    /// Whether nothing is written to standard output (`--quiet`).
    pub is_quiet: bool,
    /// The files that are judged. None are standard input.
    pub files: Vec<&'a str>,
}

/// What `--help` writes after the options.
const AFTER_HELP: &str =
    "Without a FILE it reads standard input, and so it does for the FILE -. Each FILE is one document, but with --json-lines.
Exit status: 0 accepted, 1 refused, 2 not a document or not a command line, 3 out of memory,
4 reading or writing failed. Of several documents it is the largest.
docs/MODULES.md has the form of documents, docs/VERDICTS.md the meaning of verdicts.";

/// What these words ask for. The first word is the program's name.
///
/// An Err is what is wrong with the words, or the help or the version that they ask for.
pub fn request_of<'a>(alloc: Global, words: &'a [String]) -> Result<Request<'a>, Error> {
    let command = options(alloc)?;
    let matches = command.try_get_matches_from(words)?;
    let request = asked(alloc, &matches);
    drop(matches);
    Ok(request?)
}

/// What is asked for by words that fit the options.
fn asked<'a>(alloc: Global, matches: &ArgMatches<'a>) -> Result<Request<'a>, AllocError> {
    Ok(Request {
        is_lines: matches.get_flag("json-lines"),
        is_json: matches.get_flag("json"),
        is_explained: matches.get_flag("explain"),
        is_quiet: matches.get_flag("quiet"),
        files: files_given(alloc, matches)?,
    })
}

/// The files that are given.
fn files_given<'a>(alloc: Global, matches: &ArgMatches<'a>) -> Result<Vec<&'a str>, AllocError> {
    match matches.get_strs("FILE") {
        Some(paths) => paths.to_vec(alloc),
        None => Ok(Vec::new(alloc)),
    }
}

/// The option for a listing of what is refused.
fn explain<'a>(alloc: Global) -> Arg<'a> {
    Arg::new(alloc, "explain")
        .long("explain")
        .action(ArgAction::SetTrue)
        .help("List the function or entry point that is refused, and say why it is")
}

/// The option for a verdict as JSON.
fn json<'a>(alloc: Global) -> Result<Arg<'a>, AllocError> {
    let json = Arg::new(alloc, "json")
        .long("json")
        .action(ArgAction::SetTrue)
        .help("Write the verdict as one line of JSON");
    json.conflicts_with("explain")
}

/// The option for one document a line.
fn json_lines<'a>(alloc: Global) -> Result<Arg<'a>, AllocError> {
    let lines = Arg::new(alloc, "json-lines")
        .long("json-lines")
        .action(ArgAction::SetTrue)
        .help("Read one document per line, and write one line of JSON for each");
    lines.conflicts_with("json")?.conflicts_with("explain")
}

/// The option for an exit status alone.
fn quiet<'a>(alloc: Global) -> Arg<'a> {
    Arg::new(alloc, "quiet")
        .long("quiet")
        .short('q')
        .action(ArgAction::SetTrue)
        .help("Write no verdict: the exit status says which it is")
}

/// The files that are judged.
fn files<'a>(alloc: Global) -> Arg<'a> {
    Arg::new(alloc, "FILE")
        .action(ArgAction::Append)
        .num_args(0..)
        .help("Documents to judge")
}

/// The program without its options.
fn program<'a>(alloc: Global) -> Command<'a> {
    Command::new(alloc, "naga_judge")
        .version("0.1.0")
        .about("Validates shader modules: reads JSON documents, writes verdicts")
        .after_help(AFTER_HELP)
}

/// Adds an option, or the files.
fn add<'a>(words: &mut Vec<Arg<'a>>, word: Arg<'a>) -> Result<(), AllocError> {
    words.push(word)?;
    Ok(())
}

/// Adds the options, and the files.
fn add_all<'a>(alloc: Global, words: &mut Vec<Arg<'a>>) -> Result<(), AllocError> {
    add(words, explain(alloc))?;
    add(words, json(alloc)?)?;
    add(words, json_lines(alloc)?)?;
    add(words, quiet(alloc))?;
    add(words, files(alloc))
}

/// The options, and the files.
fn words<'a>(alloc: Global) -> Result<Vec<Arg<'a>>, AllocError> {
    let mut words = Vec::new(alloc);
    add_all(alloc, &mut words)?;
    Ok(words)
}

/// The program with its options.
fn options<'a>(alloc: Global) -> Result<Command<'a>, AllocError> {
    let words = words(alloc)?;
    program(alloc).args(words)
}

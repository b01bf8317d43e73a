//! The words of a command line, and the job that they ask for.

ghost use Rattle.std.specs.Prelude.{◌≡◌, true, List, Some, Option, option_map, map, IfErr, IfOk, IfSome, OnOk, MatchResult, codes, string_bytes};
ghost use Rattle.clap.specs.Matches.{has_subcommand};
ghost use Rattle.clap.specs.Simple.{subcommand_rows_of};
ghost use Rattle.clap.specs.Walk.{Row, first_of};
ghost use Rattle.sgf_lines.specs.declared.options.Form.{Form};
ghost use Rattle.sgf_lines.specs.Form.{form_word};
ghost use Rattle.sgfsplit_job.specs.CommandLine.{AreFaultless, IsTrueOf};
ghost use Rattle.sgfsplit_job.specs.PlainWords.{Word, SplitWords, ArePlainWords, IsFileWord, SplitsBy, CountsFile, file_of as file_of_rule, options_of, split_words, count_words};
ghost use Rattle.sgfsplit_job.specs.inner.Found.{rows_found, HoldSplitWords};

use crate::command::command;
use crate::jobs::{Job, JobFault};
use clap::ArgMatches;
use sgf_lines::{Form, Options};
use std::alloc::{AllocError, Global};

/// The job that the words ask for. The first word is the program's own name.
///
/// A number is at most 18,446,744,073,709,551,615. Words that ask for neither `sgfsplit split`
/// nor `sgfsplit count` are refused with `JobFault::Words`, which has clap's text and status.
/// So are words that ask for help. Refused memory is `JobFault::Memory`.
pub fn job<'a>(alloc: Global, words: &'a [String]) -> Result<Job, JobFault>
    // For plain words: each option may be given or not, in the order of the help. FILE may be given or not.
    ensures split { (name : Word) (given : SplitWords) → ArePlainWords given
        → map string_bytes words.now ≡ split_words name given
        → MatchResult result (SplitsBy (options_of given) (file_of_rule given.file)) (λ fault. fault ≡ JobFault.Memory) }
    ensures count { (name : Word) (file : Option Word) → IfSome file IsFileWord
        → map string_bytes words.now ≡ count_words name file
        → MatchResult result (CountsFile (file_of_rule file)) (λ fault. fault ≡ JobFault.Memory) }
    ensures faultless { OnOk result (AreFaultless (map string_bytes words.now)) }
    ensures faulty { IfErr result (IsTrueOf (map string_bytes words.now)) }
{
    let found = command(alloc)?.try_get_matches_from(words)?;
    Ok(found_job(alloc, &found)?)
}

/// The job of the words that clap accepted.
fn found_job(alloc: Global, found: &ArgMatches) -> Result<Job, AllocError>
    requires { has_subcommand found.now ≡ true }
    ensures split { IfOk result (λ job. (words : SplitWords) (rows : List Row) → ArePlainWords words
        → subcommand_rows_of found.now ≡ Some (codes "split", rows) → HoldSplitWords words rows
        → SplitsBy (options_of words) (file_of_rule words.file) job) }
    ensures count { IfOk result (λ job. (rows : List Row)
        → subcommand_rows_of found.now ≡ Some (codes "count", rows)
        → CountsFile (file_of_rule (first_of (codes "file") rows)) job) }
{
    let Some((name, found)) = found.subcommand() else {
        unreachable!()
    };
    let file = file_given(alloc, found)?;
    if name == "count" {
        return Ok(Job::Count { file });
    }
    let options = Options {
        form: form_given(found),
        after: found.get_one::<u64>("after"),
        limit: found.get_one::<u64>("limit"),
    };
    Ok(Job::Split { options, file })
}

/// The form that `--form` names.
fn form_given(found: &ArgMatches) -> Form
    ensures { (form : Form) → first_of (codes "form") (rows_found found.now) ≡ Some (form_word form) → result ≡ form }
{
    match found.get_str("form") {
        Some(word) => Form::named(word).unwrap_or(Form::List),
        None => Form::List,
    }
}

/// The file that the words name; None, which is standard input, if they name none, and for the word `-`.
fn file_given(alloc: Global, found: &ArgMatches) -> Result<Option<String>, AllocError>
    ensures { IfOk result (λ file. option_map string_bytes file
        ≡ file_of_rule (first_of (codes "file") (rows_found found.now))) }
{
    match found.get_str("file") {
        None => Ok(None),
        Some("-") => Ok(None),
        Some(word) => Ok(Some(String::from_str(alloc, word)?)),
    }
}

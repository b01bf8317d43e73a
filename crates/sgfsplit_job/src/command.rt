//! The command line as it is described to clap:
//!
//! ```text
//! sgfsplit split [--form list|sgf|gtp] [--after PLACE] [--limit N] [FILE]
//! sgfsplit count [FILE]
//! ```

ghost use Rattle.std.specs.Prelude.{◌≡◌, false, IfOk};
ghost use Rattle.clap.specs.Walk.{rule_of};
ghost use Rattle.clap.specs.Simple.{app_of};
ghost use Rattle.sgfsplit_job.specs.CommandLine.{FormNames, names_of, form_names, form_rule, number_rule, file_rule, split_app, count_app, program_app};

use clap::{Arg, Command, value_parser};
use sgf_lines::Form;
use std::alloc::{AllocError, Global};

/// The text after the list of commands in the program's help. Its last row has the version that is in the file VERSION.
const EXAMPLE: &str = "\
Example:
  sgfsplit split --form sgf joseki.sgf > lines.sgf

writes each line of play of joseki.sgf, from the root of its game to a leaf, as
a game of its own. FILE is a Smart Game Format collection (FF[4]), at most
64 MiB. Without FILE, or if it is -, standard input is read.

Exit status: 0 all is written, 1 the input or the place of --after is refused,
2 the command line is wrong, 3 a file could not be opened, read or written, 4
out of memory.

sgfsplit 0.2";

/// The text after the options in the help of `split`.
const SPLIT_EXAMPLE: &str = "\
Forms:
  list  a row for each line: PLACE GAME NODES VERDICT
  sgf   a game without variations for each line, its values as they stand
  gtp   a script of the Go Text Protocol for each line, with its comments

PLACE is the offset in bytes, from 0, of the ';' of the line's last node. GAME
is the number of its game, from 1. NODES is the number of its nodes.

Verdicts:
  score BLACK WHITE open     each player's area; the game isn't over
  score BLACK WHITE over     the same, after two passes in a row
  illegal TURN PLACE REASON  the first illegal turn, from 1, and its node
  unjudged game              the game isn't Go
  unjudged size              the board isn't a square of 1 to 52 points a side

Reasons, of which the first that holds is given:
  mixed      the node has moves and setup
  two-moves  the node has two moves or more
  bad-setup  a stone isn't a point or rectangle of the board, or PL isn't B or W
  bad-point  the move is neither a point of the board nor a pass
  over       two passes in a row have ended the game
  turn       the other player must move
  occupied   the point isn't empty
  repeat     the position was there before, since the last setup of stones

The first ten lines, and then the ten lines after the line of place 4711, are
  sgfsplit split --limit 10 joseki.sgf
  sgfsplit split --limit 10 --after 4711 joseki.sgf

Some engines cut long rows and run the rest of a comment as a command. Remove
the comments of an unknown file before an engine reads the script:
  sgfsplit split --form gtp game.sgf | grep -v '^#' | gnugo --mode gtp
Records in sgf and gtp form keep escape sequences for terminals.";

/// The text after the options in the help of `count`.
const COUNT_EXAMPLE: &str = "\
Example:
  sgfsplit count joseki.sgf

writes the numbers of games, nodes and lines of play.";

/// The whole command line.
pub fn command<'a>(alloc: Global) -> Result<Command<'a>, AllocError>
    ensures { IfOk result (λ c. (names : FormNames)
        × (names_of names ≡ form_names) × (app_of c ≡ program_app names)) }
{
    let split = split_command(alloc)?;
    let program = Command::new(alloc, "sgfsplit")
        .about("Splits Go games with variations into their single lines of play")
        .after_help(EXAMPLE)
        .subcommand_required(true)
        .subcommand(split)?;
    let count = count_command(alloc)?;
    Ok(program.subcommand(count)?)
}

/// The command `split`.
fn split_command<'a>(alloc: Global) -> Result<Command<'a>, AllocError>
    ensures { IfOk result (λ c. (names : FormNames)
        × (names_of names ≡ form_names) × (app_of c ≡ split_app names)) }
{
    let split = Command::new(alloc, "split")
        .about("Writes one record per line of play, in the order of the file")
        .after_help(SPLIT_EXAMPLE)
        .arg(form_option(alloc))?
        .arg(number_option(
            alloc,
            "after",
            "PLACE",
            "Only the lines that follow the line of this place",
        ))?
        .arg(number_option(alloc, "limit", "N", "At most N lines, the first ones"))?
        .arg(file_argument(alloc))?;
    Ok(split)
}

/// The command `count`.
fn count_command<'a>(alloc: Global) -> Result<Command<'a>, AllocError>
    ensures { IfOk result (λ c. app_of c ≡ count_app) }
{
    let count = Command::new(alloc, "count")
        .about("Counts the games, nodes and lines of play")
        .after_help(COUNT_EXAMPLE)
        .arg(file_argument(alloc))?;
    Ok(count)
}

/// The option `--form`, which takes the name of a form.
fn form_option<'a>(alloc: Global) -> Arg<'a>
    ensures rule { (names : FormNames) × (names_of names ≡ form_names) × (rule_of result ≡ form_rule names) }
    ensures local { result.global ≡ false }
{
    Arg::new(alloc, "form")
        .long("form")
        .value_name("FORM")
        .help("How each line of play is written")
        .default_value("list")
        .value_parser(Form::words())
}

/// An option that takes a 64-bit number.
fn number_option<'a>(alloc: Global, name: &'a str, value_name: &'a str, help: &'a str) -> Arg<'a>
    ensures rule { rule_of result ≡ number_rule name.entry.now }
    ensures local { result.global ≡ false }
{
    Arg::new(alloc, name)
        .long(name)
        .value_name(value_name)
        .help(help)
        .value_parser(value_parser!(u64))
}

/// The argument FILE.
fn file_argument<'a>(alloc: Global) -> Arg<'a>
    ensures rule { rule_of result ≡ file_rule }
    ensures local { result.global ≡ false }
{
    Arg::new(alloc, "file")
        .value_name("FILE")
        .help("The collection to read; none or -: standard input")
}

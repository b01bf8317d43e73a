//! What a run is asked for.

ghost use Rattle.std.specs.Prelude.{◌≡◌, List, IfSome, None, Some, map, slice_get};
ghost use Rattle.sgf_lines.specs.Form.{forms, form_word};

/// The words that name the forms, in the order of their numbers.
const WORDS: [&str; 3] = ["list", "sgf", "gtp"];

/// How a line of play is written.
#[derive(Clone, Copy, Debug, PartialEq, Eq)]
pub enum Form {
    /// A row with the line's place, its game, the number of its nodes and its verdict.
    List,
    /// A game of the Smart Game Format (SGF FF[4]) without variations.
    Sgf,
    /// A script of the Go Text Protocol, version 2.
    Gtp,
}

impl Form {
    /// The words that name the forms, in the order of their numbers.
    pub fn words() -> &'static [&'static str]
        ensures { map (λ word. word.now) result.now ≡ map form_word forms }
    {
        WORDS.as_slice()
    }

    /// The form that a word names; None if it names none.
    pub fn named(word: &str) -> Option<Form>
        ensures named { IfSome result (λ form. form_word form ≡ word.now) }
        ensures all { (form : Form) → form_word form ≡ word.now → result ≡ Some form }
    {
        match word {
            "list" => Some(Form::List),
            "sgf" => Some(Form::Sgf),
            "gtp" => Some(Form::Gtp),
            _ => None,
        }
    }

    /// The form with this number, from 0; None if no form has it.
    pub fn numbered(number: u32) -> Option<Form>
        ensures { result ≡ slice_get forms number }
    {
        match number {
            0 => Some(Form::List),
            1 => Some(Form::Sgf),
            2 => Some(Form::Gtp),
            _ => None,
        }
    }
}

/// Which lines of play are written, and how.
#[derive(Clone, Copy, Debug, PartialEq, Eq)]
pub struct Options {
    /// How each line is written.
    pub form: Form,
    /// Keeps only the lines that follow the line with this place; None keeps all. A
    /// line's place is the offset in bytes, from 0, of the `;` of its last node.
    pub after: Option<u64>,
    /// Keeps at most this many of those lines, the first ones; None keeps all.
    pub limit: Option<u64>,
}

impl Options {
    /// The options for all lines, in this form.
    pub fn all(form: Form) -> Options
        ensures { result ≡ record { form = form; after = None; limit = None } }
    {
        Options {
            form,
            after: None,
            limit: None,
        }
    }
}

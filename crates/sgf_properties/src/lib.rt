//! The properties of a node of an SGF text (SGF FF[4]): their names, their raw values and the escapes in these, what values mean as texts
//! and numbers, and going over them one after another.
//!
//! A property stands in a text as an identifier, whose capitals are its name, and raw values between brackets. Nothing is stored of it: a
//! [`PropRef`] refers to these bytes. [`Properties`] goes over the properties of a node, and [`Values`] over the values of a property.
//! These take no memory. [`push_text`] appends what a raw value means as a text, [`number`] returns what it means as a number, and
//! [`push_property`] appends a property as the sgf form writes it.
//!
//! ```text
//! for property in Properties::new(text, at, &long) {
//!     if property.is(b"C") {
//!         push_text(property.value(0), &mut comments)?;
//!     }
//! }
//! ```
//!
//! The crate `sgf_tree` reads whole texts. It calls the functions of `scan`, `value` and `quick` while it reads, and passes on what its own
//! users need: the three types, `push_text`, `number`, and `MemoryFault`. All offsets are in bytes, from 0.
//!
//! | Module | What it has |
//! |---|---|
//! | `property` | looking into a property |
//! | `iter` | the properties of a node and the values of a property, one after another |
//! | `scan` | white space, where parts of a text end, and what stands at an offset |
//! | `value` | what ends a raw value, and the type of the kept length of a long one |
//! | `text`, `numbers` | the decoded text of a value; the value of a number |
//! | `written` | writing a property as the sgf form does |
//! | `quick` | shortcuts for what nearly all texts have |
//! | `fault` | how a call that takes memory may fail |
//! | `laws` | what holds of all raw values |
//!
//! | Rule (docs/GRAMMAR.md, docs/OUTPUT.md) | Function, and its module |
//! |---|---|
//! | PropIdent: its letters | `letters_end` (`scan`) |
//! | the name of a property: its capitals | `PropRef::is`, `PropRef::push_name` (`property`); in the sgf form of a run: `copy_capitals` of `sgf_tree` (`reader/properties`) |
//! | the end of a raw value, which is the first `]` that no `\` escapes | `far_value_end` (`value`); shortcuts: `near_value_end`, `is_two_ordinary`, `past_points` (`quick/value`) |
//! | white space: its bytes | `white_space_end`, `skip_white_space` (`scan`) |
//! | decoded text; numbers | `decode_front`, which `push_text` calls (`text`); `number` (`numbers`) |
//! | a property in sgf form | `push_property` (`written`) |
//!
//! The plain code is complete without the shortcuts in `quick`, which may be skipped: a first reader may take each call of one to find
//! nothing, as if it returned None, false, 0, or the offset that it got. A shortcut ensures no more than the plain function that it stands
//! in for. Outside `quick` these are there only for speed: the kept lengths of long values (`long`), which a first reader may take to be
//! empty; the first test in `skip_white_space`, and the test in `values_end`; that the first value of a property is held apart until it is
//! taken off (`Values.first`), since its end is known; `PropRef::initial`, which tells most names apart by one byte; and `literal_length`,
//! by which `push_text` appends many bytes at once.
//!
//! Worked examples are in the crate `sgf_tree_tests`.
#![tactic(auto)]

mod fault;
mod iter;
pub mod laws;
mod numbers;
mod property;
mod quick;
mod scan;
mod text;
mod value;
mod written;

pub use fault::MemoryFault;
pub use iter::{Properties, Values, property_at};
pub use numbers::number;
pub use property::PropRef;
pub use quick::name::short_name_end;
pub use quick::value::{NEAR, is_two_ordinary, near_value_end, past_points, short_value_end};
pub use scan::{begins_value, capital_at, letters_end, skip_white_space, stands_at};
pub use text::push_text;
pub use value::{LongValue, far_value_end};
pub use written::push_property;

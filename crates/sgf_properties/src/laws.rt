//! Laws of the definitions. A function here does nothing: its contract is a law, and is proved.

ghost use Rattle.std.specs.Prelude.{◌≡◌, ◌↔◌, ℕ, List};
ghost use Rattle.sgf_properties.specs.Text.{IsDecoded, text_of};

/// The function that computes the decoded text of a raw value agrees with the rules that define it (SGF FF\[4\], Text). By these
/// rules each raw value has exactly one text, and the function computes it.
pub fn decoded()
    ensures { (raw text : List ℕ) → IsDecoded raw text ↔ (text ≡ text_of raw) }
{}

//! The commands of a node in the script of a line (Go Text Protocol, version 2).
//!
//! `#[inline(always)]` is on a play command, which most nodes add, and on the search for a board's stones, so that it is compiled for each
//! colour. `#[inline(never)]` is on what few nodes or points need. Without these attributes gtp form takes up to 1.4 % more instructions.

ghost use Rattle.std.specs.Prelude.{◌≡◌, ℕ, List, ◌++◌, ◌+◌, ◌≤◌, ◌<◌, ◌*◌, OnOk};
ghost use Rattle.board_points.specs.Point.{IsOn};
ghost use Rattle.go_board.specs.declared.referee.plays.Play.TheVariants.{Stone};
ghost use Rattle.go_board.specs.State.{IsPlayOn};
ghost use Rattle.sgf_properties.specs.Text.{text_of};
ghost use Rattle.sgf_lines.specs.Script.{text_rows, comment_row, play_command, stone_commands, colouring_commands};
ghost use Rattle.sgf_lines.specs.inner.Cutting.{AreAppended};
ghost use Rattle.sgf_lines.specs.inner.Scripting.{IsPlayable, step_script};

use go_board::{Board, Colour, MAX_VERTEX_SIDE, Play, Point, Size, Vertex, vertex};
use judged_lines::{Effect, LegalStep};
use memchr::memchr;
use sgf_tree::{MemoryFault, push_text};

/// Appends bytes.
pub(crate) fn push_bytes(bytes: &[u8], output: &mut Vec<u8>) -> Result<(), MemoryFault>
    ensures { OnOk result (output.new.items ≡ output.old.items ++ bytes.now) }
{
    output.extend_from_slice(bytes)?;
    Ok(())
}

/// Appends what a legal step adds to the script of a line; `board` is the board after the step.
pub(crate) fn push_step(
    step: LegalStep<'_>,
    board: &Board,
    output: &mut Vec<u8>,
) -> Result<(), MemoryFault>
    requires letters { board.now.side ≤ MAX_VERTEX_SIDE }
    requires playable { IsPlayable board.now.side step.effect }
    ensures { OnOk result (output.new.items ≡ output.old.items ++ step_script board.now step.entry) }
{
    if let Some(raw) = step.comment {
        push_text_of(raw, output)?;
    }
    match step.effect {
        Effect::Nothing => Ok(()),
        Effect::Stones => push_board(board, output),
        Effect::Play(colour, play) => push_play(board.size(), colour, play, output),
    }
}

/// Appends the rows of the text that a raw value stands for. Most texts have one row: so the text is decoded in place, after the
/// bytes that begin a row. Any other text takes the plain way, `push_text_rows`.
#[inline(never)]
fn push_text_of(raw: &[u8], output: &mut Vec<u8>) -> Result<(), MemoryFault>
    ensures { OnOk result (output.new.items ≡ output.old.items ++ text_rows (text_of raw.now)) }
{
    let row = output.len();
    push_bytes(b"# ", output)?;
    let start = output.len();
    push_text(raw, output)?;
    let text = &output[start..];
    if !text.is_empty() && memchr(b'\n', text).is_none() {
        return push_bytes(b"\n", output);
    }
    let mut text = Vec::new(*output.allocator());
    text.extend_from_slice(&output[start..])?;
    output.truncate(row);
    push_text_rows(&text, output)
}

/// Appends a comment row for each piece of a text that is cut at its line feeds; nothing for an empty text. This is the plain way.
fn push_text_rows(text: &[u8], output: &mut Vec<u8>) -> Result<(), MemoryFault>
    ensures { OnOk result (output.new.items ≡ output.old.items ++ text_rows text.now) }
{
    if text.is_empty() {
        return Ok(());
    }
    let mut rest = text;
    'pieces: while let Some(end) = memchr(b'\n', rest) {
        push_comment_row(&rest[..end], output)?;
        rest = &rest[end + 1..];
    }
    push_comment_row(rest, output)
}

/// Appends a comment row.
fn push_comment_row(piece: &[u8], output: &mut Vec<u8>) -> Result<(), MemoryFault>
    ensures { OnOk result (output.new.items ≡ output.old.items ++ comment_row piece.now) }
{
    push_bytes(b"# ", output)?;
    push_bytes(piece, output)?;
    push_bytes(b"\n", output)
}

/// Appends a whole board: the command that clears it, then all black stones, then all white ones.
#[inline(never)]
fn push_board(board: &Board, output: &mut Vec<u8>) -> Result<(), MemoryFault>
    requires { board.now.side ≤ MAX_VERTEX_SIDE }
    ensures { OnOk result (output.new.items ≡ output.old.items ++ colouring_commands board.now) }
{
    push_bytes(b"clear_board\n", output)?;
    push_stones(board, Colour::Black, output)?;
    push_stones(board, Colour::White, output)
}

/// Appends the stones of a colour, row by row from the top, from left to right.
#[inline(always)]
fn push_stones(board: &Board, colour: Colour, output: &mut Vec<u8>) -> Result<(), MemoryFault>
    requires { board.now.side ≤ MAX_VERTEX_SIDE }
    ensures { OnOk result (output.new.items ≡ output.old.items ++ stone_commands board.now colour) }
{
    'rows: for row in 0..board.size().side() {
        push_row(board, row, colour, output)?;
    }
    Ok(())
}

/// Appends the stones of a colour in a row, from left to right. The stones of the rows above it must be appended already.
#[inline(always)]
fn push_row(board: &Board, row: u8, colour: Colour, output: &mut Vec<u8>) -> Result<(), MemoryFault>
    requires letters { board.now.side ≤ MAX_VERTEX_SIDE }
    requires row { row < board.now.side }
    ensures { (before : List ℕ) → AreAppended board.now colour (row * board.now.side) before output.old.items
        → OnOk result (AreAppended board.now colour ((row + 1) * board.now.side) before output.new.items) }
{
    'columns: for col in 0..board.size().side() {
        let point = Point { col, row };
        if board.at(point) == colour.stone() {
            push_stone(board.size(), colour, point, output)?;
        }
    }
    Ok(())
}

/// Appends the play command of a stone on a board.
#[inline(never)]
fn push_stone(size: Size, colour: Colour, at: Point, text: &mut Vec<u8>) -> Result<(), MemoryFault>
    requires letters { size ≤ MAX_VERTEX_SIDE }
    requires on_board { IsOn size at }
    ensures { OnOk result (text.new.items ≡ text.old.items ++ play_command size colour (Stone at)) }
{
    push_play(size, colour, Play::Stone(at), text)
}

/// Appends a play command. Its bytes are laid out first and appended in one call.
#[inline(always)]
fn push_play(size: Size, colour: Colour, play: Play, text: &mut Vec<u8>) -> Result<(), MemoryFault>
    requires letters { size ≤ MAX_VERTEX_SIDE }
    requires on_board { IsPlayOn size play }
    ensures { OnOk result (text.new.items ≡ text.old.items ++ play_command size colour play) }
{
    let player = match colour {
        Colour::Black => b'B',
        Colour::White => b'W',
    };
    let Play::Stone(point) = play else {
        let pass = [
            b'p', b'l', b'a', b'y', b' ', player, b' ', b'p', b'a', b's', b's', b'\n',
        ];
        return push_bytes(&pass, text);
    };
    let Vertex { letter, row } = vertex(point, size);
    let tens = b'0' + row / 10;
    let ones = b'0' + row % 10;
    if row < 10 {
        let command = [
            b'p', b'l', b'a', b'y', b' ', player, b' ', letter, ones, b'\n',
        ];
        push_bytes(&command, text)
    } else {
        let command = [
            b'p', b'l', b'a', b'y', b' ', player, b' ', letter, tens, ones, b'\n',
        ];
        push_bytes(&command, text)
    }
}

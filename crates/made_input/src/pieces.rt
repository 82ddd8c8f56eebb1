//! The pieces of a made source text, and the line that loads it.
ghost use Rattle.std.specs.Prelude.{◌≡◌, ◌<◌, ◌≤◌, [], ◌∷◌, ◌++◌, length};
ghost use Rattle.text_spec.specs.Text.{utf16};
ghost use Rattle.made_input.specs.Draws.{stepped};
ghost use Rattle.made_input.specs.Pieces.{piece};
ghost use Rattle.made_input.specs.Made.{after_source, escaped, load_line, piece_drawn};
ghost use Rattle.made_input.specs.Made as made;

use crate::draws::Draws;
use crate::line::{LINE_ROOM, Line};

/// How many pieces a source text has.
const PIECES: u32 = 1_000;

/// A piece as it stands in a JSON string: its number is below 8.
pub(crate) fn piece_escaped(number: u32) -> &'static str
    requires { number < 8 }
    ensures { result.now ≡ escaped (piece number) }
{
    match number {
        0 => "let total = total + item_value;\\n",
        1 => "// résumé of the open accounts\\n",
        2 => "fn area(w: u64, h: u64) -> u64\\n",
        3 => "    if count > 0 { return; }\\n",
        4 => "    store.push(row, column);\\n",
        5 => "// naïve, then faster: 日本語\\n",
        6 => "} // end of this block here\\n",
        _ => "// done 😀 and checked twice\\n",
    }
}

/// The length of a piece in UTF-16 units: its number is below 8.
fn piece_units(number: u32) -> u32
    requires { number < 8 }
    ensures units { result ≡ length (utf16 (piece number)) }
    ensures small { result ≤ 32 }
{
    match number {
        0 => 32,
        1 => 31,
        2 => 31,
        3 => 29,
        4 => 29,
        5 => 27,
        6 => 28,
        _ => 29,
    }
}

/// Appends a drawn piece as it stands in a JSON string, and answers its length in UTF-16 units.
fn put_piece(line: &mut Line, draws: &mut Draws) -> u32
    requires { length (line.old ++ escaped (piece_drawn draws.old.state)) ≤ LINE_ROOM }
    ensures bytes { line.new ≡ line.old ++ escaped (piece_drawn draws.old.state) }
    ensures units { result ≡ length (utf16 (piece_drawn draws.old.state)) }
    ensures small { result ≤ 32 }
    ensures state { draws.new.state ≡ stepped draws.old.state }
{
    let number = draws.draw(8);
    line.put(piece_escaped(number).as_bytes());
    piece_units(number)
}

/// Appends the pieces of a source text as they stand in a JSON string, and answers the text's length in UTF-16 units.
fn put_source(line: &mut Line, draws: &mut Draws) -> u32
    requires { length (line.old ++ escaped (made.source draws.old.state)) ≤ LINE_ROOM }
    ensures bytes { line.new ≡ line.old ++ escaped (made.source draws.old.state) }
    ensures units { result ≡ made.units draws.old.state }
    ensures state { draws.new.state ≡ after_source draws.old.state }
{
    let mut units = 0;
    for _number in 0..PIECES {
        units += put_piece(line, draws);
    }
    units
}

/// Puts the line that loads a source text, and answers the text's length in UTF-16 units.
#[tactic(auto, unfolding(crate::specs::Made::load_line))]
pub(crate) fn put_load(line: &mut Line, draws: &mut Draws) -> u32
    requires empty { line.old ≡ [] }
    ensures bytes { line.new ≡ load_line draws.old.state ++ 10 ∷ [] }
    ensures units { result ≡ made.units draws.old.state }
    ensures state { draws.new.state ≡ after_source draws.old.state }
{
    line.put(b"{\"load\":\"doc\",\"text\":\"");
    let units = put_source(line, draws);
    line.put(b"\"}\n");
    units
}

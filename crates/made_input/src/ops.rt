//! The line of a batch: eight jobs of 210 ops each.
ghost use Rattle.std.specs.Prelude.{◌≡◌, ◌+◌, ◌<◌, ◌≤◌, ◌^◌, [], ◌∷◌, ◌++◌, length};
ghost use Rattle.made_input.specs.Draws.{stepped};
ghost use Rattle.made_input.specs.Pieces.{piece};
ghost use Rattle.made_input.specs.Made as made;
ghost use Rattle.made_input.specs.Made.{after_batch, after_op, after_ops, at_op, batch_line, comma, edit_op, edit_text, job, keep};

use crate::draws::Draws;
use crate::line::{LINE_ROOM, Line};
use crate::pieces::piece_escaped;

/// How many jobs a batch has.
const JOBS: u32 = 8;

/// How many ops a job has.
const OPS: u32 = 210;

/// A comma, before each member of a list but the first.
#[tactic(auto, unfolding(crate::specs::Made::comma))]
fn put_comma(line: &mut Line, number: u32)
    requires { length (line.old ++ comma number) ≤ LINE_ROOM }
    ensures { line.new ≡ line.old ++ comma number }
{
    if number != 0 {
        line.put(b",");
    }
}

/// An op that asks for a place of a text of so many UTF-16 units.
#[tactic(auto, unfolding(crate::specs::Made::at_op))]
fn put_at(line: &mut Line, draws: &mut Draws, units: u32)
    requires some { 0 < units }
    requires room { length (line.old ++ at_op units draws.old.state) ≤ LINE_ROOM }
    ensures bytes { line.new ≡ line.old ++ at_op units draws.old.state }
    ensures state { draws.new.state ≡ stepped draws.old.state }
{
    line.put(b"{\"at\":");
    line.put_number(draws.draw(units));
    line.put(b"}");
}

/// An op that puts piece `number`, below 8, in place of `count` UTF-16 units from unit `from`.
#[tactic(auto, unfolding(crate::specs::Made::edit_text))]
fn put_edit_text(line: &mut Line, from: u32, count: u32, number: u32)
    requires small { from + count < 2 ^ 32 }
    requires below { number < 8 }
    requires room { length (line.old ++ edit_text from count (piece number)) ≤ LINE_ROOM }
    ensures { line.new ≡ line.old ++ edit_text from count (piece number) }
{
    line.put(b"{\"edit\":[");
    line.put_number(from);
    line.put(b",");
    line.put_number(from + count);
    line.put(b"],\"with\":\"");
    line.put(piece_escaped(number).as_bytes());
    line.put(b"\"}");
}

/// An op that edits a text of so many UTF-16 units.
#[tactic(auto, unfolding(crate::specs::Made::edit_op))]
fn put_edit(line: &mut Line, draws: &mut Draws, units: u32)
    requires some { 16 < units }
    requires room { length (line.old ++ edit_op units draws.old.state) ≤ LINE_ROOM }
    ensures bytes { line.new ≡ line.old ++ edit_op units draws.old.state }
    ensures state { draws.new.state ≡ stepped (stepped (stepped draws.old.state)) }
{
    let from = draws.draw(units - 16);
    let count = draws.draw(8);
    put_edit_text(line, from, count, draws.draw(8));
}

/// Op `number` of a job: each twenty-first is an edit.
#[tactic(auto, unfolding(crate::specs::Made::op, crate::specs::Made::after_op))]
fn put_op(line: &mut Line, draws: &mut Draws, units: u32, number: u32)
    requires some { 16 < units }
    requires room { length (line.old ++ made.op units number draws.old.state) ≤ LINE_ROOM }
    ensures bytes { line.new ≡ line.old ++ made.op units number draws.old.state }
    ensures state { draws.new.state ≡ after_op number draws.old.state }
{
    if number % 21 == 20 {
        put_edit(line, draws, units);
    } else {
        put_at(line, draws, units);
    }
}

/// The ops of a job.
fn put_ops(line: &mut Line, draws: &mut Draws, units: u32)
    requires some { 16 < units }
    requires room { length (line.old ++ made.ops units draws.old.state) ≤ LINE_ROOM }
    ensures bytes { line.new ≡ line.old ++ made.ops units draws.old.state }
    ensures state { draws.new.state ≡ after_ops draws.old.state }
{
    for number in 0..OPS {
        put_comma(line, number);
        put_op(line, draws, units, number);
    }
}

/// That the first job keeps its text.
#[tactic(auto, unfolding(crate::specs::Made::keep))]
fn put_keep(line: &mut Line, number: u32)
    requires { length (line.old ++ keep number) ≤ LINE_ROOM }
    ensures { line.new ≡ line.old ++ keep number }
{
    if number == 0 {
        line.put(b",\"keep\":\"kept\"");
    }
}

/// Job `number` of a batch.
#[tactic(auto, unfolding(crate::specs::Made::job))]
fn put_job(line: &mut Line, draws: &mut Draws, units: u32, number: u32)
    requires some { 16 < units }
    requires room { length (line.old ++ job units number draws.old.state) ≤ LINE_ROOM }
    ensures bytes { line.new ≡ line.old ++ job units number draws.old.state }
    ensures state { draws.new.state ≡ after_ops draws.old.state }
{
    line.put(b"{\"do\":[");
    put_ops(line, draws, units);
    line.put(b"]");
    put_keep(line, number);
    line.put(b",\"on\":\"doc\"}");
}

/// The jobs of a batch.
fn put_jobs(line: &mut Line, draws: &mut Draws, units: u32)
    requires some { 16 < units }
    requires room { length (line.old ++ made.jobs units draws.old.state) ≤ LINE_ROOM }
    ensures bytes { line.new ≡ line.old ++ made.jobs units draws.old.state }
    ensures state { draws.new.state ≡ after_batch draws.old.state }
{
    for number in 0..JOBS {
        put_comma(line, number);
        put_job(line, draws, units, number);
    }
}

/// Puts the line of a batch over a text of so many UTF-16 units.
#[tactic(auto, unfolding(crate::specs::Made::batch_line))]
pub(crate) fn put_batch(line: &mut Line, draws: &mut Draws, units: u32)
    requires empty { line.old ≡ [] }
    requires some { 16 < units }
    requires few { units < 10 ^ 5 }
    ensures bytes { line.new ≡ batch_line units draws.old.state ++ 10 ∷ [] }
    ensures state { draws.new.state ≡ after_batch draws.old.state }
{
    line.put(b"{\"batch\":[");
    put_jobs(line, draws, units);
    line.put(b"]}\n");
}

ghost use Rattle.std.specs.Prelude.{◌≡◌, ◌≢◌, ◌↔◌, ◌⊎◌, None, IsSome, IfSome, IsErrOf};
ghost use Rattle.crumbs.specs.Fitting.{IsCrumbList};
ghost use Rattle.slot_table.specs.Owners as owners;
ghost use Rattle.std.specs.Io.KnownBytes.{Appends, IsAtEnd};
ghost use Rattle.query_session.specs.Literals.{default_literals};
ghost use Rattle.outside.specs.Bytes.{AppendsPrefix};
ghost use Rattle.outside.specs.Causes.{Rose};
ghost use Rattle.query_program.specs.Answers.{answers, empty};
ghost use Rattle.query_program.specs.Default.{default_layout};
ghost use Rattle.query_program.specs.Ends.{Ends, AnsweredWhole, AnsweredPart, EndsByLine, EndsByInput, TookFew};
ghost use Rattle.query_program.specs.Limits.{HasLongLine, HasTooManyBytes, IsWithin};
ghost use Rattle.query_program.specs.Runs.{RunDone};
ghost use Rattle.query_program.specs.Statuses.{IsStatus, IsMadeStatus, IsUnhindered, status_of_end};
ghost use Rattle.query_program.specs.Summary.{summary};
ghost use Rattle.query_program.specs.Use.{UsesStorage};
ghost use Rattle.query_program.specs.Words.{IsLineCount, IsPlain, IsWorkerCount, made_by, options_of};

use crate::heap::{ended, opened};
use crate::output::send;
use crate::stop::Stop;
use crate::stream::answer_stream;
use crate::summary::{length_of, summary_text};
use crate::tally::Tally;
use crate::words::{Made, read_words};
use made_input::MadeInput;
use outside::{Gate, Sink, Source};
use query_session::Session;
use slot_table::{Closed, Whole};
use std::alloc::Global;
use std::thread::Threads;
use str_value::{StrCrumbs, StrPass};
use text_spec::TextList;

/// How a run ended.
#[derive(Drop)]
pub struct Ended {
    /// The status, as `run` lists them.
    pub status: u8,
    /// The heap that the values stood in, as it was closed, with its whole history.
    pub history: Option<Closed<StrCrumbs>>,
}

/// How the lines of a source were answered.
#[derive(Drop)]
struct Answered {
    /// Why they were not all answered, if they were not.
    end: Result<(), Stop>,
    /// The closed heap.
    history: Option<Closed<StrCrumbs>>,
}

/// Answers each line of the source with one line to the sink, until the source ends.
///
/// `words` are those of the command line without the program's name, of the form that `read_words` takes. Where they ask for an input to be
/// made, nothing is read, its lines are answered as lines that came, and the summary is written in place of the replies: then only 0, 4
/// and 5 come.
///
/// | status | comes | written |
/// |---|---|---|
/// | 0 | the source was read to its end | all replies |
/// | 2 | exactly where the words are not of the form | nothing; nothing was read |
/// | 3 | exactly where the source's count of faults rose | the replies to the whole lines read |
/// | 4 | exactly where the sink's count of faults rose | a first part of the replies to what was read |
/// | 5 | memory was wanting | a first part of the replies to what was read |
/// | 6 | exactly where a line passes 4,194,304 bytes without its newline | the replies to the lines before it |
/// | 7 | exactly where more than 67,108,864 bytes come | the replies to the lines whose newline is among the first so many |
///
/// The run ends at the first of these that it meets, and on one byte at 6 before 7: at 3, 4 and 5 what was read keeps both
/// limits, and no run reads more than one byte past the limit of the input. What is said of 3 and above of the bytes holds
/// where source and sink tell theirs. The values stand in a heap of the run's own, of 256 slots with 8,192 words each, 4,096 credits and
/// four literals, which is closed at the end: at a status other than 2 and 5 its history comes back. Time linear in the input and the replies; memory for the texts, one line and one reply.
pub fn run<R: Threads + Sync, S: Source, K: Sink, G: Gate>(
    rt: &R,
    alloc: Global,
    words: &TextList,
    source: &mut S,
    sink: &mut K,
    gate: &G,
) -> Ended
    ensures statuses { IsStatus result.status }

    // The words decide alone, before anything is read or written.
    ensures usage { (result.status ≡ 2) ↔ (options_of words.now ≡ None) }
    ensures unread { result.status ≡ 2 → (source.new ≡ source.old) × (sink.new ≡ sink.old) }

    // Faults of the two ends.
    ensures read { result.status ≡ 3 → Rose (S.faults source.old) (S.faults source.new) }
    ensures write { result.status ≡ 4 → Rose (K.faults sink.old) (K.faults sink.new) }
    ensures source_still { result.status ≢ 3 → S.faults source.new ≡ S.faults source.old }
    ensures sink_still { result.status ≢ 4 → K.faults sink.new ≡ K.faults sink.old }

    // Where nothing hindered the run, its input alone decides between 0, 6 and 7.
    ensures line_too_long { IsPlain words.now → IsUnhindered result.status → IfSome (S.left source.old) (λ input. (result.status ≡ 6) ↔ HasLongLine input) }
    ensures input_too_long { IsPlain words.now → IsUnhindered result.status → IfSome (S.left source.old) (λ input. (result.status ≡ 7) ↔ HasTooManyBytes input) }
    ensures within { IsPlain words.now → IsUnhindered result.status → IfSome (S.left source.old) (λ input. (result.status ≡ 0) ↔ IsWithin input) }
    ensures complete { IsPlain words.now → IfSome (S.left source.old) (λ input. IsWithin input
        → ¬ (Rose (S.faults source.old) (S.faults source.new)) → ¬ (Rose (K.faults sink.old) (K.faults sink.new)) → (result.status ≡ 0) ⊎ (result.status ≡ 5)) }

    // What was written.
    ensures begun { IsPlain words.now → IfSome (S.left source.old) (λ input. AppendsPrefix (K.written sink.old) (K.written sink.new) (answers input)) }
    ensures answered { IsPlain words.now → result.status ≡ 0 → IfSome (S.left source.old) (λ input. IsAtEnd (S.left source.new) × Appends (K.written sink.old) (K.written sink.new) (answers input)) }
    ensures answered_read { IsPlain words.now → result.status ≡ 3 → IfSome (S.left source.old) (λ input. AnsweredWhole empty input (S.left source.new) (K.written sink.old) (K.written sink.new)) }
    ensures answered_part { IsPlain words.now → (result.status ≡ 4) ⊎ (result.status ≡ 5) → IfSome (S.left source.old) (λ input. AnsweredPart empty input (S.left source.new) (K.written sink.old) (K.written sink.new)) }
    ensures answered_before { IsPlain words.now → result.status ≡ 6 → IfSome (S.left source.old) (λ input. EndsByLine empty input (K.written sink.old) (K.written sink.new)) }
    ensures answered_within { IsPlain words.now → result.status ≡ 7 → IfSome (S.left source.old) (λ input. EndsByInput empty input (K.written sink.old) (K.written sink.new)) }

    // However it ended.
    ensures few { IsPlain words.now → IfSome (S.left source.old) (λ input. TookFew input (S.left source.new)) }

    // Where an input is made, nothing is read, and its summary is written.
    ensures made_unread { IsSome (made_by words.now) → source.new ≡ source.old }
    ensures made_statuses { IsSome (made_by words.now) → IsMadeStatus result.status }
    ensures summary_whole { result.status ≡ 0 → IfSome (made_by words.now) (λ made. Appends (K.written sink.old) (K.written sink.new) (summary made.number made.lines)) }
    ensures summary_begun { IfSome (made_by words.now) (λ made. AppendsPrefix (K.written sink.old) (K.written sink.new) (summary made.number made.lines)) }

    // The heap's history: legal, each event once, and every slot idle at its end.
    ensures history { IsSome result.history ↔ ((result.status ≢ 2) × (result.status ≢ 5)) }
    ensures layout { IfSome result.history (λ h. h.layout ≡ default_layout) }
    ensures legal { IfSome result.history (λ h. owners.Ends (IsCrumbList 64) h) }

    // What the answered lines ask of the storage is in it: a Publish for each slot load, in order, a Retain for each copy that shares a slot,
    // an Install for each first question that breadcrumbs are for.
    ensures used { IsPlain words.now → IfSome (S.left source.old) (λ input. IfSome result.history (λ h. UsesStorage input (K.written sink.old) (K.written sink.new) h.history)) }
{
    let Some(told) = read_words(words) else {
        return Ended {
            status: 2,
            history: None,
        };
    };
    match told.made {
        None => run_read(rt, alloc, told.workers, source, sink, gate),
        Some(made) => run_made(rt, alloc, told.workers, made, sink, gate),
    }
}

/// Answers each line of the source with one line to the sink.
fn run_read<R: Threads + Sync, S: Source, K: Sink, G: Gate>(
    rt: &R,
    alloc: Global,
    workers: u32,
    source: &mut S,
    sink: &mut K,
    gate: &G,
) -> Ended
    requires workers { IsWorkerCount workers }
    ensures not_usage { result.status ≢ 2 }
    ensures statuses { IsStatus result.status }

    // Faults of the two ends.
    ensures read { result.status ≡ 3 → Rose (S.faults source.old) (S.faults source.new) }
    ensures write { result.status ≡ 4 → Rose (K.faults sink.old) (K.faults sink.new) }
    ensures source_still { result.status ≢ 3 → S.faults source.new ≡ S.faults source.old }
    ensures sink_still { result.status ≢ 4 → K.faults sink.new ≡ K.faults sink.old }

    // Where nothing hindered the run, its input alone decides between 0, 6 and 7.
    ensures line_too_long { IsUnhindered result.status → IfSome (S.left source.old) (λ input. (result.status ≡ 6) ↔ HasLongLine input) }
    ensures input_too_long { IsUnhindered result.status → IfSome (S.left source.old) (λ input. (result.status ≡ 7) ↔ HasTooManyBytes input) }
    ensures within { IsUnhindered result.status → IfSome (S.left source.old) (λ input. (result.status ≡ 0) ↔ IsWithin input) }
    ensures complete { IfSome (S.left source.old) (λ input. IsWithin input
        → ¬ (Rose (S.faults source.old) (S.faults source.new)) → ¬ (Rose (K.faults sink.old) (K.faults sink.new)) → (result.status ≡ 0) ⊎ (result.status ≡ 5)) }

    // What was written.
    ensures begun { IfSome (S.left source.old) (λ input. AppendsPrefix (K.written sink.old) (K.written sink.new) (answers input)) }
    ensures answered { result.status ≡ 0 → IfSome (S.left source.old) (λ input. IsAtEnd (S.left source.new) × Appends (K.written sink.old) (K.written sink.new) (answers input)) }
    ensures answered_read { result.status ≡ 3 → IfSome (S.left source.old) (λ input. AnsweredWhole empty input (S.left source.new) (K.written sink.old) (K.written sink.new)) }
    ensures answered_part { (result.status ≡ 4) ⊎ (result.status ≡ 5) → IfSome (S.left source.old) (λ input. AnsweredPart empty input (S.left source.new) (K.written sink.old) (K.written sink.new)) }
    ensures answered_before { result.status ≡ 6 → IfSome (S.left source.old) (λ input. EndsByLine empty input (K.written sink.old) (K.written sink.new)) }
    ensures answered_within { result.status ≡ 7 → IfSome (S.left source.old) (λ input. EndsByInput empty input (K.written sink.old) (K.written sink.new)) }

    // However it ended.
    ensures few { IfSome (S.left source.old) (λ input. TookFew input (S.left source.new)) }

    // The heap's history: legal, each event once, and every slot idle at its end.
    ensures history { IsSome result.history ↔ ((result.status ≢ 2) × (result.status ≢ 5)) }
    ensures layout { IfSome result.history (λ h. h.layout ≡ default_layout) }
    ensures legal { IfSome result.history (λ h. owners.Ends (IsCrumbList 64) h) }

    ensures used { IfSome (S.left source.old) (λ input. IfSome result.history (λ h. UsesStorage input (K.written sink.old) (K.written sink.new) h.history)) }
{
    let Answered { end, history } = answer_input(rt, alloc, workers, source, sink, gate);
    Ended {
        status: status_of(end),
        history,
    }
}

/// Answers the lines of a made input, and writes the summary.
fn run_made<R: Threads + Sync, K: Sink, G: Gate>(
    rt: &R,
    alloc: Global,
    workers: u32,
    made: Made,
    sink: &mut K,
    gate: &G,
) -> Ended
    requires workers { IsWorkerCount workers }
    requires lines { IsLineCount made.lines }
    ensures statuses { IsMadeStatus result.status }
    ensures write { result.status ≡ 4 → Rose (K.faults sink.old) (K.faults sink.new) }
    ensures sink_still { result.status ≢ 4 → K.faults sink.new ≡ K.faults sink.old }
    ensures summary_whole { result.status ≡ 0 → Appends (K.written sink.old) (K.written sink.new) (summary made.number made.lines) }
    ensures summary_begun { AppendsPrefix (K.written sink.old) (K.written sink.new) (summary made.number made.lines) }
    ensures history { IsSome result.history ↔ ((result.status ≢ 2) × (result.status ≢ 5)) }
    ensures layout { IfSome result.history (λ h. h.layout ≡ default_layout) }
    ensures legal { IfSome result.history (λ h. owners.Ends (IsCrumbList 64) h) }
{
    let Some((mut text, history)) = summarized(rt, alloc, workers, made, gate) else {
        return Ended {
            status: 5,
            history: None,
        };
    };
    let status = match send(sink, &mut text) {
        Ok(()) => 0,
        Err(_) => 4,
    };
    Ended {
        status,
        history: Some(history),
    }
}

/// The summary of a made input whose lines were answered, and the closed heap that they were answered in; `None` where memory is wanting.
fn summarized<R: Threads + Sync, G: Gate>(
    rt: &R,
    alloc: Global,
    workers: u32,
    made: Made,
    gate: &G,
) -> Option<(Vec<u8>, Closed<StrCrumbs>)>
    requires workers { IsWorkerCount workers }
    requires lines { IsLineCount made.lines }
    ensures text { IfSome result (λ t. t.0.items ≡ summary made.number made.lines) }
    ensures layout { IfSome result (λ t. t.1.layout ≡ default_layout) }
    ensures legal { IfSome result (λ t. owners.Ends (IsCrumbList 64) t.1) }
{
    let input_length = length_of(alloc, made).ok()?;
    let mut input = MadeInput::new(alloc, made.number, made.lines).ok()?;
    let mut tally = Tally::new();
    let Answered { end, history } = answer_input(rt, alloc, workers, &mut input, &mut tally, gate);
    let history = history?;
    if end.is_err() {
        return None;
    }
    let text = summary_text(alloc, made.lines, input_length, &tally).ok()?;
    Some((text, history))
}

/// The status of a run that reads, 0 or 3 to 7.
fn status_of(end: Result<(), Stop>) -> u8
    ensures { result ≡ status_of_end end }
{
    match end {
        Ok(()) => 0,
        Err(stop) => stop.status(),
    }
}

/// Answers the source over a heap of its own, which is closed then.
fn answer_input<R: Threads + Sync, S: Source, K: Sink, G: Gate>(
    rt: &R,
    alloc: Global,
    workers: u32,
    source: &mut S,
    sink: &mut K,
    gate: &G,
) -> Answered
    requires workers { IsWorkerCount workers }
    ensures ends { IfSome (S.left source.old) (Ends empty (S.left source.new) (K.written sink.old) (K.written sink.new) result.end) }
    ensures read { IsErrOf result.end Stop.ReadFault → Rose (S.faults source.old) (S.faults source.new) }
    ensures write { IsErrOf result.end Stop.WriteFault → Rose (K.faults sink.old) (K.faults sink.new) }
    ensures source_still { IsErrOf result.end Stop.ReadFault ⊎ (S.faults source.new ≡ S.faults source.old) }
    ensures sink_still { IsErrOf result.end Stop.WriteFault ⊎ (K.faults sink.new ≡ K.faults sink.old) }
    ensures history { IsSome result.history ↔ (IsErrOf result.end Stop.OutOfMemory → ⊥) }
    ensures layout { IfSome result.history (λ h. h.layout ≡ default_layout) }
    ensures legal { IfSome result.history (λ h. owners.Ends (IsCrumbList 64) h) }
    ensures used { IfSome (S.left source.old) (λ input. IfSome result.history (λ h. UsesStorage input (K.written sink.old) (K.written sink.new) h.history)) }
{
    let Some((heap, whole)) = opened(alloc) else {
        return Answered {
            end: Err(Stop::OutOfMemory),
            history: None,
        };
    };
    let (end, whole) = answer_over(rt, alloc, workers, heap.pass(whole), source, sink, gate);
    let Some(whole) = whole else {
        return Answered { end, history: None };
    };
    Answered {
        end,
        history: Some(heap.close(whole)),
    }
}

/// Answers the source with a session of its own over a whole pass, whose values are released at the end. Where memory was wanting, the pass
/// is lost.
fn answer_over<'h, R: Threads + Sync, S: Source, K: Sink, G: Gate>(
    rt: &R,
    alloc: Global,
    workers: u32,
    pass: StrPass<'h>,
    source: &mut S,
    sink: &mut K,
    gate: &G,
) -> (Result<(), Stop>, Option<Whole<StrCrumbs>>)
    requires workers { IsWorkerCount workers }
    requires credits { pass.credits ≡ pass.heap.layout.credits }
    requires literals { pass.heap.literals ≡ default_literals }
    requires layout { pass.heap.layout ≡ default_layout }
    ensures ends { IfSome (S.left source.old) (Ends empty (S.left source.new) (K.written sink.old) (K.written sink.new) result.0) }
    ensures read { IsErrOf result.0 Stop.ReadFault → Rose (S.faults source.old) (S.faults source.new) }
    ensures write { IsErrOf result.0 Stop.WriteFault → Rose (K.faults sink.old) (K.faults sink.new) }
    ensures source_still { IsErrOf result.0 Stop.ReadFault ⊎ (S.faults source.new ≡ S.faults source.old) }
    ensures sink_still { IsErrOf result.0 Stop.WriteFault ⊎ (K.faults sink.new ≡ K.faults sink.old) }
    ensures whole { IsSome result.1 ↔ (IsErrOf result.0 Stop.OutOfMemory → ⊥) }
    ensures heap { IfSome result.1 (λ w. w.heap ≡ pass.entry.heap) }
    ensures done { IfSome (S.left source.old) (λ input. IfSome result.1 (λ w. RunDone input pass.entry w (K.written sink.old) (K.written sink.new))) }
{
    let Ok(mut session) = Session::new(alloc, pass, workers) else {
        return (Err(Stop::OutOfMemory), None);
    };
    let end = answer_stream(rt, alloc, &mut session, source, sink, gate);
    if let Err(Stop::OutOfMemory) = end {
        drop(session);
        return (end, None);
    }
    (end, Some(ended(session.end())))
}

//! From the words and the input to the status and the line.
ghost use Rattle.std.specs.Prelude.{◌≡◌, ◌⊎◌, ℕ, List, [], ◌∷◌, map, string_bytes, IfOk};
ghost use Rattle.report.specs.Limits.{IsScale, IsPrintable};
ghost use Rattle.coop.specs.GeneratorRuns.{AsksForGame, EndsMade, IsMadeFor};
ghost use Rattle.coop.specs.Completeness.{IsComplete};
ghost use Rattle.coop.specs.Outcome.{IsRight, Ends, IsCauseOf};
ghost use Rattle.coop.specs.ReadBack.{CanBeRead};
ghost use Rattle.coop.specs.Stops.{IsFaultOf};
ghost use Rattle.coop.specs.Words.{word_of, IsFit, IsRequest, IsNoCommand};

use crate::classes::serves_class;
use crate::commands::answer_where_served;
use crate::commands::gen_command::summary_of;
use crate::status::{Status, Stop, status_of};
use crate::stream::{read_input, write_line};
use crate::words::{Request, request_of, usage_line};
use game_text::{Command, TextFault, document_limit, read_document};
use ports::{Sink, Source};
use report::{Answer, UsageKind, write_report};
use std::alloc::Global;

/// Answers what the words ask for, a command on the input of the source or a generated game, and prints one line to the
/// sink.
///
/// The status says what was answered, or why the line wasn't printed whole: a read failed, a write failed, or memory
/// ran out.
pub fn run<S: Source, K: Sink>(
    alloc: Global,
    words: &[String],
    source: &mut S,
    sink: &mut K,
) -> Status
    // After an answer the sink took its line, and the answer is right for the bytes that the source had left.
    ensures ends { Ends (map string_bytes words.now) (S.left source.old) (S.left source.new)
        (K.taken sink.old) (K.taken sink.new) result }
    // No fault is answered without a cause, and the first fault ends the run.
    ensures read { IsCauseOf Status.ReadFault (S.faults source.old) (S.faults source.new) (S.failed source.new) result }
    ensures write { IsCauseOf Status.WriteFault (K.faults sink.old) (K.faults sink.new) (K.failed sink.new) result }
    // A document that its command serves has its answer, unless memory isn't found or a port fails.
    ensures complete { IsComplete (map string_bytes words.now) (S.left source.old)
        (S.faults source.old) (S.faults source.new) (K.faults sink.old) (K.faults sink.new) result }
    // For other words no memory is taken.
    ensures other_words { IsNoCommand (map string_bytes words.now)
        → (result ≡ Status.Usage) ⊎ (result ≡ Status.WriteFault) }
    // For a generated game nothing is read, and its answer is positive.
    ensures generated { AsksForGame (map string_bytes words.now)
        → EndsMade (S.left source.old) (S.left source.new) result }
    // The sink is the one that was passed.
    ensures same_sink { K.mark sink.new ≡ K.mark sink.old }
{
    let Some(request) = request_of(words) else {
        return match write_line(sink, usage_line()) {
            Ok(()) => Status::Usage,
            Err(_) => Status::WriteFault,
        };
    };
    let reply = match reply_to_request(alloc, request, source) {
        Ok(reply) => reply,
        Err(Stop::Fault) => return Status::ReadFault,
        Err(Stop::Memory) => return Status::OutOfMemory,
    };
    let status = status_of(&reply.answer);
    let Ok(line) = write_report(alloc, reply.answer, reply.scale) else {
        return Status::OutOfMemory;
    };
    match write_line(sink, &line) {
        Ok(()) => status,
        Err(_) => Status::WriteFault,
    }
}

/// An answer, and the scale that its line is printed over: that of the document, and 1 if there is none.
#[derive(Drop)]
pub struct Reply {
    /// The answer, to the game times the scale.
    pub answer: Answer,
    /// The scale, from 1 to 65,536.
    pub scale: i64,
}

// The answer to what the words ask for, with its scale.
fn reply_to_request<S: Source>(
    alloc: Global,
    request: Request,
    source: &mut S,
) -> Result<Reply, Stop>
    requires { IsFit request }
    ensures right { IfOk result (λ r. (words : List (List ℕ)) → IsRequest words request
        → IsRight words (S.left source.old) (S.left source.new) r.scale r.answer) }
    ensures scale { IfOk result (λ r. IsScale r.scale) }
    ensures printable { IfOk result (λ r. IsPrintable r.answer) }
    ensures readable { IfOk result (λ r. CanBeRead r.scale r.answer) }
    ensures cause { IsFaultOf (S.faults source.old) (S.faults source.new) (S.failed source.new) result }
    ensures made { IsMadeFor request (S.left source.old) (S.left source.new) result }
{
    match request {
        Request::Read(command) => reply_to_input(alloc, command, source),
        Request::Generate {
            kind,
            players,
            seed,
        } => match summary_of(alloc, kind, players, seed) {
            Ok(summary) => Ok(Reply {
                answer: Answer::Summary(summary),
                scale: 1,
            }),
            Err(_) => Err(Stop::Memory),
        },
    }
}

// The answer to the command on the input of the source, with its scale.
fn reply_to_input<S: Source>(alloc: Global, command: Command, source: &mut S) -> Result<Reply, Stop>
    ensures right { IfOk result
        (λ r. IsRight (word_of command ∷ []) (S.left source.old) (S.left source.new) r.scale r.answer) }
    ensures scale { IfOk result (λ r. IsScale r.scale) }
    ensures printable { IfOk result (λ r. IsPrintable r.answer) }
    ensures readable { IfOk result (λ r. CanBeRead r.scale r.answer) }
    ensures cause { IsFaultOf (S.faults source.old) (S.faults source.new) (S.failed source.new) result }
{
    let input = read_input(alloc, source, document_limit(command))?;
    let mut document = match read_document(alloc, &input, command) {
        Ok(document) => document,
        Err(TextFault::Refused(refusal)) => {
            return Ok(Reply {
                answer: Answer::Refused(refusal),
                scale: 1,
            });
        }
        Err(TextFault::Memory) => return Err(Stop::Memory),
    };
    let scale = document.scale;
    if !serves_class(command, &document.game) {
        return Ok(Reply {
            answer: Answer::Usage(UsageKind::Class),
            scale,
        });
    }
    let Ok(answer) = answer_where_served(alloc, command, &mut document) else {
        return Err(Stop::Memory);
    };
    Ok(Reply { answer, scale })
}

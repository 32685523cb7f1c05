//! The answer to one line of a pipe. Lines are read and answered in turn in `piping`.
ghost use Rattle.std.specs.Prelude.{◌≡◌, ◌<◌, ◌≤◌, ◌+◌, ℕ, List, IfErr, IfOk, None, suc};
ghost use Rattle.std.specs.List.{flat_map};
ghost use Rattle.world_laws.specs.Tasks.{Task};
ghost use Rattle.world_laws.specs.World as worlds;
ghost use Rattle.world.specs.Views.{event_seen};
ghost use Rattle.scripts.specs.Asking.{question_seen};
ghost use Rattle.scripts.specs.Piped.{Answered, IsBad, Part, Represents, Takes, asked_parts, other_parts, part_text};
ghost use Rattle.scripts.specs.Plays.{Answers};
ghost use Rattle.scripts.specs.Script.{IsEventLine};

use crate::answer_text::{bad_line, next_text, objects_text, step_text};
use crate::asking::{Question, question_of};
use crate::line_fault::{LineFault, line_fault};
use crate::replay_fault::ReplayFault;
use crate::script::read_line;
use indexer::ByNamespace;
use std::alloc::{AllocError, Global};
use world::{OverMemory, World, WorldEvent};

/// What is read of a line: its event, or why it has none.
fn event_in(alloc: Global, line: &[u8]) -> Result<Result<WorldEvent, LineFault>, AllocError>
    ensures event { IfOk result (λ r. IfOk r (λ e. IsEventLine line.now (event_seen e))) }
    ensures bad { IfOk result (λ r. IfErr r (λ _. IsBad line.now)) }
{
    let Ok(text) = str::from_utf8(line) else {
        return Ok(Err(LineFault::NotText));
    };
    match read_line(alloc, text)? {
        Some(event) => Ok(Ok(event)),
        None => Ok(Err(line_fault(alloc, text)?)),
    }
}

/// What is printed for a line, and how many events there were with it.
#[derive(Debug, Drop)]
pub(crate) struct Answer {
    pub(crate) events: usize,
    pub(crate) text: Vec<u8>,
}

/// The answer to an event, which has this number.
fn answer_to_event(
    alloc: Global,
    world: &mut World<ByNamespace>,
    number: usize,
    event: &WorldEvent,
) -> Result<Answer, ReplayFault>
    ensures takes { (task : Task) (n : ℕ) (w : worlds.World) (line : List ℕ) → Represents world.old task w → number ≡ suc n → IsEventLine line (event_seen event.now)
        → IfOk result (λ a. (parts : List Part) × (v : worlds.World) × Takes task n w line parts a.events v × Represents world.new task v × (a.text.items ≡ flat_map part_text parts)) }
    ensures events { IfOk result (λ a. a.events ≡ number) }
    ensures settings { Answers None result }
{
    let step = world.step(number, event, &mut OverMemory)?;
    let text = step_text(alloc, number, &step)?;
    Ok(Answer {
        events: number,
        text,
    })
}

/// The answer to what is asked behind so many events.
fn answer_to_question(
    alloc: Global,
    world: &World<ByNamespace>,
    events: usize,
    question: Question,
) -> Result<Vec<u8>, AllocError>
    ensures { (task : Task) (w : worlds.World) → Represents world.now task w → IfOk result (λ v. v.items ≡ flat_map part_text (asked_parts (question_seen question) events w)) }
{
    match question {
        Question::Next => next_text(alloc, events, &world.next_move()),
        Question::Objects => objects_text(alloc, events, &world.objects()?),
    }
}

/// The answer to a line of no event, behind so many.
fn answer_to_other(
    alloc: Global,
    world: &World<ByNamespace>,
    events: usize,
    line: &[u8],
    fault: &LineFault,
) -> Result<Vec<u8>, AllocError>
    ensures { (task : Task) (w : worlds.World) → Represents world.now task w → IfOk result (λ v. (why : List ℕ) × (v.items ≡ flat_map part_text (other_parts events w line.now why))) }
{
    let Ok(text) = str::from_utf8(line) else {
        return bad_line(alloc, events, fault);
    };
    match question_of(alloc, text)? {
        Some(question) => answer_to_question(alloc, world, events, question),
        None => bad_line(alloc, events, fault),
    }
}

/// The answer to a line, before which there were so many events.
pub(crate) fn answer_to(
    alloc: Global,
    world: &mut World<ByNamespace>,
    events: usize,
    line: &[u8],
) -> Result<Answer, ReplayFault>
    requires { events < 18446744073709551615 }
    ensures answers { (task : Task) (w : worlds.World) → Represents world.old task w
        → IfOk result (λ a. (parts : List Part) × (v : worlds.World) × Answered task events w line.now parts a.events v × Represents world.new task v × (a.text.items ≡ flat_map part_text parts)) }
    ensures events { IfOk result (λ a. a.events ≤ events + 1) }
    ensures settings { Answers None result }
{
    if line.is_empty() {
        return Ok(Answer {
            events,
            text: Vec::new(alloc),
        });
    }
    match event_in(alloc, line)? {
        Ok(event) => answer_to_event(alloc, world, events + 1, &event),
        Err(fault) => Ok(Answer {
            events,
            text: answer_to_other(alloc, world, events, line, &fault)?,
        }),
    }
}

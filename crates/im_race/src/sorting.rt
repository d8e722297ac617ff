// What came of the jobs, put in order: passes, replies of each session, ends of workers; and the replies in the order of the lines.
ghost use Rattle.std.specs.Prelude.{◌≡◌, ◌+◌, [], ◌++◌, ◌∷◌, true, All, IfOk, OnOk, drop, fold, length, map};
ghost use Rattle.im_race.specs.inner.Answering as spec;
ghost use Rattle.im_race.specs.Lines.{as_raced, raced_of};
ghost use Rattle.im_script.specs.Lines.{NamesOneOf16};

use crate::job::{Done, JobOutcome};
use crate::lines::has_reply;
use crate::replies::Replies;
use im_play::{BACKGROUND, settled};
use im_replies::{Body, Fault, Reply};
use im_script::Line;
use im_store::Pass;
use im_unit::ColumnUnit;
use im_values::NoMemory;
use im_values::limits::SESSIONS;
use im_worker::Ended;
use std::alloc::Global;

/// What came of the jobs of a race.
#[derive(Drop)]
pub struct Outcomes {
    /// The passes of those who did them, in the order of the jobs.
    pub passes: Vec<Pass<ColumnUnit>>,
    /// The replies of each session, by its number.
    pub replies: Vec<Replies>,
    /// How each worker ended.
    pub ends: Vec<Ended>,
}

/// No replies of any session, nor of the background.
fn no_replies(alloc: Global) -> Result<Vec<Replies>, NoMemory>
    ensures { IfOk result (λ replies. replies.items ≡ spec.no_replies (SESSIONS + 1)) }
{
    let mut replies = Vec::with_capacity(alloc, SESSIONS as usize + 1)?;
    for _ in 0..SESSIONS + 1 {
        replies.push(Replies::of(Vec::new(alloc)))?;
    }
    Ok(replies)
}

impl Outcomes {
    /// Before any job.
    fn new(alloc: Global) -> Result<Outcomes, NoMemory>
        ensures { IfOk result (λ all. (all.passes.items ≡ []) × (all.replies.items ≡ spec.no_replies (SESSIONS + 1)) × (all.ends.items ≡ [])) }
    {
        Ok(Outcomes {
            passes: Vec::new(alloc),
            replies: no_replies(alloc)?,
            ends: Vec::new(alloc),
        })
    }

    /// Adds what came of a job.
    fn add(&mut self, done: Done) -> Result<(), NoMemory>
        requires count { length self.old.replies.items ≡ SESSIONS + 1 }
        requires of_session { spec.IsOfSession done.who done.outcome }
        ensures passes { OnOk result (self.new.passes.items ≡ self.old.passes.items ++ done.pass ∷ []) }
        ensures replies { OnOk result (self.new.replies.items ≡ spec.replies_after self.old.replies.items done) }
        ensures ends { OnOk result (self.new.ends.items ≡ spec.ends_after self.old.ends.items done) }
        ensures whole { OnOk result (spec.is_whole done.outcome ≡ true) }
        ensures count { length self.new.replies.items ≡ SESSIONS + 1 }
    {
        let Done { who, pass, outcome } = done;
        self.passes.push(pass)?;
        match outcome {
            JobOutcome::Replies(replies) => self.replies[who as usize] = replies,
            JobOutcome::Ended(ended) => self.ends.push(ended)?,
            JobOutcome::NoMemory => return Err(NoMemory),
        }
        Ok(())
    }
}

/// What came of all jobs.
pub fn sort_outcomes(alloc: Global, jobs: Vec<Done>) -> Result<Outcomes, NoMemory>
    requires of_sessions { All (λ done. spec.IsOfSession done.who done.outcome) jobs.items }
    ensures passes { IfOk result (λ all. all.passes.items ≡ map (λ done. done.pass) jobs.items) }
    ensures replies { IfOk result (λ all. all.replies.items ≡ fold spec.replies_after (spec.no_replies (SESSIONS + 1)) jobs.items) }
    ensures ends { IfOk result (λ all. all.ends.items ≡ fold spec.ends_after [] jobs.items) }
    ensures whole { IfOk result (λ all. All (λ done. spec.is_whole done.outcome ≡ true) jobs.items) }
{
    let mut outcomes = Outcomes::new(alloc)?;
    for done in jobs {
        outcomes.add(done)?;
    }
    Ok(outcomes)
}

/// The reply to a line: the next one of the session that speaks in it, or the one reply of a line in which none does. A line of the
/// background leaves the language here, at its first byte that is no blank.
fn reply_to(alloc: Global, line: &Line, replies: &mut [Replies]) -> Reply
    requires count { length replies.old ≡ SESSIONS + 1 }
    requires names { NamesOneOf16 line.now }
    ensures reply { result ≡ spec.reply_by replies.old (as_raced line.now).who (as_raced line.now) }
    ensures left { replies.new ≡ spec.left_by replies.old (as_raced line.now).who }
{
    let settled_or_next = match line.who {
        None => settled(alloc, &line.kind),
        Some(BACKGROUND) => return Reply::refusal(alloc, Fault::Syntax { byte: line.first }),
        Some(who) => replies[who as usize].next(),
    };
    settled_or_next.unwrap_or(Reply::plain(alloc, Body::Nothing))
}

/// The replies to lines that have one, in their order, each with the number of its line.
pub fn answers(
    alloc: Global,
    lines: &[Line],
    replies: &mut [Replies],
) -> Result<Vec<(u64, Reply)>, NoMemory>
    requires count { length replies.old ≡ SESSIONS + 1 }
    requires names { All NamesOneOf16 lines.now }
    ensures { IfOk result (λ answers. answers.items ≡ map spec.shown (spec.answers_by replies.old (raced_of lines.now))) }
{
    let mut answers = Vec::new(alloc);
    for line in lines {
        if has_reply(&line.kind) {
            answers.push((line.number, reply_to(alloc, line, replies)))?;
        }
    }
    Ok(answers)
}

// Laws of answers.
ghost use Rattle.std.specs.Prelude.{◌<◌, ◌≢◌, length, Result};
ghost use Rattle.vp_answer.specs.Answers.{answer_read};
ghost use Rattle.vp_answer.specs.Jobs.{job_answer};
ghost use Rattle.vp_answer.specs.Outcome.{EachInputIsServed, WordsAreServed};
ghost use Rattle.vp_answer.specs.declared.stop.Stop.{Stop};
ghost use Rattle.vp_answer.specs.declared.work.Job.{Job};

use crate::{HeapWork, Status, Work};

/// Where no read and no write fails, a command that is given an input of at most 64 MiB ends with the status of its
/// answer, and one that is given more ends with `TooLong`, unless memory runs out. Words that need no input end with
/// the status of their answer.
#[tactic(auto, using(crate::proofs::Ends::each_input, crate::proofs::Ends::all_words))]
pub fn served_without_fault()
    ensures inputs { EachInputIsServed }
    ensures words { WordsAreServed }
{}

/// The answer to what was read is not empty, and has not the status of words that are no command, whatever the job.
#[tactic(auto, using(crate::proofs::SomeAnswers::some_text, crate::proofs::SomeAnswers::no_usage))]
pub fn answers_say_something<W: Work, H: HeapWork>()
    ensures some { (read : Result (Job W H) Stop) → 0 < length (answer_read (job_answer W.due H.due) read).text }
    ensures usage { (read : Result (Job W H) Stop) → (answer_read (job_answer W.due H.due) read).status ≢ Status.Usage }
{}

//! Who answers requests.
ghost use Rattle.std.specs.Prelude.{IfOk};
ghost use Rattle.http_front.specs.Answers.{IsAnswerTo};

use http_wire::{AnswerStop, Answered, Request};
use std::alloc::Global;
use std::sync::Wait;

/// Answers requests. It owns what it needs for that.
pub trait Answerer {
    ghost use Rattle.std.specs.Prelude.{Result};
    ghost use Rattle.http_wire.specs.declared.messages.AnswerStop.{AnswerStop};
    ghost use Rattle.http_wire.specs.declared.messages.Answered.{Answered};
    ghost use Rattle.http_wire.specs.declared.messages.Request.{Request};

    /// What an answer means: the answerer before it, the request, what it is answered, and the answerer afterwards.
    ghost answers: { Self → Request → Result Answered AnswerStop → Self → Type 0 };

    /// The answer to a request. It may wait.
    ///
    /// # Errors
    /// Only want of memory.
    fn answer<R: Wait>(
        &mut self,
        rt: &R,
        alloc: Global,
        request: &Request,
    ) -> Result<Answered, AnswerStop>
        ensures answered { answers self.old request.now result self.new }
        ensures form { IfOk result (IsAnswerTo request.now) };
}

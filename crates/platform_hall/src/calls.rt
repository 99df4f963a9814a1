//! Calls by gets on a platform.
ghost use Rattle.platform_hall.specs.Calls.{AnswersNow, CallsOnOne, GetsSettled, Releases};
ghost use Rattle.platform_hall.specs.Platforms.{has_drain};
ghost use Rattle.std.specs.Prelude.{◌≡◌, ◌⊎◌, OnErr, OnOk, false};

use crate::Platform;
use crate::call_answers::answer_use;
use crate::call_faults::{get_fault, lacks_memory, settle_fault, text_of};
use kind_trait::Kinds;
use prop_map::{OutOfMemory, Str};
use scr_calls::{CallFault, Called};
use scr_requests::UseNote;
use std::alloc::Global;
use turn_runner::Desk;

impl<K: Kinds + Drop> Platform<K> {
    // Gets a service by a token, and settles then.
    fn get_settled(
        &mut self,
        alloc: Global,
        bundle: u64,
        service: u64,
    ) -> Result<UseNote, CallFault>
        ensures { GetsSettled K.refuses self.old bundle service result self.new }
    {
        self.servlets = None;
        let note = match self.desk.get_use(alloc, bundle, service) {
            Ok(note) => note,
            Err(fault) => return Err(get_fault(fault)),
        };
        match self.settle(alloc) {
            Ok(_) => Ok(note),
            Err(fault) => Err(settle_fault(fault)),
        }
    }

    // What a call by a get is answered, in the world as it is.
    fn answer(&self, alloc: Global, note: &UseNote, request: &str) -> Result<Called, CallFault>
        ensures { AnswersNow K.next self.now note.now request.now result }
    {
        answer_use(alloc, &self.kinds, &self.desk, note, request)
    }

    // Releases a get by a token, and posts the drains that are due then.
    fn release(&mut self, alloc: Global, note: UseNote) -> Result<(), OutOfMemory>
        ensures ok { OnOk result (Releases self.old note self.new × (has_drain self.new ≡ false)) }
        ensures err { OnErr result ((self.new ≡ self.old) ⊎ Releases self.old note self.new) }
    {
        self.servlets = None;
        self.desk.end_use(alloc, note)?;
        self.desk.post(alloc)
    }

    /// Calls a service for a bundle: gets it by a token, settles, asks the instance that the bundle uses of it,
    /// releases the get, posts the drains that are due then, and answers the text. Nested calls are decided in the
    /// world as it is behind the settling; at most 16 calls wait at a time, and at most 64 nested ones are made.
    ///
    /// # Errors
    /// `Core` with the refusal of the get: all is then as it was. `Settle` where the settling is refused: the turns
    /// that ran stand, and the get isn't released. `Gone` exactly where the get stands no more behind the settling,
    /// `NoObject` where the service has no object, `Pending` where its instance isn't active, `Refused` where the
    /// component code refuses, and `CallTooLong` where a nested call would be one too many: the get is released then.
    /// `OutOfMemory` may come at each of these steps; at the get it hides no refusal, and behind the settling it leaves the
    /// get, or releases it and posts some of the drains.
    pub fn call(
        &mut self,
        alloc: Global,
        bundle: u64,
        service: u64,
        request: &str,
    ) -> Result<Str, CallFault>
        ensures { CallsOnOne K.refuses K.next self.old bundle service request.now result self.new }
    {
        let note = match self.get_settled(alloc, bundle, service) {
            Ok(note) => note,
            Err(fault) => return Err(fault),
        };
        let answer = self.answer(alloc, &note, request);
        if lacks_memory(&answer) {
            return Err(CallFault::OutOfMemory);
        }
        if self.release(alloc, note).is_err() {
            return Err(CallFault::OutOfMemory);
        }
        text_of(answer)
    }
}

//! The record of a run.

ghost use Rattle.std.specs.Prelude.{IsErrOf};
ghost use Rattle.fwd_outside.specs.Cause.{HasCause};
ghost use Rattle.fwd_script.specs.Text.{text_of};
ghost use Rattle.fwd_top.specs.Results.{Tapes};

use crate::status::Status;
use fwd_outside::{Sink, SinkErr};
use fwd_script::{Schedule, write_schedule};
use std::alloc::Global;

/// Writes the text of a schedule to its end, also an empty one.
pub fn write_record<T: Sink>(alloc: Global, tape: &mut T, schedule: &Schedule) -> Result<(), Status>
    ensures writes { Tapes (T.call_log tape.old) (T.call_log tape.new) (text_of schedule.now) result }
    ensures cause { HasCause (T.faults tape.old) (T.faults tape.new) (IsErrOf result Status.RecordFault) }
{
    let Ok(text) = write_schedule(alloc, schedule) else {
        return Err(Status::Memory);
    };
    match tape.write(text.as_slice()) {
        Ok(()) => Ok(()),
        Err(SinkErr::Failed) => Err(Status::RecordFault),
        Err(SinkErr::Memory) => Err(Status::Memory),
    }
}

//! Where connections come from, and sessions go to.
ghost use Rattle.fault_count.specs.Steps.{Rose};
ghost use Rattle.session_doors.specs.Doors.{Adds, Gives, IsCome, Stays};
ghost use Rattle.session_doors.specs.declared.finished.Finished.{Finished as Ended};
ghost use Rattle.std.specs.Prelude.{◌≡◌, ◌≤◌, List, ℕ};
ghost use Rattle.std.specs.declared.option.Option.{Option};

use crate::Finished;
use fault_count::{Sink, Source};

/// What accepting a connection comes to.
#[derive(Drop)]
pub enum Door<I, O> {
    /// A connection came: where its bytes come from, and where its replies go.
    Come(I, O),
    /// None came, and the doors' count of faults rose.
    Failed,
}

/// Gives connections to one thread of a server, and takes back the sessions that were held of them. It has a count of its
/// faults.
pub trait Doors {
    /// Where a connection's bytes come from.
    type In: Source + Drop;

    /// Where its replies go.
    type Out: Sink + Drop;

    /// The connections that are to come, in order, where the doors tell them.
    ghost coming: { Self → Option (List (Self.In × Self.Out)) };

    /// The sessions that have ended, in order, where the doors tell them.
    ghost sessions: { Self → Option (List (Ended Self.In Self.Out)) };

    /// A session of a connection that came hasn't ended yet, so there is room for it.
    ghost awaits: { Self → Type 0 };

    /// How often accepting has failed.
    ghost fault_count: { Self → ℕ };

    /// Takes the next connection, the first of those that are to come. It fails only where the count of faults rises by
    /// it, or stands at the greatest number of 64 bits; then none is taken.
    fn accept(&mut self) -> Door<Self::In, Self::Out>
        ensures come { Gives (coming self.old) (coming self.new) result }
        ensures sessions { Stays (sessions self.old) (sessions self.new) }
        ensures awaits { IsCome result → awaits self.new }
        ensures cause { result ≡ Door.Failed → Rose (fault_count self.old) (fault_count self.new) }
        ensures later { fault_count self.old ≤ fault_count self.new };

    /// Takes a session that has ended behind those that ended before. It takes no memory.
    fn ended(&mut self, session: Finished<Self::In, Self::Out>)
        requires awaits { awaits self.old }
        ensures sessions { Adds (sessions self.old) (sessions self.new) session }
        ensures come { Stays (coming self.old) (coming self.new) }
        ensures later { fault_count self.old ≤ fault_count self.new };

    /// How often accepting has failed. The count stays at the greatest number of 64 bits.
    fn faults(&self) -> u64
        ensures { result ≡ fault_count self.now };
}

//! The loop of one door.
ghost use Rattle.fault_count.specs.Steps.{Rose};
ghost use Rattle.hall_goings.specs.Went.{Went};
ghost use Rattle.platform_sessions.specs.Halls.{Own};
ghost use Rattle.session_server.specs.Holding.{Holds, ServesDoor};
ghost use Rattle.session_shell.specs.Halls.{IsOf, KeepsPass};
ghost use Rattle.std.specs.Prelude.{◌≡◌, ◌≤◌};

use fault_count::{Sink, Source};
use kind_trait::Kinds;
use session_doors::{Door, Doors, Finished};
use session_shell::{Hall, HallPass, SessionKind, SessionNotes, serve_session};
use std::alloc::Global;
use std::sync::Wait;

/// How serving a door ends.
#[derive(Clone, Copy, Debug, PartialEq, Eq, Drop)]
pub enum DoorEnd {
    /// As many sessions were held as were asked for.
    Served,
    /// Accepting a connection failed.
    AcceptFault,
}

/// Serves so many connections of a door, one after the other: takes the next one, holds a session of the shell of it, and
/// hands the session back with the ends of its connection. No connection that came is left out, and none is served twice.
/// The pass keeps its number and its spare. It waits for its turns at the lock.
///
/// It ends sooner only where accepting fails, by which the door's count of faults rises, or stands at the greatest number
/// of 64 bits. Whatever way a session ends, the next one is held.
pub fn serve_door<R: Wait, K: Kinds + Drop, D: Doors>(
    rt: &R,
    alloc: Global,
    hall: &Hall<K>,
    pass: &mut HallPass,
    door: &mut D,
    connections: u64,
) -> DoorEnd
    requires of { IsOf hall.now pass.old }
    ensures of { IsOf hall.now pass.new }
    ensures closed { pass.new.closed ≡ pass.old.closed }
    ensures keeps { KeepsPass pass.old.front pass.new.front }
    ensures served { ServesDoor (record { limits = hall.now.limits; refuses = K.refuses }) (record { left = D.In.left; read_faults = D.In.fault_count; written = D.Out.written; write_faults = D.Out.fault_count }) pass.old.front pass.new.front (D.coming door.old) (D.coming door.new) (D.sessions door.old) (D.sessions door.new) connections result }
    ensures went { (own : Own) × Went pass.old.front pass.new.front own }
    ensures cause { result ≡ DoorEnd.AcceptFault → Rose (D.fault_count door.old) (D.fault_count door.new) }
    ensures later { D.fault_count door.old ≤ D.fault_count door.new }
{
    for _ in 0..connections {
        match door.accept() {
            Door::Come(input, output) => {
                let session = hold_session(rt, alloc, hall, pass, input, output);
                door.ended(session);
            }
            Door::Failed => return DoorEnd::AcceptFault,
        }
    }
    DoorEnd::Served
}

// Holds a session of a connection.
fn hold_session<R: Wait, K: Kinds + Drop, I: Source, O: Sink>(
    rt: &R,
    alloc: Global,
    hall: &Hall<K>,
    pass: &mut HallPass,
    input: I,
    output: O,
) -> Finished<I, O>
    requires of { IsOf hall.now pass.old }
    ensures of { IsOf hall.now pass.new }
    ensures closed { pass.new.closed ≡ pass.old.closed }
    ensures keeps { KeepsPass pass.old.front pass.new.front }
    ensures held { Holds (record { limits = hall.now.limits; refuses = K.refuses }) (record { left = I.left; read_faults = I.fault_count; written = O.written; write_faults = O.fault_count }) (input, output) pass.old.front pass.new.front result }
{
    let mut input = input;
    let mut output = output;
    let mut notes = SessionNotes::new(alloc);
    let end = serve_session(
        rt,
        alloc,
        hall,
        pass,
        SessionKind::Shell,
        &mut notes,
        &mut input,
        &mut output,
    );
    Finished {
        input,
        output,
        end,
        notes,
    }
}

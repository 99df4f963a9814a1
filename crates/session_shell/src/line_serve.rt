//! A line, served: what it asks is asked of the hall, in one turn at the lock or, for turns that run, in several.
ghost use Rattle.platform_sessions.specs.Halls.{IsOf, KeepsPass};
ghost use Rattle.script_shell.specs.Asks.{command_reply};
ghost use Rattle.script_shell.specs.Looks.{is_look};
ghost use Rattle.session_shell.specs.Answers.{LooksOr, Serves, ServesOr, StopsBy, TellsFault};
ghost use Rattle.session_shell.specs.Items.{ServesCommand, ServesSettle, line_at};
ghost use Rattle.shell_lang.specs.ShellLines.{is_quit};
ghost use Rattle.std.specs.Prelude.{◌≡◌, Ok, false, length, true};

use crate::SessionItem;
use crate::line_look::LineLook;
use crate::line_stop::LineStop;
use kind_trait::Kinds;
use platform_sessions::{Hall, HallPass};
use prop_map::List;
use scr_world::{Command, CoreFault, Reply};
use script_shell::is_look;
use shell_lang::{LineFault, Refusal, ShellLine, ShellReply};
use std::alloc::Global;
use std::sync::Wait;

// Serves a line: what is noted of it, nothing where it has no reply. Nothing is settled for it.
pub(crate) fn serve_line<R: Wait, K: Kinds + Drop>(
    rt: &R,
    alloc: Global,
    hall: &Hall<K>,
    pass: &mut HallPass,
    asked: Result<ShellLine, LineFault>,
) -> Result<Option<SessionItem>, LineStop>
    requires of { IsOf hall.now pass.old }
    requires other { is_quit asked ≡ false }
    ensures of { IsOf hall.now pass.new }
    ensures closed { pass.new.closed ≡ pass.old.closed }
    ensures keeps { KeepsPass pass.old.front pass.new.front }
    ensures served { Serves (record { limits = hall.now.limits; refuses = K.refuses }) asked pass.old.front pass.new.front result }
{
    match asked {
        Ok(line) => serve_read(rt, alloc, hall, pass, line),
        Err(fault) => Ok(Some(refused(alloc, pass, Refusal::Line { fault }))),
    }
}

// Serves what a line asks.
fn serve_read<R: Wait, K: Kinds + Drop>(
    rt: &R,
    alloc: Global,
    hall: &Hall<K>,
    pass: &mut HallPass,
    line: ShellLine,
) -> Result<Option<SessionItem>, LineStop>
    requires of { IsOf hall.now pass.old }
    requires other { is_quit (Ok line) ≡ false }
    ensures of { IsOf hall.now pass.new }
    ensures closed { pass.new.closed ≡ pass.old.closed }
    ensures keeps { KeepsPass pass.old.front pass.new.front }
    ensures served { Serves (record { limits = hall.now.limits; refuses = K.refuses }) (Ok line) pass.old.front pass.new.front result }
{
    if is_look(&line) {
        return match serve_look(rt, alloc, hall, pass, line) {
            Ok(item) => Ok(Some(item)),
            Err(stop) => Err(stop),
        };
    }
    serve_deed(rt, alloc, hall, pass, line)
}

// Serves what a line asks that doesn't only look.
fn serve_deed<R: Wait, K: Kinds + Drop>(
    rt: &R,
    alloc: Global,
    hall: &Hall<K>,
    pass: &mut HallPass,
    line: ShellLine,
) -> Result<Option<SessionItem>, LineStop>
    requires of { IsOf hall.now pass.old }
    requires other { is_quit (Ok line) ≡ false }
    requires deed { is_look line ≡ false }
    ensures of { IsOf hall.now pass.new }
    ensures closed { pass.new.closed ≡ pass.old.closed }
    ensures keeps { KeepsPass pass.old.front pass.new.front }
    ensures served { Serves (record { limits = hall.now.limits; refuses = K.refuses }) (Ok line) pass.old.front pass.new.front result }
{
    match line {
        ShellLine::Silent | ShellLine::Quit => Ok(None),
        ShellLine::Help(rows) => Ok(Some(line_item(alloc, pass.seen(), ShellReply::Help(rows)))),
        ShellLine::Command(command) => Ok(Some(serve_command(rt, alloc, hall, pass, command)?)),
        ShellLine::Settle => Ok(Some(serve_settle(rt, alloc, hall, pass)?)),
        ShellLine::Begin | ShellLine::Finish { .. } => {
            Ok(Some(refused(alloc, pass, Refusal::NotManual)))
        }
        ShellLine::Call { .. } | ShellLine::Http { .. } => {
            Ok(Some(refused(alloc, pass, Refusal::NotBuilt)))
        }
        ShellLine::Bundles
        | ShellLine::Services
        | ShellLine::Components
        | ShellLine::Report { .. }
        | ShellLine::Held { .. }
        | ShellLine::Find { .. }
        | ShellLine::Events { .. }
        | ShellLine::BundleEvents { .. }
        | ShellLine::Trace { .. }
        | ShellLine::Wiring
        | ShellLine::BundleWiring { .. }
        | ShellLine::Routes
        | ShellLine::ListComponents
        | ShellLine::Graph
        | ShellLine::Details { .. }
        | ShellLine::AboutService { .. }
        | ShellLine::Descriptions { .. }
        | ShellLine::Configurations
        | ShellLine::Configuration { .. }
        | ShellLine::Listeners
        | ShellLine::Journal => unreachable!(),
    }
}

// A line that is refused without a look.
fn refused(alloc: Global, pass: &HallPass, refusal: Refusal) -> SessionItem
    ensures { result ≡ line_at (length pass.now.front.seen) (ShellReply.Refused refusal) }
{
    line_item(alloc, pass.seen(), ShellReply::Refused(refusal))
}

// A line's reply at a front, without nested calls.
fn line_item(alloc: Global, front: u64, reply: ShellReply) -> SessionItem
    ensures { result ≡ line_at front reply }
{
    SessionItem::Line {
        front,
        reply,
        nested: List::of(Vec::new(alloc)),
    }
}

fn serve_command<R: Wait, K: Kinds + Drop>(
    rt: &R,
    alloc: Global,
    hall: &Hall<K>,
    pass: &mut HallPass,
    command: Command,
) -> Result<SessionItem, LineStop>
    requires of { IsOf hall.now pass.old }
    ensures of { IsOf hall.now pass.new }
    ensures closed { pass.new.closed ≡ pass.old.closed }
    ensures keeps { KeepsPass pass.old.front pass.new.front }
    ensures served { ServesOr (record { limits = hall.now.limits; refuses = K.refuses }) (Ok (ShellLine.Command command)) (λ s. ServesCommand s command) pass.old.front pass.new.front result }
{
    match hall.command(rt, alloc, pass, command) {
        Ok(answer) => Ok(reply_item(alloc, answer)),
        Err(fault) => tell_fault(alloc, pass, fault),
    }
}

// A full journal and want of memory stop the session; any other fault is told.
fn tell_fault(alloc: Global, pass: &HallPass, fault: CoreFault) -> Result<SessionItem, LineStop>
    ensures { TellsFault (length pass.now.front.seen) fault result }
{
    match fault {
        CoreFault::JournalFull => Err(LineStop::JournalFull),
        CoreFault::OutOfMemory => Err(LineStop::NoMemory),
        fault => Ok(refused(alloc, pass, Refusal::Core { fault })),
    }
}

// A command's reply at its front.
fn reply_item(alloc: Global, answer: (u64, Reply)) -> SessionItem
    ensures { result ≡ line_at answer.0 (command_reply (Ok answer.1)) }
{
    let (front, reply) = answer;
    line_item(alloc, front, told(reply))
}

// What is told of a command's reply.
fn told(reply: Reply) -> ShellReply
    ensures { result ≡ command_reply (Ok reply) }
{
    match reply {
        Reply::Done => ShellReply::Done,
        Reply::Bundle(bundle) => ShellReply::Bundle(bundle),
        Reply::Service(service) => ShellReply::Service(service),
        Reply::Uses(uses) => ShellReply::Uses(uses),
        Reply::Listener(listener) => ShellReply::Listener(listener),
    }
}

// Runs the turns that are due, as many as the limit says at most.
fn serve_settle<R: Wait, K: Kinds + Drop>(
    rt: &R,
    alloc: Global,
    hall: &Hall<K>,
    pass: &mut HallPass,
) -> Result<SessionItem, LineStop>
    requires of { IsOf hall.now pass.old }
    ensures of { IsOf hall.now pass.new }
    ensures closed { pass.new.closed ≡ pass.old.closed }
    ensures keeps { KeepsPass pass.old.front pass.new.front }
    ensures served { ServesOr (record { limits = hall.now.limits; refuses = K.refuses }) (Ok ShellLine.Settle) ServesSettle pass.old.front pass.new.front result }
{
    match hall.work(rt, alloc, pass, hall.limits().turns) {
        Ok(count) => Ok(line_item(alloc, pass.seen(), ShellReply::Turns(count))),
        Err(fault) => Err(stop_of(fault)),
    }
}

// What stops the turns of a session.
fn stop_of(fault: CoreFault) -> LineStop
    ensures { StopsBy fault result }
{
    match fault {
        CoreFault::JournalFull => LineStop::JournalFull,
        _ => LineStop::NoMemory,
    }
}

// Looks once.
fn serve_look<R: Wait, K: Kinds + Drop>(
    rt: &R,
    alloc: Global,
    hall: &Hall<K>,
    pass: &mut HallPass,
    line: ShellLine,
) -> Result<SessionItem, LineStop>
    requires of { IsOf hall.now pass.old }
    requires looks { is_look line ≡ true }
    ensures of { IsOf hall.now pass.new }
    ensures closed { pass.new.closed ≡ pass.old.closed }
    ensures keeps { KeepsPass pass.old.front pass.new.front }
    ensures served { LooksOr (record { limits = hall.now.limits; refuses = K.refuses }) line pass.old.front pass.new.front result }
{
    let mut asked = LineLook::new(alloc, line);
    let front = hall.read(rt, pass, &mut asked);
    match asked.reply() {
        Some(reply) => Ok(line_item(alloc, front, reply)),
        None => Err(LineStop::NoMemory),
    }
}

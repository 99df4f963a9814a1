//! Halls that sessions share.
ghost use Rattle.platform_sessions.specs.Halls.{IsOf, KeepsPass};
ghost use Rattle.platform_sessions.specs.Uses.{HasUse};
ghost use Rattle.std.specs.Prelude.{◌≡◌, ◌+◌, IfSome};

use crate::samples::{IMMEDIATE, LIMITS, PROVIDER, install};
use demonstration_kinds::Demonstration;
use journal_core::Journal;
use platform_sessions::{Core, Hall, HallPass, LockFault, Look, ServiceUse};
use scr_world::{Command, Reply, Step};
use std::alloc::Global;
use std::sync::Wait;

type DemoHall = Hall<Demonstration>;

// What is done in a new hall, of one pass.
#[derive(Drop)]
enum Deed {
    // A component that is made at once is started, and its turns are run.
    Work,
    // As many passes are split off as there can be, and one more once one of them was joined.
    Split,
    // The hall is told to close.
    Close,
    // A service is got and given back.
    Get,
    // It is given back once its bundle was stopped.
    Lose,
}

// Whether a command is answered so.
fn takes<R: Wait>(
    rt: &R,
    alloc: Global,
    hall: &DemoHall,
    pass: &mut HallPass,
    command: Command,
    wanted: (u64, Reply),
) -> bool
    requires { IsOf hall.now pass.old }
    ensures of { IsOf hall.now pass.new }
    ensures keeps { KeepsPass pass.old.front pass.new.front }
{
    match hall.command(rt, alloc, pass, command) {
        Ok(answer) => answer == wanted,
        Err(_) => false,
    }
}

// Whether the install of a bundle is answered so.
fn installs<R: Wait>(
    rt: &R,
    alloc: Global,
    hall: &DemoHall,
    pass: &mut HallPass,
    document: &str,
    wanted: (u64, Reply),
) -> bool
    requires { IsOf hall.now pass.old }
    ensures of { IsOf hall.now pass.new }
    ensures keeps { KeepsPass pass.old.front pass.new.front }
{
    match install(alloc, document) {
        Some(command) => takes(rt, alloc, hall, pass, command, wanted),
        None => false,
    }
}

// Whether the start of the bundle 1 is answered at the front 2.
fn starts<R: Wait>(rt: &R, alloc: Global, hall: &DemoHall, pass: &mut HallPass) -> bool
    requires { IsOf hall.now pass.old }
    ensures of { IsOf hall.now pass.new }
    ensures keeps { KeepsPass pass.old.front pass.new.front }
{
    takes(
        rt,
        alloc,
        hall,
        pass,
        Command::Start { bundle: 1 },
        (2, Reply::Done),
    )
}

// Whether so many turns run, of ten at most.
fn works<R: Wait>(rt: &R, alloc: Global, hall: &DemoHall, pass: &mut HallPass, wanted: u64) -> bool
    requires { IsOf hall.now pass.old }
    ensures of { IsOf hall.now pass.new }
    ensures keeps { KeepsPass pass.old.front pass.new.front }
{
    match hall.work(rt, alloc, pass, 10) {
        Ok(turns) => turns == wanted,
        Err(_) => false,
    }
}

// Counts the entries that it sees.
#[derive(Drop)]
struct Entries {
    count: u64,
}

impl Look for Entries {
    ghost looks = { λ _ _ _ _. Unit {0} };

    fn look(&mut self, core: &Core) {
        self.count = core.journal().length();
    }
}

// Whether a look sees so many entries, at the front behind them.
fn sees<R: Wait>(rt: &R, hall: &DemoHall, pass: &mut HallPass, wanted: u64) -> bool
    requires { IsOf hall.now pass.old }
    ensures of { IsOf hall.now pass.new }
{
    let mut entries = Entries { count: 0 };
    let front = hall.read(rt, pass, &mut entries);
    front == wanted && entries.count == wanted
}

fn settles<R: Wait>(rt: &R, alloc: Global, hall: &DemoHall, pass: HallPass) -> bool
    requires { IsOf hall.now pass }
{
    let mut pass = pass;
    installs(rt, alloc, hall, &mut pass, IMMEDIATE, (1, Reply::Bundle(1)))
        && starts(rt, alloc, hall, &mut pass)
        && works(rt, alloc, hall, &mut pass, 2)
        && sees(rt, hall, &mut pass, 6)
}

// Splits so many passes off, and answers the first and the last of them.
fn splits_off<R: Wait>(
    rt: &R,
    hall: &DemoHall,
    pass: HallPass,
    count: u64,
) -> Option<(HallPass, HallPass)>
    requires { IsOf hall.now pass }
    ensures { IfSome result (λ r. IsOf hall.now r.0 × IsOf hall.now r.1) }
{
    let (mut first, mut last) = hall.split(rt, pass).ok()?;
    for _ in 1..count {
        let both = hall.split(rt, first).ok()?;
        first = both.0;
        last = both.1;
    }
    Some((first, last))
}

fn is_full<R: Wait>(rt: &R, hall: &DemoHall, first: HallPass, last: HallPass) -> bool
    requires { IsOf hall.now first × IsOf hall.now last }
{
    match hall.split(rt, first) {
        Ok(_) => false,
        Err((first, fault)) => {
            let joined = hall.join(rt, first, last);
            fault == LockFault::SeatsFull && hall.split(rt, joined).is_ok()
        }
    }
}

fn fills<R: Wait>(rt: &R, hall: &DemoHall, pass: HallPass) -> bool
    requires { IsOf hall.now pass }
{
    match splits_off(rt, hall, pass, 63) {
        Some((first, last)) => is_full(rt, hall, first, last),
        None => false,
    }
}

// Whether the get of a service is given back as one that stood, or as one that didn't.
fn gives_back<R: Wait>(
    rt: &R,
    alloc: Global,
    hall: &DemoHall,
    pass: &mut HallPass,
    used: ServiceUse,
    wanted: bool,
) -> bool
    requires of { IsOf hall.now pass.old }
    requires has { HasUse used pass.old.front }
{
    match hall.release(rt, alloc, pass, used) {
        Ok(stood) => stood == wanted,
        Err(_) => false,
    }
}

// Whether the get of a service is gone once its bundle was stopped.
fn loses<R: Wait>(
    rt: &R,
    alloc: Global,
    hall: &DemoHall,
    pass: &mut HallPass,
    used: ServiceUse,
) -> bool
    requires of { IsOf hall.now pass.old }
    requires has { HasUse used pass.old.front }
{
    match hall.command(rt, alloc, pass, Command::Stop { bundle: 1 }) {
        Ok(_) => gives_back(rt, alloc, hall, pass, used, false),
        Err(_) => false,
    }
}

// Whether the get of a service is given back as it stands, or is gone once its bundle was stopped.
fn ends<R: Wait>(
    rt: &R,
    alloc: Global,
    hall: &DemoHall,
    pass: &mut HallPass,
    used: ServiceUse,
    stops: bool,
) -> bool
    requires of { IsOf hall.now pass.old }
    requires has { HasUse used pass.old.front }
{
    if stops {
        loses(rt, alloc, hall, pass, used)
    } else {
        gives_back(rt, alloc, hall, pass, used, true)
    }
}

// Whether a bundle gets its own service and gives it back, once it was stopped or before.
fn gets<R: Wait>(rt: &R, alloc: Global, hall: &DemoHall, pass: &mut HallPass, stops: bool) -> bool
    requires { IsOf hall.now pass.old }
{
    match hall.get(rt, alloc, pass, 1, 1) {
        Ok(used) => ends(rt, alloc, hall, pass, used, stops),
        Err(_fault) => false,
    }
}

fn uses<R: Wait>(rt: &R, alloc: Global, hall: &DemoHall, pass: HallPass, stops: bool) -> bool
    requires { IsOf hall.now pass }
{
    let mut pass = pass;
    installs(rt, alloc, hall, &mut pass, PROVIDER, (1, Reply::Bundle(1)))
        && starts(rt, alloc, hall, &mut pass)
        && gets(rt, alloc, hall, &mut pass, stops)
}

fn closes(hall: &DemoHall, pass: HallPass) -> bool
    requires { IsOf hall.now pass }
{
    let mut pass = pass;
    let before = hall.closed(&mut pass);
    hall.close(&mut pass);
    !before && hall.closed(&mut pass)
}

// Whether a deed comes to what it says in a new hall.
fn in_hall<R: Wait>(rt: &R, alloc: Global, deed: Deed) -> bool {
    match Hall::new(alloc, Demonstration, LIMITS) {
        Ok((hall, pass)) => match deed {
            Deed::Work => settles(rt, alloc, &hall, pass),
            Deed::Split => fills(rt, &hall, pass),
            Deed::Close => closes(&hall, pass),
            Deed::Get => uses(rt, alloc, &hall, pass, false),
            Deed::Lose => uses(rt, alloc, &hall, pass, true),
        },
        Err(_) => false,
    }
}

#[test]
fn due_turns_are_run(rt: HostRuntime) {
    assert!(rt; in_hall(&rt, rt.alloc(), Deed::Work));
}

#[test]
fn sixty_three_passes_can_be_split_off(rt: HostRuntime) {
    assert!(rt; in_hall(&rt, rt.alloc(), Deed::Split));
}

#[test]
fn a_hall_is_told_to_close(rt: HostRuntime) {
    assert!(rt; in_hall(&rt, rt.alloc(), Deed::Close));
}

#[test]
fn a_get_is_given_back(rt: HostRuntime) {
    assert!(rt; in_hall(&rt, rt.alloc(), Deed::Get));
}

#[test]
fn a_get_of_a_stopped_bundle_is_gone(rt: HostRuntime) {
    assert!(rt; in_hall(&rt, rt.alloc(), Deed::Lose));
}

// Whether two sessions are told so: each installs the one bundle and starts it, no turn is due then, and both have seen
// the two entries.
fn told<R: Wait>(
    rt: &R,
    alloc: Global,
    hall: &DemoHall,
    first: &mut HallPass,
    second: &mut HallPass,
) -> bool
    requires { IsOf hall.now first.old × IsOf hall.now second.old }
    ensures of { IsOf hall.now first.new × IsOf hall.now second.new }
    ensures keeps { KeepsPass first.old.front first.new.front × KeepsPass second.old.front second.new.front }
{
    let installed = installs(rt, alloc, hall, first, PROVIDER, (1, Reply::Bundle(1)));
    let again = installs(rt, alloc, hall, second, PROVIDER, (1, Reply::Bundle(1)));
    let started = starts(rt, alloc, hall, second);
    let once_more = starts(rt, alloc, hall, first);
    let idle = works(rt, alloc, hall, first, 0);
    let seen = first.seen() == 2 && second.seen() == 2;
    installed && again && started && once_more && idle && seen
}

// Whether these are the entries of an install and a start.
fn are_both(journal: &Journal<Step>) -> bool {
    match journal.entries() {
        [install, start] => {
            matches!(&install.step, Step::Command(Command::Install { .. }))
                && matches!(&start.step, Step::Command(Command::Start { .. }))
        }
        _ => false,
    }
}

// Whether the entries are those of the two who changed something.
fn shares<R: Wait>(rt: &R, alloc: Global, hall: DemoHall, first: HallPass, second: HallPass) -> bool
    requires of { IsOf hall first × IsOf hall second }
    requires all { first.front.spare + second.front.spare + 1 ≡ 63 }
{
    let mut first = first;
    let mut second = second;
    let number = second.number();
    let told = told(rt, alloc, &hall, &mut first, &mut second);
    let pass = hall.join(rt, first, second);
    let (journal, owners) = hall.into_journal(pass);
    told && are_both(&journal) && owners.as_slice() == [0, number].as_slice()
}

fn shared<R: Wait>(rt: &R, alloc: Global) -> bool {
    match Hall::new(alloc, Demonstration, LIMITS) {
        Ok((hall, pass)) => match hall.split(rt, pass) {
            Ok((first, second)) => shares(rt, alloc, hall, first, second),
            Err(_) => false,
        },
        Err(_) => false,
    }
}

#[test]
fn two_sessions_share_one_journal(rt: HostRuntime) {
    assert!(rt; shared(&rt, rt.alloc()));
}

//! What lines are answered.

use crate::{
    CallRefusal, ConfigurationLine, DescriptionLine, GraphLine, LineFault, LineHelp, ListedLine,
    ListenerLine, RouteLine, ServiceFact,
};
use bundle_life::BundleEvent;
use callback_orders::Outcome;
use prop_map::{List, Str};
use scr_world::{BundleLine, ComponentLine, CoreFault, HeldLine, TurnLine};
use service_listeners::ServiceEvent;
use service_registry::ServiceRow;
use wiring_reader::{NeedLine, WiringLine};

/// Why a line isn't carried out.
#[derive(Debug, PartialEq, Eq, Drop)]
pub enum Refusal {
    /// It is refused before it comes to the core.
    Line {
        /// Why.
        fault: LineFault,
    },
    /// The core refuses it.
    Core {
        /// Why.
        fault: CoreFault,
    },
    /// It is a line of `script --manual` alone.
    NotManual,
    /// Its form isn't built in a session yet. No line of a script is refused so.
    NotBuilt,
    /// No turn of this number is under way.
    NoTurn {
        /// The number.
        turn: u64,
    },
    /// A call that got its service isn't answered.
    Call {
        /// Why.
        fault: CallRefusal,
    },
}

/// What a line is answered.
#[derive(Debug, PartialEq, Eq, Drop)]
pub enum ShellReply {
    /// It is done.
    Done,
    /// Lines of the shell, and what each does.
    Help(List<LineHelp>),
    /// The number of a bundle.
    Bundle(u64),
    /// The number of a service.
    Service(u64),
    /// How often a bundle uses a service now.
    Uses(u32),
    /// The number of a listener.
    Listener(u64),
    /// The bundles.
    Bundles(List<BundleLine>),
    /// The services.
    Services(List<ServiceRow>),
    /// The component configurations.
    Components(List<ComponentLine>),
    /// What is told of a component configuration, as JSON without blanks.
    Report(Str),
    /// What instances hold.
    Held(List<HeldLine>),
    /// The component configurations with what they wait for.
    Listed(List<ListedLine>),
    /// All that is told of a component configuration, as JSON without blanks.
    Details(Str),
    /// What is told of a service.
    ServiceFacts(List<ServiceFact>),
    /// The descriptions of a bundle.
    Descriptions(List<DescriptionLine>),
    /// The bundles, the services without a component and the component configurations as a graph.
    Graph(List<GraphLine>),
    /// The numbers of services, the best first.
    Found(List<u64>),
    /// What a listener was told.
    Events {
        /// How many events come before these.
        before: u64,
        /// The events.
        events: List<ServiceEvent>,
    },
    /// What happened to bundles.
    BundleEvents {
        /// How many events come before these.
        before: u64,
        /// The events.
        events: List<BundleEvent>,
    },
    /// Turns.
    Trace(List<TurnLine>),
    /// Which bundles resolve together, and their wires.
    Wiring(List<WiringLine>),
    /// To whom a bundle is wired, and what it offers.
    BundleWiring(List<NeedLine>),
    /// The patterns in effect, and then what isn't.
    Routes(List<RouteLine>),
    /// The configurations.
    Configurations(List<ConfigurationLine>),
    /// The properties of a configuration, as JSON without blanks.
    Configuration(Str),
    /// The listeners.
    Listeners(List<ListenerLine>),
    /// The room of the journal.
    Journal {
        /// How many entries it has.
        used: u64,
        /// How many more are reserved.
        reserved: u64,
        /// How many it may have.
        limit: u64,
    },
    /// How many turns ran.
    Turns(u64),
    /// The turn that has begun.
    Begun(TurnLine),
    /// No turn is due.
    Idle,
    /// How a turn ended.
    Finished(Outcome),
    /// The text that a call is answered.
    Text(Str),
    /// What is answered to a request.
    Http {
        /// The number of the status, as 200.
        status: u16,
        /// The number of the service whose text is the body, else 0.
        service: u64,
        /// The body as it is told: nothing to HEAD.
        body: List<u8>,
    },
    /// It is refused.
    Refused(Refusal),
}

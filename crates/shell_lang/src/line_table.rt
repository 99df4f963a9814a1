//! The lines of the shell.

/// The lines of the shell, in the order in which they are told: the words of each as they are shown, and what it does.
pub const LINES: &[(&str, &str)] = &[
    ("install DOC", "installs a bundle"),
    (
        "update B DOC",
        "gives a bundle that isn't active another document",
    ),
    ("uninstall B", "uninstalls a bundle that isn't active"),
    ("start B", "starts a bundle"),
    ("stop B", "stops a bundle"),
    ("enable B NAME", "enables a component of an active bundle"),
    ("disable B NAME", "disables a component of an active bundle"),
    (
        "register B I,I JSON",
        "registers a service with these interfaces and properties",
    ),
    ("set B S JSON", "gives a service other properties"),
    ("unregister B S", "unregisters a service"),
    (
        "get B S",
        "gets a service, and tells how often the bundle uses it",
    ),
    (
        "unget B S",
        "lets a service go, and tells how often the bundle still uses it",
    ),
    (
        "listen B FILTER",
        "adds a listener to the events of the services that the filter matches",
    ),
    (
        "events L P",
        "tells what a listener was told behind position P",
    ),
    ("unlisten L", "takes a listener away"),
    (
        "listeners",
        "tells each listener: number, bundle, how many events it was told",
    ),
    ("bundles", "tells each bundle: number, state, name, version"),
    (
        "bundle-events P",
        "tells what happened to bundles behind position P",
    ),
    (
        "descriptions B",
        "tells each description of a bundle, and its component configurations",
    ),
    (
        "services",
        "tells each service: number, bundle, interfaces, ranking",
    ),
    (
        "service S",
        "tells a service: its component, its properties, who uses and who holds it",
    ),
    (
        "find FILTER",
        "tells the services that the filter matches, the best first",
    ),
    ("config PID JSON", "sets the configuration of a PID"),
    (
        "factory PID NAME JSON",
        "sets the configuration of this name of a factory",
    ),
    ("unconfig PID", "deletes a configuration"),
    (
        "configs",
        "tells each configuration: PID, factory, the component configurations for which it counts",
    ),
    (
        "configuration PID",
        "tells the properties of a configuration, as JSON",
    ),
    (
        "components",
        "tells each component configuration: number, name, state",
    ),
    (
        "list",
        "tells each component configuration, with the references that it waits for",
    ),
    ("report C", "tells of a component configuration, as JSON"),
    (
        "details C",
        "tells all of a component configuration, as JSON",
    ),
    (
        "held C",
        "tells the services that the instances of a component configuration hold",
    ),
    (
        "graph",
        "tells bundles, services and component configurations as a graph in DOT",
    ),
    ("trace P", "tells the turns behind number P"),
    (
        "journal",
        "tells the entries of the journal: how many there are, are reserved, and may be",
    ),
    (
        "wiring",
        "tells which bundles resolve by their manifests, and their wires",
    ),
    ("wiring B", "tells the needs and offers of a bundle"),
    (
        "routes",
        "tells which patterns of servlets are in effect, and what isn't and why",
    ),
    (
        "call B S TEXT",
        "calls a service for a bundle, and tells its answer",
    ),
    (
        "http METHOD TARGET BODY",
        "answers a request by HTTP: status, service, text",
    ),
    (
        "settle",
        "runs turns until none is due, and tells how many ran",
    ),
    ("begin", "with --manual: begins the first turn that is due"),
    ("finish N", "with --manual: ends a turn that is under way"),
    ("help", "tells each line of the shell"),
    ("help WORD", "tells the lines that begin with this word"),
    ("quit", "ends the run"),
];

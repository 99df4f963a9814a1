//! Lines for tests.

// A provider of P is installed, and then it is started and stopped and started.
pub(crate) const PROVIDER: &str = concat!(
    r#"install {"location":"p","components":{"p":{"implementationClass":"D","serviceInterfaces":["P"]}}}"#,
    "\nstart 1\nstop 1\nstart 1\n"
);

// A consumer of P and its provider are installed and started, in this order.
pub(crate) const BOTH: &str = concat!(
    r#"install {"location":"c","components":{"c":{"implementationClass":"C","references":[{"interfaceName":"P"}]}}}"#,
    "\n",
    r#"install {"location":"p","components":{"p":{"implementationClass":"D","serviceInterfaces":["P"]}}}"#,
    "\nstart 1\nstart 2\n"
);

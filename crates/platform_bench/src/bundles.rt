//! The one bundle.
use anyhow::{Result, bail};
use bundle_doc::read_bundle;
use scr_core::{Command, Core, Reply};
use std::alloc::Global;

/// Installs a bundle with so many delayed components, each with a service of its own that nobody uses, and starts it.
pub(crate) fn start(alloc: Global, core: &mut Core, components: u64) -> Result<u64> {
    let text = document(alloc, components)?;
    let bundle = install(alloc, core, text.as_str())?;
    core.command(alloc, Command::Start { bundle })?;
    Ok(bundle)
}

fn document(alloc: Global, components: u64) -> Result<String> {
    let mut text = String::new(alloc);
    text.push_str(r#"{"location":"bench","components":{"#)?;
    for number in 0..components {
        if number > 0 {
            text.push(',')?;
        }
        let one = format!(in alloc;
            r#""e{number}":{{"name":"c{number}","implementationClass":"Bench","serviceInterfaces":["I{number}"]}}"#
        )?;
        text.push_str(one.as_str())?;
    }
    text.push_str("}}")?;
    Ok(text)
}

fn install(alloc: Global, core: &mut Core, text: &str) -> Result<u64> {
    let doc = read_bundle(alloc, text.as_bytes())?;
    match core.command(alloc, Command::Install { doc })?.reply {
        Reply::Bundle(bundle) => Ok(bundle),
        _ => bail!("no bundle was installed"),
    }
}

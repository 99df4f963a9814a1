//! Tests of the program's input: lines that name files.
#![tactic(auto)]

#[cfg(test)]
mod line_limits;
#[cfg(test)]
mod named_files;
#[cfg(test)]
mod prompts;
#[cfg(test)]
mod readings;
#[cfg(test)]
mod system_files;

//! The calls that the program makes: a script is read, run and answered.
#![tactic(auto)]

mod generated;
mod input;
mod run;
mod status;
#[cfg(test)]
mod tests;
mod texts;
mod words;

pub use generated::run_gen;
pub use run::run_script;
pub use status::Status;
pub use words::run_words;

//! Tests of what no clause says and no request shows, by public calls: streams that are called again, a desk whose
//! book fails, and rows and commits that no request makes. They are in one crate, since each program of tests is linked
//! with all that it reaches, and no other crate is proved a second time for them. What the program shows is tried over
//! the process, by `tests/trials`, so that no HTTP, no SQLite and no program is reached.
#![tactic(auto)]

#[cfg(test)]
mod book;
#[cfg(test)]
mod comparing;
#[cfg(test)]
mod desk;
#[cfg(test)]
mod io;
#[cfg(test)]
mod player;
#[cfg(test)]
mod state;
#[cfg(test)]
mod streams;
#[cfg(test)]
mod texts;
#[cfg(test)]
mod watched;
#[cfg(test)]
mod words;

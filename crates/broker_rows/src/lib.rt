//! Rows of the broker's definitions, as tables over the plain programs that compute them: what a command is answered (`replies`); what one state
//! says, tells and leaves (`state`); histories that are legal, each beside those that aren't (`steps`); conversations in rounds, and those that are
//! none (`talks`); and worked examples, which are histories and conversations (`worked`). There is nothing here but tests.
#![tactic(auto)]

#[cfg(test)]
mod commands;
#[cfg(test)]
mod folders;
#[cfg(test)]
mod lines;
#[cfg(test)]
mod made;
#[cfg(test)]
mod replies;
#[cfg(test)]
mod state;
#[cfg(test)]
mod stats;
#[cfg(test)]
mod steps;
#[cfg(test)]
mod talks;
#[cfg(test)]
mod worked;

//! Worked examples as tests of single public calls; tests/rows.json has those that a command line
//! can show.
#![tactic(auto)]

#[cfg(test)]
mod catalogues;
#[cfg(test)]
mod changing;
#[cfg(test)]
mod covering;
#[cfg(test)]
mod documents;
#[cfg(test)]
mod indexes;
#[cfg(test)]
mod matching;
#[cfg(test)]
mod matrices;
#[cfg(test)]
mod objects;
#[cfg(test)]
mod policies;
#[cfg(test)]
mod reaching;
#[cfg(test)]
mod requests;
#[cfg(test)]
mod streams;
#[cfg(test)]
mod tokens;
#[cfg(test)]
mod universes;
#[cfg(test)]
mod words;

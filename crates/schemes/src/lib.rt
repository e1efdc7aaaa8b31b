// Schemes: drafts, the trial that makes a live scheme of a draft, and the calls on a live scheme.
// Here live the types of schemes and all that decides their calls. Kinds and lists are handed over for reading; files and texts are not known here.

#![tactic(auto)]

pub mod scheme;

pub use scheme::{Draft, Live, Rejected, Tally};

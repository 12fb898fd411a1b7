//! The plain machine and a store's, side by side: a store that takes the sealed form of each command stays in step.
//!
//! Definitions, in `specs/`: `Seals` (a plain state, and the same one sealed), `Veils` (the sealed forms of commands), `Opens` (what a
//! store sends, and what of it a client is told), `Runs` (both sides act by act, and what comes to one connection). `Laws` says what holds.
//!
//! Proofs, in the order in which they stand on each other. `SealedNames` is all that the others know of how names are sealed, and
//! `SealedNaming` that there is a naming with these names. `SealedPaths` and `SealedStates` go through the words of a state,
//! `SealedChanges` and `SealedMultis` through the changes, `OpenOutcomes`, `ChildLists`, `SealedNotices` and `SealedAnswers` through the
//! answers, `SealedSteps` through the acts. `Connections` says the same of one connection. `SealedTexts`, `SealedRequests` and
//! `KeptRequests` lead from requests to commands. `ShorterValues`, `ShorterNames` and `ShorterReplies` show that what is told in plain
//! form takes no more bytes, and `RefusalCodes` and `AnswersFit` that each answer fits a frame. `QuietChanges`, `NoTrace` and
//! `FirstAnswers` say what does not come to a connection. `EachLaw` has the laws that are put together from several of these.
//!
//! A new request costs a line in `VeilsCommand` and `asked_of`, and one in each of `answer_sealed`, `answer_quiet`, `sealed_request`,
//! `plain_is`, `plain_kept`, `asked_answerable` and `plain_outcome`, besides the lemma of its row.
#![tactic(auto)]

mod laws;
#[cfg(test)]
mod tests;

pub use laws::{
    fits_plain, keeps_what_is_asked, sealed_naming, stays_in_step, veils_what_is_asked,
};

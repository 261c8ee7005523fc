//! Laws of lists that are exported, and then read or imported, of the lines of a record, and of
//! registries whose records begin one log. This crate has laws and no code.
//!
//! # The lines of a record
//!
//! The line that is written for an accepted request is read as that request with its reply, and the
//! line of a founding as that founding (`reads_accepted`, `reads_founding`). So different ones have
//! different lines (`has_own_line`, `has_own_founding_line`). The lines of the record of a legal
//! history are read as its founding and its accepted requests; a new registry with that founding
//! has the same history after these requests, and gives the same replies (`keeps_whole_history`).
//! The premises are `IsValidFounding` and `IsAccepted`: texts, numbers and lists are valid, as
//! their Rust types keep them, and each reply is UTF-8. The digest of a history is made from the
//! lines of its record, each after the digest of the line before it (`is_digest_of_record`). That
//! other lines have another digest is not proved.
//!
//! What is said of a record has the premise that its requests are valid (`AreValid`). Those of a
//! new registry are, and acting on requests with valid fields keeps them so (`keeps_valid`). No
//! clause says that each line that is read has valid fields: the types of the fields do.
//!
//! # Registries that share a log
//!
//! Registries on several machines may share a log of lines (`shared_log`), if the record of each
//! begins it (`BeginsWith`). Of two such machines one has the history of the other, or goes on from
//! it (`have_one_history`); so a number that has an owner on both has the same one
//! (`have_one_owner`). An accepted request whose line is in the log is in the history of each of
//! them that has as many lines (`have_each_request`). If the log takes the line of a machine's next
//! deed under the next number, the record with that deed begins the log from then on, whatever
//! others append (`begins_with_appended`). `shared_registry` has the calls of such a machine.
//!
//! # Lists that are exported and imported
//!
//! The text of an exported list is read back as that list (`reads_as_itself`, `is_read_back`). An
//! import of the devices of a vendor in a list leaves each of them held for the organisation under
//! its name, without terms, and all other numbers as they were (`takes_over`). That law has three
//! premises:
//!
//! - `MayImport`: a curator asks, under an unused key; the organisation is enrolled; the registry
//!   has the vendor; and the devices are at most 8,192.
//! - `AreTitled`: each code is a product ID, and each name a title.
//! - `AreFree`: none of these numbers is owned or reserved.
//!
//! Under the same premises, take a list in order, as an exported one is, and a registry that lists
//! everything in it except the devices of the vendor. After their import it has the whole list
//! (`completes_list`). If another registry exported the list, both then have the same one
//! (`gives_same_list`).
#![tactic(auto)]

ghost use Rattle.registry_laws.specs.Exports.{ReadsAsItself, IsReadBack};
ghost use Rattle.registry_laws.specs.Imports.{TakesOver, CompletesList, GivesSameList};
ghost use Rattle.registry_laws.specs.Machines.{BeginsWithAppended, HaveEachRequest, HaveOneHistory, HaveOneOwner};
ghost use Rattle.registry_laws.specs.Records.{ReadsAccepted, ReadsFoundingLine, HasOwnLine, HasOwnFoundingLine, IsDigestOfRecord, KeepsValid, KeepsWholeHistory};

/// The text of an exported list is the text of that list.
pub fn reads_as_itself()
    ensures { ReadsAsItself }
{}

/// A reader of the text of an exported list returns that list, or runs out of memory.
pub fn is_read_back()
    ensures { IsReadBack }
{}

/// The import of a vendor's devices from a list takes all of them over, if none of their numbers is
/// owned or reserved.
pub fn takes_over()
    ensures { TakesOver }
{}

/// A registry that lists everything except a vendor's devices has the whole list after their
/// import, if none of their numbers is owned or reserved.
pub fn completes_list()
    ensures { CompletesList }
{}

/// The same for a list that was exported from another registry: after the import both registries
/// have the same list.
pub fn gives_same_list()
    ensures { GivesSameList }
{}

/// The line of an accepted request is read as that request with its reply.
pub fn reads_accepted()
    ensures { ReadsAccepted }
{}

/// The line of a founding is read as that founding.
pub fn reads_founding()
    ensures { ReadsFoundingLine }
{}

/// Different accepted requests have different lines.
pub fn has_own_line()
    ensures { HasOwnLine }
{}

/// Different foundings have different lines.
pub fn has_own_founding_line()
    ensures { HasOwnFoundingLine }
{}

/// The record of a legal history is read as its founding and its accepted requests. These make the
/// same history of a new registry, with the same replies.
pub fn keeps_whole_history()
    ensures { KeepsWholeHistory }
{}

/// The digest of a history is made from the lines of its record, the founding's first, each with the
/// digest of the line before it.
pub fn is_digest_of_record()
    ensures { IsDigestOfRecord }
{}

/// The record of a new registry has valid requests, and requests with valid fields keep it so.
/// This is the premise of what is said of a record. The types of the fields of a `Request` give each
/// one of them that it is valid.
pub fn keeps_valid()
    ensures { KeepsValid }
{}

/// If the records of two registries begin one log, one of the two has the history of the other, or
/// goes on from it.
pub fn have_one_history()
    ensures { HaveOneHistory }
{}

/// If the records of two registries begin one log, and a number has an owner on both, it is the same.
pub fn have_one_owner()
    ensures { HaveOneOwner }
{}

/// If the record of a registry begins a log, and has as many lines as the log up to that of an
/// accepted request, that request is in its history.
pub fn have_each_request()
    ensures { HaveEachRequest }
{}

/// If the record of a registry begins a log, and the log takes the line of its next deed under the
/// next number, the record with that deed begins the log from then on.
pub fn begins_with_appended()
    ensures { BeginsWithAppended }
{}

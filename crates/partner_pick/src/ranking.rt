//! The candidates in rank.
ghost use Rattle.std.specs.Prelude.{◌≡◌, ◌+◌, ◌<◌, ◌≤◌, ◌↔◌, ℕ, List, IfNone, IfOk, IfSome, IsTrue, OnOk, length, slice_get};
ghost use Rattle.partner_pick.specs.Progress.{IsBestBelow, IsRankedTo};
ghost use Rattle.partner_pick.specs.Queries.{score_of};
ghost use Rattle.partner_pick.specs.Ranking.{IsCandidate, IsCandidateAt, IsFirst, IsRanked, score_at};

use crate::entry::is_asked_for;
use crate::{Directory, Entry, NameText, NoMemory, Role, score};
use std::alloc::{AllocError, Global};

/// How many scores there are: as many as sets of four flags.
const SCORES: u8 = 16;

/// The places of the candidates in rank, each once: the higher score first, then the lower of the lowest queries
/// that they match, then the earlier line. An entry with the computer's own name is never a candidate.
///
/// [`NoMemory`] comes for want of memory.
pub fn rank(
    alloc: Global,
    directory: &Directory,
    role: Role,
    own: &NameText,
) -> Result<Vec<usize>, NoMemory>
    ensures ranked { IfOk result (λ places. IsRanked role own.now directory.now places.items) }
    // No other list is.
    ensures only { IfOk result (λ places. (others : List ℕ)
        → IsRanked role own.now directory.now others → others ≡ places.items) }
{
    places_in_rank(alloc, directory, role, own).map_err(|_| NoMemory)
}

/// The places score by score, the highest score first.
fn places_in_rank(
    alloc: Global,
    directory: &Directory,
    role: Role,
    own: &NameText,
) -> Result<Vec<usize>, AllocError>
    ensures ranked { IfOk result (λ places. IsRanked role own.now directory.now places.items) }
    ensures only { IfOk result (λ places. (others : List ℕ)
        → IsRanked role own.now directory.now others → others ≡ places.items) }
{
    let mut places = Vec::new(alloc);
    for worse in 0..SCORES {
        add_scored(&mut places, directory, role, own, SCORES - 1 - worse)?;
    }
    Ok(places)
}

/// Adds the places of the candidates with this score, the earlier line first: equal scores have equal flags, and so match
/// the same queries.
fn add_scored(
    places: &mut Vec<usize>,
    directory: &Directory,
    role: Role,
    own: &NameText,
    wanted: u8,
) -> Result<(), AllocError>
    requires { IsRankedTo role own.now directory.now wanted 0 places.old.items }
    ensures { OnOk result
        (IsRankedTo role own.now directory.now wanted (length directory.now) places.new.items) }
{
    for place in 0..directory.len() {
        if has_candidate(directory, role, own, wanted, place) {
            places.push(place)?;
        }
    }
    Ok(())
}

/// Whether a place has a candidate of this score.
fn has_candidate(
    directory: &Directory,
    role: Role,
    own: &NameText,
    wanted: u8,
    place: usize,
) -> bool
    requires { place < length directory.now }
    ensures { IsTrue result ↔ (IsCandidateAt role own.now directory.now place
        × (score_at directory.now place ≡ wanted)) }
{
    let entry = directory.at(place);
    score(entry) == wanted && is_candidate(entry, role, own)
}

/// The first of the candidates in rank. None exactly where there is no candidate. It takes no memory.
pub fn best(directory: &Directory, role: Role, own: &NameText) -> Option<usize>
    ensures found { IfSome result (IsFirst role own.now directory.now) }
    ensures none { IfNone result ((place : ℕ) → ¬ IsCandidateAt role own.now directory.now place) }
    ensures first { (places : List ℕ) → IsRanked role own.now directory.now places
        → result ≡ slice_get places 0 }
    // Any two ranked lists are one.
    ensures one { (places others : List ℕ) → IsRanked role own.now directory.now places
        → IsRanked role own.now directory.now others → others ≡ places }
{
    let mut best = None;
    for place in 0..directory.len() {
        best = better(directory, role, own, best, place);
    }
    best
}

/// The best of the places up to this one, by the best of those below it.
fn better(
    directory: &Directory,
    role: Role,
    own: &NameText,
    best: Option<usize>,
    place: usize,
) -> Option<usize>
    requires in_list { place < length directory.now }
    requires so_far { IsBestBelow role own.now directory.now place best }
    ensures { IsBestBelow role own.now directory.now (place + 1) result }
{
    let entry = directory.at(place);
    if !is_candidate(entry, role, own) {
        return best;
    }
    let Some(first) = best else {
        return Some(place);
    };
    if stays_first(directory, first, entry) {
        Some(first)
    } else {
        Some(place)
    }
}

/// Whether a later entry leaves a place first: it does unless its score is higher.
fn stays_first(directory: &Directory, first: usize, later: &Entry) -> bool
    requires { first < length directory.now }
    ensures { IsTrue result ↔ (score_of later.now ≤ score_at directory.now first) }
{
    score(directory.at(first)) >= score(later)
}

/// Whether the entry may be asked by a computer of this role and name.
fn is_candidate(entry: &Entry, role: Role, own: &NameText) -> bool
    ensures { IsTrue result ↔ IsCandidate role own.now entry.now }
{
    entry.name.as_slice() != own.as_slice() && is_asked_for(entry, role)
}

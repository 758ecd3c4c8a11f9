// How often the tasks of a run enter its gate.

use crate::answers::{Answer, answer_through};
use crate::cases::Case;
use gp_base::{Event, Gate, Journal, Pos};
use std::alloc::{AllocError, Global};
use std::sync::atomic::{AtomicU64, Ordering};
use std::thread::Threads;

/// A gate that lets all tasks pass, and counts those of each position.
#[derive(Drop)]
pub struct Counting {
    entries: Vec<AtomicU64>,
}

impl Gate for Counting {
    fn enter(&self, pos: Pos) {
        if let Some(count) = self.entries.get(pos.0 as usize) {
            let _ = count.fetch_add(1, Ordering::SeqCst);
        }
    }
}

/// A gate over so many positions, which no task has entered.
pub fn gate_over(alloc: Global, positions: usize) -> Result<Counting, AllocError> {
    let mut entries = Vec::new(alloc);
    for _ in 0..positions {
        entries.push(AtomicU64::new(0))?;
    }
    Ok(Counting { entries })
}

// How often the journal posts each of so many positions.
fn posts_of(alloc: Global, journal: &Journal, positions: usize) -> Result<Vec<u64>, AllocError> {
    let mut posts = Vec::from_elem(alloc, 0u64, positions)?;
    for event in journal.events.as_slice() {
        if let Event::Post(position, _) = event {
            if let Some(count) = posts.get_mut(position.0 as usize) {
                *count = count.saturating_add(1);
            }
        }
    }
    Ok(posts)
}

/// Whether the gate counted these posts, as many as there are positions at least.
pub fn agrees(gate: &Counting, posts: &[u64], positions: usize) -> bool {
    let mut posted = 0u64;
    for (entries, count) in gate.entries.iter().zip(posts.iter()) {
        if entries.load(Ordering::SeqCst) != *count {
            return false;
        }
        posted = posted.saturating_add(*count);
    }
    posted >= positions as u64
}

/// Whether a call ended with status 0, and each position entered its gate as often as its journal posts it.
pub fn is_entered_as_posted(
    alloc: Global,
    answer: &Answer,
    gate: &Counting,
    positions: usize,
) -> Result<bool, AllocError> {
    let posts = posts_of(alloc, &answer.journal, positions)?;
    Ok(answer.status == 0 && agrees(gate, &posts, positions))
}

// Each position enters the gate as often as the journal posts it.
fn enters_as_posted<R: Threads + Sync + AllocGlobal>(
    rt: &R,
    case: &Case<'_>,
    positions: usize,
) -> Result<bool, AllocError> {
    let alloc = rt.alloc();
    let gate = gate_over(alloc, positions)?;
    let answer = answer_through(rt, case, &gate)?;
    is_entered_as_posted(alloc, &answer, &gate, positions)
}

// The same by each of these crews.
fn enters_by<R: Threads + Sync + AllocGlobal>(
    rt: &R,
    case: &Case<'_>,
    crews: &[&str],
    positions: usize,
) -> Result<bool, AllocError> {
    let alloc = rt.alloc();
    for crew in crews {
        let words = format!(in alloc; "{}{crew}", case.words)?;
        let is_told = enters_as_posted(
            rt,
            &Case {
                words: words.as_str(),
                ..*case
            },
            positions,
        );
        drop(words);
        if !is_told? {
            return Ok(false);
        }
    }
    Ok(true)
}

/// Each position of each of these cases enters the gate as often as the journal posts it, by each of these crews.
pub fn enter_as_posted<R: Threads + Sync + AllocGlobal>(
    rt: &R,
    cases: &[Case<'_>],
    crews: &[&str],
    positions: usize,
) -> Result<bool, AllocError> {
    for case in cases {
        if !enters_by(rt, case, crews, positions)? {
            return Ok(false);
        }
    }
    Ok(true)
}

// Numbers with what they count, numbers together, and numbers by their places.

use run_views::push_between;
use std::alloc::{AllocError, Global};
use text_pieces::Piece::{Number, Word};
use text_pieces::{Piece, push_pieces};

/// Appends how many of a thing there are between two words. The error is that memory is out.
pub fn push_counted<'a>(
    text: &mut Vec<u8>,
    before: &'a [u8],
    count: u64,
    thing: &'a [u8],
    after: &'a [u8],
) -> Result<(), AllocError> {
    push_pieces(
        text,
        &[
            Word(before),
            Number(count),
            Word(thing),
            plural(count),
            Word(after),
        ],
    )
}

/// The end of the word for a thing of which there are so many.
pub fn plural(count: u64) -> Piece<'static> {
    Word(if count == 1 { b"" } else { b"s" })
}

/// Appends how often something was. The error is that memory is out.
pub fn push_times(text: &mut Vec<u8>, count: u64) -> Result<(), AllocError> {
    if count == 1 {
        text.extend_from_slice(b"once")
    } else {
        push_between(text, b"", count, b" times")
    }
}

/// The number at a place, or 0 past the end.
pub fn at(numbers: &[u32], place: usize) -> u32 {
    match numbers.get(place) {
        Some(number) => *number,
        None => 0,
    }
}

/// Puts a number at a place, after so many zeros as are wanted. The error is that memory is out.
pub fn put(numbers: &mut Vec<u32>, place: usize, number: u32) -> Result<(), AllocError> {
    let missing = place.saturating_add(1).saturating_sub(numbers.len());
    for _ in 0..missing {
        numbers.push(0)?;
    }
    if let Some(slot) = numbers.get_mut(place) {
        *slot = number;
    }
    Ok(())
}

// How many lines, or stretches of threads, are told together.
const MOST_TOGETHER: usize = 8;

/// Puts a number after others, unless it is the last of them. The error is that memory is out.
pub fn put_once(numbers: &mut Vec<u32>, number: u32) -> Result<(), AllocError> {
    if matches!(numbers.last(), Some(last) if *last == number) {
        return Ok(());
    }
    numbers.push(number)?;
    Ok(())
}

/// Appends these lines, or the first of them, of which there is at least one. The error is that memory is out.
pub fn push_lines(text: &mut Vec<u8>, lines: &[u32]) -> Result<(), AllocError> {
    let mut between: &[u8] = if lines.len() == 1 {
        b"line "
    } else {
        b"the lines "
    };
    let mut told: usize = 0;
    for line in lines {
        if told == MOST_TOGETHER {
            return text.extend_from_slice(b", and so on");
        }
        push_pieces(text, &[Word(between), Number(u64::from(*line))])?;
        between = b", ";
        told = told.saturating_add(1);
    }
    Ok(())
}

// Lets the last of the stretches go on to a number, or begins one.
fn add_number(stretches: &mut Vec<(u32, u32)>, number: u32) -> Result<(), AllocError> {
    let last = stretches.len().saturating_sub(1);
    if let Some(stretch) = stretches.get_mut(last) {
        if stretch.1.saturating_add(1) == number {
            stretch.1 = number;
            return Ok(());
        }
    }
    stretches.push((number, number))?;
    Ok(())
}

// The stretches of numbers that follow one another, each by its first and its last.
fn stretches_of(alloc: Global, numbers: &[u32]) -> Result<Vec<(u32, u32)>, AllocError> {
    let mut stretches = Vec::new(alloc);
    for number in numbers {
        add_number(&mut stretches, *number)?;
    }
    Ok(stretches)
}

/// Appends the first and the last of a stretch after a word. The error is that memory is out.
pub fn push_stretch(
    text: &mut Vec<u8>,
    before: &[u8],
    first: u64,
    last: u64,
) -> Result<(), AllocError> {
    if first == last {
        return push_pieces(text, &[Word(before), Number(first)]);
    }
    push_pieces(
        text,
        &[Word(before), Number(first), Word(b" to "), Number(last)],
    )
}

// Appends these stretches, or the first of them, the first of all after a word.
fn push_stretches(
    text: &mut Vec<u8>,
    word: &[u8],
    stretches: &[(u32, u32)],
) -> Result<(), AllocError> {
    let mut between = word;
    let mut told: usize = 0;
    for stretch in stretches {
        if told == MOST_TOGETHER {
            return text.extend_from_slice(b", and so on");
        }
        push_stretch(text, between, u64::from(stretch.0), u64::from(stretch.1))?;
        between = b", ";
        told = told.saturating_add(1);
    }
    Ok(())
}

/// Appends threads by their numbers, which rise, those that follow one another together. The error is that memory is out.
pub fn push_threads(alloc: Global, text: &mut Vec<u8>, threads: &[u32]) -> Result<(), AllocError> {
    let word: &[u8] = if threads.len() == 1 {
        b"thread "
    } else {
        b"threads "
    };
    push_stretches(text, word, &stretches_of(alloc, threads)?)
}

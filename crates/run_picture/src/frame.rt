// What frames a picture: the numbers of threads before their rows, and the legend.
ghost use Rattle.std.specs.Prelude.{◌≡◌, ◌++◌, map, OnOk};
ghost use Rattle.run_picture.specs.meaning.Picture.{plain};
ghost use Rattle.run_picture.specs.inner.Drawn.{parts_in};

use crate::elements::{Drawing, Element, Place};
use crate::layout::{Band, Bands};
use crate::notes::numeral;
use gp_base::{Seq, Text};
use std::alloc::{AllocError, Global};

/// A part of what frames a picture.
#[derive(Drop)]
pub struct Part {
    pub class: Text,
    pub words: Text,
    pub place: Place,
}

// The boxes of the legend: class and words, left edge and width.
const KEYS: [(&[u8], &[u8], u64, u64); 4] = [
    (b"kept", b"kept", 50, 60),
    (b"struck", b"struck by a fault", 116, 114),
    (
        b"undone",
        b"undone, since it depends on one that was struck",
        236,
        300,
    ),
    (b"again", b"kept after a restart", 542, 128),
];

// Those of what a trace tells.
const TOLD_KEYS: [(&[u8], &[u8], u64, u64); 2] = [
    (b"stale", b"its result came after the restart", 50, 220),
    (b"unrun", b"not run", 276, 60),
];

// What the letters in boxes mean.
const LETTERS: [&[u8]; 2] = [
    b"S: a thread starts; L: it takes the lock of this index; U: it gives it back; F: it forks this thread;",
    b"J: it joins this thread; B: it leaves a barrier; =: it makes a value one of control",
];

/// The upper edge of the first band of a picture, with a trace or without.
pub fn first_edge(traced: bool) -> u64 {
    if traced { 102 } else { 84 }
}

// Adds boxes to a legend, in a row with this upper edge.
fn push_keys(
    alloc: Global,
    parts: &mut Vec<Part>,
    keys: &[(&'static [u8], &'static [u8], u64, u64)],
    top: u64,
) -> Result<(), AllocError> {
    for (class, words, left, width) in keys {
        parts.push(Part {
            class: Seq::from_slice(alloc, class)?,
            words: Seq::from_slice(alloc, words)?,
            place: Place {
                left: *left,
                top,
                width: *width,
                height: 14,
                across: left.saturating_add(*width / 2),
                base: top.saturating_add(11),
            },
        })?;
    }
    Ok(())
}

// Adds what the letters mean, in lines the first of which stands here.
fn push_letters(alloc: Global, parts: &mut Vec<Part>, first: u64) -> Result<(), AllocError> {
    let mut base = first;
    for words in &LETTERS {
        parts.push(Part {
            class: Seq::from_slice(alloc, b"letters")?,
            words: Seq::from_slice(alloc, words)?,
            place: Place {
                left: 50,
                top: base.saturating_sub(11),
                width: 620,
                height: 14,
                across: 50,
                base,
            },
        })?;
        base = base.saturating_add(14);
    }
    Ok(())
}

// Adds the numbers of a band's threads, before their rows.
fn push_threads(alloc: Global, parts: &mut Vec<Part>, band: &Band) -> Result<(), AllocError> {
    for thread in &band.threads {
        parts.push(Part {
            class: Seq::from_slice(alloc, b"thread")?,
            words: numeral(alloc, u64::from(*thread))?,
            place: band.row_place(*thread),
        })?;
    }
    Ok(())
}

/// What frames a picture in these bands. The error is that memory is out.
pub fn frame_of(alloc: Global, traced: bool, bands: &Bands) -> Result<Vec<Part>, AllocError> {
    let mut parts = Vec::new(alloc);
    push_keys(alloc, &mut parts, &KEYS, 28)?;
    if traced {
        push_keys(alloc, &mut parts, &TOLD_KEYS, 46)?;
    }
    push_letters(alloc, &mut parts, first_edge(traced).saturating_sub(27))?;
    for band in &bands.bands {
        push_threads(alloc, &mut parts, band)?;
    }
    Ok(parts)
}

/// Puts what frames a picture.
pub fn put_frame(alloc: Global, drawing: &mut Drawing, parts: &[Part]) -> Result<(), AllocError>
    ensures { OnOk result (drawing.new.elements ≡ drawing.old.elements ++ map (λ part. plain part.0 part.1) (parts_in parts.now)) }
{
    for part in parts {
        let words = part.words.copied(alloc)?;
        let element = Element::plain(alloc, part.class.as_slice(), words)?;
        drawing.put(element, part.place)?;
    }
    Ok(())
}

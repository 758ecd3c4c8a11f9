// What is told of restarts: a mark where each has its front, and a note below.
ghost use Rattle.std.specs.Prelude.{◌≡◌, ◌≤◌, ◌++◌, ◌∷◌, [], length, codes, decimal, OnOk, IfOk};
ghost use Rattle.run_picture.specs.meaning.Picture.{plain, note, fronts, notes};

use crate::elements::{Drawing, Element, Place};
use crate::layout::{Bands, beside};
use gp_base::{Restart, Seq, Text};
use run_views::{push_between, push_labelled, push_number};
use std::alloc::{AllocError, Global};

// Appends which attempt a restart found struck.
fn push_struck(text: &mut Vec<u8>, restart: &Restart) -> Result<(), AllocError>
    ensures { OnOk result (text.new.items ≡ text.old.items
        ++ codes " attempt " ++ decimal restart.now.attempt ++ codes " of " ++ decimal restart.now.struck ++ codes " struck redone ") }
{
    push_labelled(text, b" attempt ", restart.attempt)?;
    push_between(text, b" of ", restart.struck.0, b" struck redone ")
}

// Appends what a restart of this number did.
#[tactic(auto, unfolding(crate::specs::meaning::Picture::note))]
fn push_note(text: &mut Vec<u8>, number: u64, restart: &Restart) -> Result<(), AllocError>
    ensures { OnOk result (text.new.items ≡ text.old.items ++ note number restart.now) }
{
    push_number(text, number)?;
    push_labelled(text, b": front ", restart.front.0)?;
    push_struck(text, restart)?;
    push_number(text, restart.redo.len())
}

// What a restart of this number did, in words.
fn note(alloc: Global, number: u64, restart: &Restart) -> Result<Text, AllocError>
    ensures { IfOk result (λ text. text ≡ note number restart.now) }
{
    let mut text = Vec::new(alloc);
    push_note(&mut text, number, restart)?;
    Ok(Seq::from_vec(text))
}

/// A number as a text. The error is that memory is out.
pub fn numeral(alloc: Global, number: u64) -> Result<Text, AllocError>
    ensures { IfOk result (λ text. text ≡ decimal number) }
{
    let mut text = Vec::new(alloc);
    push_number(&mut text, number)?;
    Ok(Seq::from_vec(text))
}

// The mark of the front of a restart of this number.
fn front(alloc: Global, number: u64, restart: &Restart) -> Result<Element, AllocError>
    ensures { IfOk result (λ element. element
        ≡ record { class = codes "front"; title = note number restart.now; words = decimal number }) }
{
    Ok(Element {
        class: Seq::from_slice(alloc, b"front")?,
        title: note(alloc, number, restart)?,
        words: numeral(alloc, number)?,
    })
}

// Puts the mark of the front of a restart of this number, at a place.
fn put_front(
    alloc: Global,
    drawing: &mut Drawing,
    place: Place,
    number: u64,
    restart: &Restart,
) -> Result<(), AllocError>
    ensures { OnOk result (drawing.new.elements ≡ drawing.old.elements
        ++ record { class = codes "front"; title = note number restart.now; words = decimal number } ∷ []) }
{
    let element = front(alloc, number, restart)?;
    drawing.put(element, place)
}

/// Puts the marks of those of the restarts that have their front right after a position, numbered from 1.
pub fn put_fronts(
    alloc: Global,
    drawing: &mut Drawing,
    bands: &Bands,
    position: usize,
    restarts: &[Restart],
) -> Result<(), AllocError>
    requires position { position ≤ 200000 }
    requires few { length restarts.now ≤ 1000 }
    ensures { OnOk result (drawing.new.elements ≡ drawing.old.elements ++ fronts position 1 restarts.now) }
{
    let mut place = bands.front_place(position);
    for (at, restart) in restarts.iter().enumerate() {
        if restart.front.0 as usize == position + 1 {
            put_front(alloc, drawing, place, at as u64 + 1, restart)?;
            place = beside(place);
        }
    }
    Ok(())
}

// Puts the note of a restart of this number.
fn put_note(
    alloc: Global,
    drawing: &mut Drawing,
    bands: &Bands,
    number: u64,
    restart: &Restart,
) -> Result<(), AllocError>
    ensures { OnOk result (drawing.new.elements ≡ drawing.old.elements ++ plain (codes "note") (note number restart.now) ∷ []) }
{
    let words = note(alloc, number, restart)?;
    let element = Element::plain(alloc, b"note", words)?;
    drawing.put(element, bands.note_place(number))
}

/// Puts a note for each restart, numbered from 1.
pub fn put_notes(
    alloc: Global,
    drawing: &mut Drawing,
    bands: &Bands,
    restarts: &[Restart],
) -> Result<(), AllocError>
    requires { length restarts.now ≤ 1000 }
    ensures { OnOk result (drawing.new.elements ≡ drawing.old.elements ++ notes 1 restarts.now) }
{
    for (at, restart) in restarts.iter().enumerate() {
        put_note(alloc, drawing, bands, at as u64 + 1, restart)?;
    }
    Ok(())
}

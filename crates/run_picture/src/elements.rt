// The elements of a picture and their places, and how they are written.
ghost use Rattle.std.specs.Prelude.{◌≡◌, [], ◌∷◌, ◌++◌, codes, OnOk, IfOk};
ghost use Rattle.run_picture.specs.meaning.Elements.{colours, opening, title_text, rectangle, words_at, element_text, elements_text};
ghost use Rattle.run_picture.specs.meaning.Picture.{plain};
ghost use Rattle.run_picture.specs.inner.Drawn.{nowhere, place_in};

use gp_base::{Seq, Text};
use run_views::{push_between, push_labelled};
use std::alloc::{AllocError, Global};

const COLOURS: &[u8] =
    b"<style>text{font:10px sans-serif}rect{fill:none}.column,.kept,.again,.struck,.undone,.stale,.unrun{text-anchor:middle}.thread{text-anchor:end}.thread rect,.fold rect{fill:#efefef}.kept rect{fill:#b9d7ea}.again rect{fill:#2b6ea6}.struck rect,.front rect{fill:#d7263d}.undone rect{fill:#f4a259}.stale rect{fill:#d4d4d4}.unrun rect{fill:#fff;stroke:#8d8d8d}.again text,.struck text{fill:#fff}.front text,.note text{fill:#d7263d}</style>\n<rect width='100%' height='100%' style='fill:#fff'/>\n";

/// An element: its class, what it says when it is pointed at, and its words.
#[derive(Drop)]
pub struct Element {
    pub class: Text,
    pub title: Text,
    pub words: Text,
}

/// Where an element stands: its rectangle, and where the line of its words stands.
#[derive(Clone, Copy)]
pub struct Place {
    pub left: u64,
    pub top: u64,
    pub width: u64,
    pub height: u64,
    pub across: u64,
    pub base: u64,
}

/// The place of nothing.
pub const NOWHERE: Place = Place {
    left: 0,
    top: 0,
    width: 0,
    height: 0,
    across: 0,
    base: 0,
};

/// The elements of a picture in order, and their places.
#[derive(Drop)]
pub struct Drawing {
    pub elements: Seq<Element>,
    pub places: Vec<Place>,
}

impl Element {
    /// An element that says nothing more when it is pointed at. The error is that memory is out.
    pub fn plain(alloc: Global, class: &[u8], words: Text) -> Result<Element, AllocError>
        ensures { IfOk result (λ element. element ≡ plain class.now words) }
    {
        Ok(Element {
            class: Seq::from_slice(alloc, class)?,
            title: Seq::new(alloc),
            words,
        })
    }
}

impl Drawing {
    /// A picture of nothing.
    pub fn new(alloc: Global) -> Drawing
        ensures { result.elements ≡ [] }
    {
        Drawing {
            elements: Seq::new(alloc),
            places: Vec::new(alloc),
        }
    }

    /// Puts an element last, at a place.
    pub fn put(&mut self, element: Element, place: Place) -> Result<(), AllocError>
        ensures { OnOk result (self.new.elements ≡ self.old.elements ++ element ∷ []) }
    {
        self.elements.push(element)?;
        self.places.push(place)?;
        Ok(())
    }

    // The place of the element of this number.
    fn place_of(&self, number: usize) -> Place
        ensures { result ≡ place_in self.now number }
    {
        match self.places.get(number) {
            Some(place) => *place,
            None => NOWHERE,
        }
    }
}

// Appends the colours of the classes.
#[tactic(auto, unfolding(crate::specs::meaning::Elements::colours))]
fn push_colours(text: &mut Vec<u8>) -> Result<(), AllocError>
    ensures { OnOk result (text.new.items ≡ text.old.items ++ colours) }
{
    text.extend_from_slice(COLOURS)
}

/// Appends how a picture of a size begins.
#[tactic(auto, unfolding(crate::specs::meaning::Elements::opening))]
pub fn push_opening(text: &mut Vec<u8>, width: u64, height: u64) -> Result<(), AllocError>
    ensures { OnOk result (text.new.items ≡ text.old.items ++ opening width height) }
{
    push_labelled(
        text,
        b"<svg xmlns='http://www.w3.org/2000/svg' width='",
        width,
    )?;
    push_between(text, b"' height='", height, b"'>\n")?;
    push_colours(text)
}

// Appends what an element says when it is pointed at, where that is anything.
fn push_title(text: &mut Vec<u8>, title: &[u8]) -> Result<(), AllocError>
    ensures { OnOk result (text.new.items ≡ text.old.items ++ title_text title.now) }
{
    if title.is_empty() {
        return Ok(());
    }
    text.extend_from_slice(b"<title>")?;
    text.extend_from_slice(title)?;
    text.extend_from_slice(b"</title>")
}

// Appends the rectangle of an element.
#[tactic(auto, unfolding(crate::specs::meaning::Elements::rectangle))]
fn push_rectangle(text: &mut Vec<u8>, place: Place) -> Result<(), AllocError>
    ensures { OnOk result (text.new.items ≡ text.old.items ++ rectangle place) }
{
    push_labelled(text, b"<rect x='", place.left)?;
    push_labelled(text, b"' y='", place.top)?;
    push_labelled(text, b"' width='", place.width)?;
    push_between(text, b"' height='", place.height, b"'/>")
}

// Appends the words of an element.
#[tactic(auto, unfolding(crate::specs::meaning::Elements::words_at))]
fn push_words(text: &mut Vec<u8>, place: Place, words: &[u8]) -> Result<(), AllocError>
    ensures { OnOk result (text.new.items ≡ text.old.items ++ words_at place words.now) }
{
    push_labelled(text, b"<text x='", place.across)?;
    push_between(text, b"' y='", place.base, b"'>")?;
    text.extend_from_slice(words)?;
    text.extend_from_slice(b"</text>")
}

// Appends an element at its place.
#[tactic(auto, unfolding(crate::specs::meaning::Elements::element_text))]
fn push_element(text: &mut Vec<u8>, place: Place, element: &Element) -> Result<(), AllocError>
    ensures { OnOk result (text.new.items ≡ text.old.items ++ element_text place element.now) }
{
    text.extend_from_slice(b"<g class='")?;
    text.extend_from_slice(element.class.as_slice())?;
    text.extend_from_slice(b"'>")?;
    push_title(text, element.title.as_slice())?;
    push_rectangle(text, place)?;
    push_words(text, place, element.words.as_slice())?;
    text.extend_from_slice(b"</g>\n")
}

/// Appends the elements of a picture at their places.
pub fn push_drawing(text: &mut Vec<u8>, drawing: &Drawing) -> Result<(), AllocError>
    ensures { OnOk result (text.new.items ≡ text.old.items ++ elements_text (place_in drawing.now) 0 drawing.now.elements) }
{
    for (number, element) in drawing.elements.as_slice().iter().enumerate() {
        push_element(text, drawing.place_of(number), element)?;
    }
    Ok(())
}

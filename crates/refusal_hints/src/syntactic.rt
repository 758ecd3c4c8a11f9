// What to write in place of a token that can't stand where it does.

use crate::blocks::Place;
use crate::cell_hints::INDEX_RULES;
use crate::head_hints::HEAD_RULES;
use crate::mark_hints::MARK_RULES;
use crate::name_hints::NAME_RULES;
use crate::spots::Spot;
use crate::statement_hints::{LIST_RULES, OPENING_RULES};
use crate::tokens::token_number;
use crate::told_hints::{Hint, push_told};
use std::alloc::{AllocError, Global};
use task_parser::{Kind, Token};

impl<'a> Spot<'a> {
    // What is told of a form.
    fn form_hint(&self) -> Option<&'static [u8]> {
        if let Some(hint) = self.told(&OPENING_RULES) {
            return Some(hint);
        }
        if let Some(hint) = self.foreign_hint() {
            return Some(hint);
        }
        if let Some(hint) = self.told(&MARK_RULES) {
            return Some(hint);
        }
        if let Some(hint) = self.told(&NAME_RULES) {
            return Some(hint);
        }
        if let Some(hint) = self.told(&LIST_RULES) {
            return Some(hint);
        }
        self.told(&HEAD_RULES)
    }

    fn hint(&self) -> Option<Hint<'a>> {
        if let Some(hint) = self.case_hint() {
            return Some(hint);
        }
        if let Some(hint) = self.told(&INDEX_RULES) {
            return Some(Hint::Fixed(hint));
        }
        if let Some(hint) = self.word_hint() {
            return Some(hint);
        }
        if let Some(hint) = self.form_hint() {
            return Some(Hint::Fixed(hint));
        }
        if let Some(hint) = self.bracket_hint() {
            return Some(hint);
        }
        if let Some(hint) = self.missing_hint() {
            return Some(hint);
        }
        self.follow_hint()
    }
}

// Appends the hints on a token that can't stand where it does.
fn push_hints(
    alloc: Global,
    text: &mut Vec<u8>,
    place: Place<'_>,
    kinds: &[Kind],
) -> Result<(), AllocError> {
    let spot = Spot { place, kinds };
    match spot.hint() {
        Some(hint) => {
            spot.push_block_lines(alloc, text)?;
            push_told(text, hint)
        }
        None => place.push_block_hints(alloc, text),
    }
}

/// The hints on a token that can't stand where it does.
pub fn parse_hints(
    alloc: Global,
    program: &[u8],
    tokens: &[Token],
    at: u32,
    kinds: &[Kind],
) -> Result<Vec<u8>, AllocError> {
    let place = Place {
        program,
        tokens,
        number: token_number(tokens, at),
    };
    let mut text = Vec::new(alloc);
    push_hints(alloc, &mut text, place, kinds)?;
    Ok(text)
}

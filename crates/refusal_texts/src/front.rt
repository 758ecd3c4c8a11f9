// The front of a refusal: the place, what is at fault there, the line with the mark, and the rule.
ghost use Rattle.std.specs.Prelude.{◌≡◌, ◌<◌, ◌++◌, ◌^◌, length, codes, decimal, OnOk};
ghost use Rattle.refusal_texts.specs.Fronts.{place_text, rule_text, front_text, IsRefusal};

use gp_base::Name;
use refusal_hints::{push_between, push_words};
use std::alloc::AllocError;
use text_places::{place_of, push_marked};

/// A rule: its kind and number, what it says, and where it is broken, by the unit of that place.
#[derive(Clone, Copy)]
pub struct Rule<'a> {
    pub kind: &'a [u8],
    pub number: u64,
    pub says: &'a [u8],
    pub unit: &'a [u8],
    pub at: u64,
}

// Appends a place and a colon.
fn push_place(text: &mut Vec<u8>, name: &Name, program: &[u8], at: usize) -> Result<(), AllocError>
    requires { length program.now < 2 ^ 31 }
    ensures { OnOk result (text.new.items ≡ text.old.items ++ place_text name.now program.now at) }
{
    let place = place_of(program, at);
    text.extend_from_slice(name.as_slice())?;
    push_between(text, b":", u64::from(place.line), b":")?;
    push_between(text, b"", u64::from(place.column), b": ")
}

/// Appends a rule, and where it is broken.
pub fn push_rule(text: &mut Vec<u8>, rule: Rule<'_>) -> Result<(), AllocError>
    ensures { OnOk result (text.new.items ≡ text.old.items
        ++ rule_text rule.entry.kind.now rule.entry.number rule.entry.says.now rule.entry.unit.now rule.entry.at) }
{
    text.extend_from_slice(rule.kind)?;
    push_between(text, b" ", rule.number, b": ")?;
    push_words(text, rule.says, b" (", rule.kind)?;
    push_between(text, b" ", rule.number, b" at ")?;
    text.extend_from_slice(rule.unit)?;
    push_between(text, b" ", rule.at, b")\n")
}

/// Appends the front of a refusal: the place, the message, the line with the mark, and the rule.
pub fn push_front(
    text: &mut Vec<u8>,
    name: &Name,
    program: &[u8],
    at: usize,
    message: &[u8],
    rule: Rule<'_>,
) -> Result<(), AllocError>
    requires { length program.now < 2 ^ 31 }
    ensures { OnOk result (text.new.items ≡ text.old.items ++ front_text name.now program.now at message.now
        (rule_text rule.entry.kind.now rule.entry.number rule.entry.says.now rule.entry.unit.now rule.entry.at)) }
{
    push_place(text, name, program, at)?;
    text.extend_from_slice(message)?;
    text.extend_from_slice(b"\n")?;
    push_marked(text, program, at)?;
    push_rule(text, rule)?;
    Ok(())
}

/// Appends a front with hints after it.
pub fn push_refusal(
    text: &mut Vec<u8>,
    name: &Name,
    program: &[u8],
    at: usize,
    message: &[u8],
    rule: Rule<'_>,
    hints: &[u8],
) -> Result<(), AllocError>
    requires { length program.now < 2 ^ 31 }
    ensures { OnOk result (IsRefusal name.now program.now at
        (rule_text rule.entry.kind.now rule.entry.number rule.entry.says.now rule.entry.unit.now rule.entry.at) text.old.items text.new.items) }
{
    push_front(text, name, program, at, message, rule)?;
    text.extend_from_slice(hints)?;
    Ok(())
}

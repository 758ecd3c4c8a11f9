// The picture of a run and of its restarts.
ghost use Rattle.std.specs.Prelude.{◌≡◌, ◌≤◌, ◌++◌, ◌∷◌, [], length, map, codes, IfOk, OnOk, option_map};
ghost use Rattle.gp_base.specs.declared.limits.TheConstants.{MOST_SUBTHREADS};
ghost use Rattle.task_ast.specs.View.{plain_program};
ghost use Rattle.lock_checker.specs.Accepted.{program_of};
ghost use Rattle.run_views.specs.Seen.{seen};
ghost use Rattle.run_picture.specs.meaning.Elements.{Layout};
ghost use Rattle.run_picture.specs.meaning.Picture.{plain, summary, columns, notes, picture, timeline_text};
ghost use Rattle.run_picture.specs.inner.Drawn.{place_in, parts_in, shows_in, values_in, shown_elements};
ghost use Rattle.run_picture.specs.inner.Tellings.{found};

use crate::columns::View;
use crate::elements::{Drawing, Element, Place, push_drawing, push_opening};
use crate::frame::{Part, first_edge, frame_of, put_frame};
use crate::layout::bands_of;
use crate::notes::put_notes;
use crate::told::tellings_of;
use crate::values::values_before;
use gp_audit::{TraceLine, restarts_of};
use gp_base::{End, Faults, Inputs, Limits, Seq, Text};
use lock_checker::Checked;
use one_thread::run_plain;
use run_views::{push_between, push_end, push_number};
use std::alloc::{AllocError, Global};

// How many subthreads and restarts there are, and how the run ends.
#[tactic(auto, unfolding(crate::specs::meaning::Picture::summary))]
fn summary(alloc: Global, positions: usize, restarts: usize, end: End) -> Result<Text, AllocError>
    ensures { IfOk result (λ text. text ≡ summary positions restarts end) }
{
    let mut text = Vec::new(alloc);
    push_number(&mut text, positions)?;
    push_between(&mut text, b" subthreads, ", restarts, b" restarts, ")?;
    push_end(&mut text, end)?;
    Ok(Seq::from_vec(text))
}

// Puts how many subthreads and restarts there are, and how the run ends.
fn put_summary(
    alloc: Global,
    drawing: &mut Drawing,
    positions: usize,
    restarts: usize,
    end: End,
) -> Result<(), AllocError>
    ensures { OnOk result (drawing.new.elements ≡ drawing.old.elements ++ plain (codes "run") (summary positions restarts end) ∷ []) }
{
    let words = summary(alloc, positions, restarts, end)?;
    let place = Place {
        left: 50,
        top: 8,
        width: 620,
        height: 14,
        across: 50,
        base: 20,
    };
    drawing.put(Element::plain(alloc, b"run", words)?, place)
}

// The elements of a picture that shows this, in this frame, of a run that ends so.
fn drawing_of(
    alloc: Global,
    view: &View<'_>,
    frame: &[Part],
    end: End,
) -> Result<Drawing, AllocError>
    requires few { length view.now.order.now ≤ 200000 }
    requires few_restarts { length view.now.restarts.now ≤ 1000 }
    ensures { IfOk result (λ drawing. drawing.elements ≡ shown_elements view.now (parts_in frame.now) end) }
{
    let mut drawing = Drawing::new(alloc);
    let (positions, restarts) = (view.order.len(), view.restarts.len());
    put_summary(alloc, &mut drawing, positions, restarts, end)?;
    put_frame(alloc, &mut drawing, frame)?;
    view.put_columns(alloc, &mut drawing)?;
    put_notes(alloc, &mut drawing, view.bands, view.restarts)?;
    Ok(drawing)
}

// The picture that shows this, in this frame, of a run that ends so.
fn picture(alloc: Global, view: &View<'_>, frame: &[Part], end: End) -> Result<Text, AllocError>
    requires few { length view.now.order.now ≤ 200000 }
    requires few_restarts { length view.now.restarts.now ≤ 1000 }
    ensures { IfOk result (λ text. (layout : Layout) × (text ≡ picture layout view.now.heads.now (found view.now.tellings.now) (values_in view.now.known.now)
        (map seen view.now.order.now) end view.now.restarts.now)) }
{
    let drawing = drawing_of(alloc, view, frame, end)?;
    let mut text = Vec::new(alloc);
    let height = view.bands.height(view.restarts.len());
    push_opening(&mut text, view.bands.width, height)?;
    push_drawing(&mut text, &drawing)?;
    text.extend_from_slice(b"</svg>\n")?;
    Ok(Seq::from_vec(text))
}

/// The picture, as SVG, of a program's run and of the restarts that these faults make of it, in some layout: a column for
/// each position that a restart touches, with a box for each attempt. Where there is a trace of the run, the boxes of
/// attempts whose results came after the restart, and of those that were not run, tell that. The error is that memory is
/// out.
pub fn timeline_text(
    alloc: Global,
    c: &Checked,
    inputs: &Inputs,
    limits: Limits,
    faults: &Faults,
    trace: Option<&[TraceLine]>,
) -> Result<Text, AllocError>
    requires { limits.subthreads ≤ MOST_SUBTHREADS }
    ensures { IfOk result (λ text. (layout : Layout) × (text
        ≡ timeline_text layout (plain_program (program_of c.now)) inputs.now limits faults.now.list (option_map (λ lines. lines.now) trace.entry))) }
{
    let run = run_plain(alloc, c, inputs, limits)?;
    let order = run.order.as_slice();
    let restarts = restarts_of(alloc, &run.order, faults)?;
    let tellings = tellings_of(alloc, trace)?;
    let known = values_before(alloc, c, inputs, limits, order)?;
    let traced = trace.is_some();
    let bands = bands_of(alloc, restarts.as_slice(), order, first_edge(traced))?;
    let frame = frame_of(alloc, traced, &bands)?;
    let view = View {
        bands: &bands,
        heads: c.program().heads.as_slice(),
        tellings: &tellings,
        order,
        known: &known,
        restarts: restarts.as_slice(),
    };
    picture(alloc, &view, &frame, run.end)
}

// Where entries have to be looked at again for one that is runnable.

ghost use Rattle.std.specs.Prelude.{◌≡◌, min, max, cond, None};
ghost use Rattle.reorder_list.specs.Watched.{waking, narrowed, passed, past};

use gp_base::Pos;

/// An entry that waits before `fresh`, and before `low` or after `last`, is held up by a position in whose watch it is,
/// and each entry before `whole` is applied. So only those from `low` to `last`, and from `fresh` on, need be looked at.
#[derive(Clone, Copy)]
pub struct Marks {
    pub fresh: Pos,
    pub low: Pos,
    pub last: Pos,
    pub whole: Pos,
}

/// What is kept beside an entry: an earlier position that held it up when it was last looked at, and the first and the
/// last of the positions that it was found to hold up itself. No entry after `until` and before it is in conflict with
/// it by locks.
#[derive(Clone, Copy)]
pub struct Watch {
    pub by: Option<Pos>,
    pub from: Pos,
    pub to: Pos,
    pub until: Pos,
}

// The earlier of two positions.
fn earlier_of(a: Pos, b: Pos) -> Pos
    ensures { result ≡ min a b }
{
    Pos(a.0.min(b.0))
}

// The later of two positions.
fn later_of(a: Pos, b: Pos) -> Pos
    ensures { result ≡ max a b }
{
    Pos(a.0.max(b.0))
}

// A position, or the next one where it is this one.
fn passed(q: Pos, p: Pos) -> Pos
    ensures { result ≡ passed q p }
{
    if q.0 == p.0 {
        Pos(q.0.saturating_add(1))
    } else {
        q
    }
}

/// The watch of an entry of which nothing was looked at: it was found to hold up none. No other position after `until`
/// and before it is in conflict with it by locks.
pub fn new_watch(until: Pos) -> Watch
    ensures { result ≡ record { by = None; from = 4294967295; to = 0; until = until } }
{
    Watch {
        by: None,
        from: Pos(u32::MAX),
        to: Pos(0),
        until,
    }
}

/// This position is held up by the entry.
pub fn cover(watch: &mut Watch, p: Pos)
    ensures { watch.new ≡ record watch.old { from = min watch.old.from p; to = max watch.old.to p } }
{
    watch.from = earlier_of(watch.from, p);
    watch.to = later_of(watch.to, p);
}

/// The entry is held up by this position, or by none.
pub fn hold(watch: &mut Watch, by: Option<Pos>)
    ensures { watch.new ≡ record watch.old { by = by } }
{
    watch.by = by;
}

/// Leaves what is left to look at after a search from `low` on, which follows the mark or begins later. It found this
/// position, or none, and then it looked at all up to `last`, or not.
pub fn narrow(marks: &mut Marks, follows: bool, found: &Option<Pos>, all: bool)
    ensures { marks.new ≡ narrowed follows found.now all marks.old }
{
    if !follows {
        return;
    }
    if let Some(p) = found {
        marks.low = *p;
        return;
    }
    if all {
        marks.low = Pos(u32::MAX);
        marks.last = Pos(0);
    }
}

/// All from `fresh` up to this position were looked at, if the search follows the mark.
pub fn refresh(marks: &mut Marks, follows: bool, reached: Pos)
    ensures { marks.new ≡ record marks.old { fresh = cond follows reached marks.old.fresh } }
{
    if follows {
        marks.fresh = reached;
    }
}

impl Marks {
    /// All from the position on have to be looked at again, and it need not be applied.
    pub fn lowered(self, p: Pos) -> Marks
        ensures { result ≡ record self { fresh = min self.fresh p; whole = min self.whole p } }
    {
        Marks {
            fresh: earlier_of(self.fresh, p),
            low: self.low,
            last: self.last,
            whole: earlier_of(self.whole, p),
        }
    }

    /// The entry at the position waits no longer, so what begins there to be looked at begins after it.
    pub fn past(self, p: Pos) -> Marks
        ensures { result ≡ past p self }
    {
        Marks {
            fresh: passed(self.fresh, p),
            low: passed(self.low, p),
            last: self.last,
            whole: self.whole,
        }
    }

    /// All that a position was found to hold up has to be looked at again.
    pub fn waking(self, watch: Watch) -> Marks
        ensures { result ≡ waking watch self }
    {
        Marks {
            fresh: self.fresh,
            low: earlier_of(self.low, watch.from),
            last: later_of(self.last, watch.to),
            whole: self.whole,
        }
    }
}

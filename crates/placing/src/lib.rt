//! The placing rule of document 01, over any table: a place by value, and the step to the next segment.

#![tactic(auto)]

ghost use Rattle.std.specs.Prelude.{◌≡◌, ℕ, ◌-◌};
ghost use Rattle.laws.specs.Lists.{between};
ghost use Rattle.placing.specs.Table.{entry_of, after_of, end_of, level_of};
ghost use Rattle.placing.specs.Place.{count_at, kept_of, reached_of, start_place};
ghost use Rattle.placing.specs.Rule.{in_group, fits, again, first_of, step_of, may_end, group_of};
ghost use Rattle.placing.specs.Answer.{stepped_answer, place_answer};
ghost use Rattle.placing.specs.Reading.{read_group, turn_of};

use messages::UIT;
use std::ops::ControlFlow;

/// The row reached, and how often each open level has been entered: the place itself at its own level,
/// each group that it stands in at that group's level. Deeper levels have 0.
// Five fields and no array: the laws speak of every place, and a list of counts would need its length in each of them.
#[derive(Clone, Copy)]
pub struct Place {
    pub row: usize,
    pub c0: u32,
    pub c1: u32,
    pub c2: u32,
    pub c3: u32,
    pub c4: u32,
}

/// Where a tag fits in one place: the row, and the depth that is left below it.
#[derive(Clone, Copy, PartialEq, Eq, Debug)]
pub struct Fit {
    pub row: usize,
    pub depth: usize,
}

/// The column of a row's position in document 000.
pub const POSITION: usize = 0;

/// The column of its tag, 0 for a group.
pub const TAG: usize = 1;

/// The column of its status: 1 where it is mandatory.
pub const MANDATORY: usize = 2;

/// The column of the greatest number.
pub const NUMBER: usize = 3;

/// The column of its group.
pub const GROUP: usize = 4;

/// The column of its level.
pub const LEVEL: usize = 5;

/// The column of how many rows a group holds.
pub const HELD: usize = 6;

/// The column of the row of the group that it stands in.
pub const OUTER: usize = 7;

/// The rows from one index up to and without another, as far as there are so many.
pub fn rows_between<R>(rows: &[R], from: usize, to: usize) -> &[R]
    ensures { result.now ≡ between rows.now from to }
{
    let rest = &rows[from.min(rows.len())..];
    &rest[..to.saturating_sub(from).min(rest.len())]
}

/// The number in a row's column, 0 past the last row.
pub fn entry(table: &[[u32; 8]], row: usize, column: usize) -> u32
    ensures { result ≡ entry_of table.now row column }
{
    let Some(columns) = table.get(row) else {
        return 0;
    };
    columns.get(column).copied().unwrap_or(0)
}

// The row of the next place of the same group.
fn after(table: &[[u32; 8]], row: usize) -> usize
    ensures { result ≡ after_of table.now row }
{
    let rows = table.len();
    if rows <= row {
        return rows;
    }
    (row + 1 + entry(table, row, HELD) as usize).min(rows)
}

// The row past the group in which a row of that level stands.
fn end(table: &[[u32; 8]], row: usize, level: usize) -> usize
    ensures { result ≡ end_of table.now level row }
{
    if level == 0 {
        return table.len();
    }
    after(table, entry(table, row, OUTER) as usize)
}

// The level of a row, 4 at the deepest.
fn level_of(table: &[[u32; 8]], row: usize) -> usize
    ensures { result ≡ level_of table.now row }
{
    entry(table, row, LEVEL).min(4) as usize
}

// Reading a group's places from one row up to another: the first that fits, nothing at a mandatory one; past them the reading goes on.
#[cycle(at_group_in_group)]
fn in_group(
    table: &[[u32; 8]],
    from: usize,
    end: usize,
    tag: u32,
    depth: usize,
) -> ControlFlow<Option<Fit>, ()>
    ensures { result ≡ read_group depth table.now tag from end }
{
    if depth == 0 {
        return ControlFlow::Break(None);
    }
    let mut row = from;
    // The row moves past all that a place holds, not by one.
    while row < end {
        if table.len() <= row {
            return ControlFlow::Continue(());
        }
        let fit = at_place(table, row, tag, depth - 1);
        if fit.is_some() {
            return ControlFlow::Break(fit);
        }
        if entry(table, row, MANDATORY) != 0 {
            return ControlFlow::Break(None);
        }
        row = after(table, row);
    }
    ControlFlow::Continue(())
}

// Reading one place that is a group: it fits where one of its places does.
#[cycle(at_group_in_group)]
fn at_group(table: &[[u32; 8]], row: usize, tag: u32, depth: usize) -> Option<Fit>
    ensures { result ≡ in_group depth table.now tag row }
{
    let end = after(table, row);
    if row < end {
        if let ControlFlow::Break(fit) = in_group(table, row + 1, end, tag, depth) {
            return fit;
        }
    }
    None
}

// One place: a segment fits its own tag.
#[cycle(at_group_in_group)]
fn at_place(table: &[[u32; 8]], row: usize, tag: u32, depth: usize) -> Option<Fit>
    ensures { result ≡ fits depth table.now tag row }
{
    let own = entry(table, row, TAG);
    if own == 0 {
        return at_group(table, row, tag, depth);
    }
    if own == tag {
        Some(Fit { row, depth })
    } else {
        None
    }
}

// How deep groups may still be opened below a level.
fn depth_below(level: usize) -> usize
    ensures { result ≡ 4 - level }
{
    4usize.saturating_sub(level)
}

// The count of level k where the place at a level is entered for the n-th time, and in it the first place of each level down to the last.
fn kept(own: u32, k: usize, level: usize, n: u32, last: usize) -> u32
    ensures { result ≡ kept_of own k level n last }
{
    if k < level {
        return own;
    }
    if k == level {
        return n;
    }
    if k <= last { 1 } else { 0 }
}

impl Place {
    /// The place reached with a message's UIH.
    pub fn start() -> Place
        ensures { result ≡ start_place }
    {
        Place {
            row: 0,
            c0: 1,
            c1: 0,
            c2: 0,
            c3: 0,
            c4: 0,
        }
    }

    /// The group of the segment placed, 0 for none.
    pub fn group(self, table: &[[u32; 8]]) -> u32
        ensures { result ≡ group_of table.now self }
    {
        let row = self.row;
        entry(table, row, GROUP)
    }

    // How often the place of a level has been entered.
    fn count(self, level: usize) -> u32
        ensures { result ≡ count_at self level }
    {
        match level {
            0 => self.c0,
            1 => self.c1,
            2 => self.c2,
            3 => self.c3,
            4 => self.c4,
            _ => 0,
        }
    }

    /// The place in a row: that of a level entered for the n-th time, the levels below it anew.
    pub fn reached(self, level: usize, n: u32, row: usize, last: usize) -> Place
        ensures { result ≡ reached_of self level n row last }
    {
        Place {
            row,
            c0: kept(self.c0, 0, level, n, last),
            c1: kept(self.c1, 1, level, n, last),
            c2: kept(self.c2, 2, level, n, last),
            c3: kept(self.c3, 3, level, n, last),
            c4: kept(self.c4, 4, level, n, last),
        }
    }

    // The place of a fit, that of a level entered for the n-th time.
    fn placed(self, level: usize, n: u32, fit: Fit) -> Place
        ensures { result ≡ reached_of self level n fit.row (4 - fit.depth) }
    {
        self.reached(level, n, fit.row, depth_below(fit.depth))
    }

    // The same place again, or the group once more, while its number allows.
    fn once_more(self, table: &[[u32; 8]], row: usize, level: usize, tag: u32) -> Option<Place>
        ensures { result ≡ first_of table.now self tag (again table.now self level row) }
    {
        let n = self.count(level);
        if n < entry(table, row, NUMBER) {
            let fit = at_place(table, row, tag, depth_below(level))?;
            return Some(self.placed(level, n + 1, fit));
        }
        None
    }

    // One level: the same place again, then the later places of the same group. Past them the level above is asked.
    fn turn(
        self,
        table: &[[u32; 8]],
        row: usize,
        level: usize,
        tag: u32,
    ) -> ControlFlow<Option<Place>, ()>
        ensures { result ≡ turn_of table.now self tag level row }
    {
        let again = self.once_more(table, row, level, tag);
        if again.is_some() {
            return ControlFlow::Break(again);
        }
        let next = after(table, row);
        let last = end(table, row, level);
        match in_group(table, next, last, tag, depth_below(level) + 1) {
            ControlFlow::Break(Some(fit)) => ControlFlow::Break(Some(self.placed(level, 1, fit))),
            ControlFlow::Break(None) => ControlFlow::Break(None),
            ControlFlow::Continue(()) => ControlFlow::Continue(()),
        }
    }

    /// The place of the next segment, by its tag; none where it is out of place, document 01's number 9.
    pub fn step(self, table: &[[u32; 8]], tag: u32) -> Option<Place>
        ensures step { result ≡ step_of table.now self tag }
        ensures said { (at : ℕ) → stepped_answer at result ≡ place_answer at table.now self tag }
    {
        let mut row = self.row;
        let mut level = level_of(table, row);
        // The row goes up with the level, and level 0 is asked too.
        loop {
            if let ControlFlow::Break(stepped) = self.turn(table, row, level, tag) {
                return stepped;
            }
            if level == 0 {
                return None;
            }
            row = entry(table, row, OUTER) as usize;
            level -= 1;
        }
    }

    /// Whether the message may end here: its UIT fits.
    pub fn may_end(self, table: &[[u32; 8]]) -> bool
        ensures { result ≡ may_end table.now self }
    {
        self.step(table, UIT).is_some()
    }
}

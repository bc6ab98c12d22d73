//! Tests of what watchers that are handed in say of the records, and of what remains of them where a write fails.
ghost use Rattle.std.specs.Prelude.{[]};

use crate::emitted::wide_of;
use crate::spheres::CIRCLE;
use crate::support::{AROUND_SIGNS, Case, Faults, HEAD, Kind, NO_FAULTS, boxes, is_answered};
use crate::verdicts::wide_of_rows;
use ln_base::NoMemory;
use ln_code::Verdict;
use ln_top::Status;
use ln_trial_programs::sample::ORIENT;
use ln_watch::{Keep, Line, Watch};
use std::alloc::Global;
use std::cell::Cell;
use std::rc::Rc;
use std::test::Fail;

// Along a line, to the left, upright.
const THREE: &str =
    "p,p.x,p.y,q,q.x,q.y,r,r.x,r.y\n1,0,0,2,1,1,3,2,2\n1,0,0,2,1,0,3,0,1\n1,0,0,2,0,1,3,0,2\n";

// An invalid record, then one along a line.
const REFUSED: &str = "p,p.x,p.y,q,q.x,q.y,r,r.x,r.y\n1,0,0,2,1\n1,0,0,2,1,1,3,2,2\n";

// A record with one index twice, then the three.
const FOUR: &str =
    "p,p.x,p.y,q,q.x,q.y,r,r.x,r.y\n1,0,0,1,1,1,3,2,2\n1,0,0,2,1,1,3,2,2\n1,0,0,2,1,0,3,0,1\n1,0,0,2,0,1,3,0,2\n";

// Corners of a square; then a point within a wide circle.
const CORNERS: &str = "a,a.x,a.y,b,b.x,b.y,c,c.x,c.y,d,d.x,d.y
1,0,0,2,1,0,3,1,1,4,0,1
1,0,0,2,1048576,0,3,0,1048576,4,5,5
";

const SQUARES: &str = "site num { t: -10 .. 10; }
predicate s(a: num, b: num) { sign a.t^2 - b.t^2; }
predicate d(a: num, b: num) { sign a.t - b.t; }
";

const RUN: &str = "run s.ln orient r.csv";

const PRODUCT: &str = "product s.ln s d r.csv";

/// Of these watchers two leave with their lines when they are done.
pub const LEFT: Case<'static> = (
    RUN,
    ORIENT,
    THREE,
    Status::Done,
    "+ 1\n+ F\n- 2\n",
    "first 1\nfirst 1 3\nsigns + 2 0 0 - 1\n",
);

// Words over a source and rows, how they end, and what is on Out and on Err, with two watchers of the first perturbed rows, and one of the signs
// between them.
const WATCHED: &[Case<'static>] = &[
    LEFT,
    // Refused records are counted, and watchers close.
    (
        RUN,
        ORIENT,
        REFUSED,
        Status::Rows,
        "! fields\n+ 1\n",
        "first 2\nsigns + 1 0 0 - 0\nfirst 2\n",
    ),
    (
        RUN,
        ORIENT,
        FOUR,
        Status::Rows,
        "! index q\n+ 1\n+ F\n- 2\n",
        "first 2\nfirst 2 4\nsigns + 2 0 0 - 1\n",
    ),
    // A record that is cut short, and none.
    (
        RUN,
        ORIENT,
        "p,p.x,p.y,q,q.x,q.y,r,r.x,r.y\n1,0,0,2,1",
        Status::Rows,
        "! fields\n",
        "first\nsigns + 0 0 0 - 0\nfirst\n",
    ),
    (
        RUN,
        ORIENT,
        HEAD,
        Status::Done,
        "",
        "first\nsigns + 0 0 0 - 0\nfirst\n",
    ),
    // A wrong header drops them, and so does `product`.
    (
        RUN,
        ORIENT,
        "p,p.x\n1,0\n",
        Status::Rows,
        "",
        "error header\n",
    ),
    (
        PRODUCT,
        SQUARES,
        "a,a.t,b,b.t\n1,3,2,3\n",
        Status::Done,
        "+ 1,1\n",
        "",
    ),
];

const BETWEEN: Case<'static> = (
    RUN,
    ORIENT,
    THREE,
    Status::Done,
    "+ 1\n+ F\n- 2\n",
    "first 1\nsigns + 2 0 0 - 1\ndeciders filter 1 plain 0 stages 2 none 0 deepest 2\n",
);

const FAILED: Case<'static> = (RUN, ORIENT, THREE, Status::Write, "", "");

const FIRST_PUT: Faults<'static> = Faults {
    reads: &[],
    puts: &[1],
    room: 4096,
};

fn are_watched(alloc: Global) -> Result<bool, NoMemory> {
    for case in WATCHED {
        if !is_answered(alloc, case, NO_FAULTS, boxes(alloc, AROUND_SIGNS)?)? {
            return Ok(false);
        }
    }
    // A watcher of the first perturbed row leaves between two that see all rows.
    let between = boxes(alloc, &[Kind::Signs, Kind::First, Kind::Deciders])?;
    // The first write is of the line of the first watcher; the lines of records are written after it.
    Ok(
        is_answered(alloc, &BETWEEN, NO_FAULTS, between)?
            && is_answered(alloc, &FAILED, FIRST_PUT, boxes(alloc, AROUND_SIGNS)?)?,
    )
}

#[test]
fn watchers_leave_stay_and_are_dropped(rt: HostRuntime) -> Result<(), Fail> {
    assert!(rt; are_watched(rt.alloc())?);
    Ok(())
}

// A watcher of the caller's own: it adds up the wide operations in a cell that the caller holds too.
#[derive(Drop)]
struct WideWatch {
    sum: Rc<Cell<u64>>,
}

impl Watch for WideWatch {
    ghost kind_of = { λ _. 9 };

    ghost tally_of = { λ _. [] };

    fn kind(&self) -> u32 {
        9
    }

    fn see(&mut self, _row: u64, v: &Verdict) -> Keep {
        self.sum.set(self.sum.get().wrapping_add(u64::from(v.wide)));
        Keep::Stay
    }

    fn line(&self, buf: &mut Line) {
        buf.clear();
    }
}

const CORNERS_SAID: Case<'static> = (
    "run s.ln incircle r.csv",
    CIRCLE,
    CORNERS,
    Status::Done,
    "- 1\n+ F\n",
    "\n",
);

// The same rows, one by one.
const EACH_CORNERS: &[&str] = &[
    "1,0,0,2,1,0,3,1,1,4,0,1\n",
    "1,0,0,2,1048576,0,3,0,1048576,4,5,5\n",
];

// The same rows, and what the calls of the C return on them.
const CORNERS_CALLED: &[(&[i64], &[i64], i32, u32)] = &[
    (&[1, 2, 3, 4], &[0, 0, 1, 0, 1, 1, 0, 1], -1, 3),
    (&[1, 2, 3, 4], &[0, 0, 1048576, 0, 0, 1048576, 5, 5], 1, 1),
];

// The wide operations that a watcher saw; none where the lines aren't those that are required.
fn wide_seen(alloc: Global) -> Result<Option<u64>, NoMemory> {
    let sum = Rc::new(alloc, Cell::new(0u64))?;
    let mut boxes: Vec<Box<dyn Watch>> = Vec::new(alloc);
    boxes.push(Box::new(alloc, WideWatch { sum: sum.clone()? })?)?;
    if is_answered(alloc, &CORNERS_SAID, NO_FAULTS, boxes)? {
        Ok(Some(sum.get()))
    } else {
        Ok(None)
    }
}

#[test]
fn a_watcher_of_the_callers_own_adds_up_wide_operations(rt: HostRuntime) -> Result<(), Fail> {
    let alloc = rt.alloc();
    let wide = wide_of_rows(alloc, CIRCLE, EACH_CORNERS)?;
    assert!(rt; wide.is_some_and(|n| n > 0) && wide_seen(alloc)? == wide);
    assert!(rt; wide_of(alloc, CIRCLE, "ln_incircle", CORNERS_CALLED)? == wide);
    Ok(())
}

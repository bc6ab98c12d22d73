//! Watchers that leave, that stay and that are cut off, over streams in memory.
use crate::support::{Kind, boxes};
use ln_base::{MemConsole, NoMemory, Port, Sign};
use ln_code::{By, Verdict};
use ln_top::signs::panel::Panel;
use ln_watch::{DeciderWatch, FirstWatch, Keep, Line, SignWatch, Watch};
use std::alloc::Global;
use std::cell::Cell;
use std::rc::Rc;
use std::test::Fail;

// A watcher of the first perturbed row that holds something of the caller's.
#[derive(Drop)]
struct HoldingWatch {
    first: FirstWatch,
    _held: Rc<Cell<u64>>,
}

impl Watch for HoldingWatch {
    ghost kind_of = { λ _. 3 };

    ghost tally_of = { λ w. w.first };

    fn kind(&self) -> u32 {
        3
    }

    fn see(&mut self, row: u64, v: &Verdict) -> Keep {
        self.first.see(row, v)
    }

    fn line(&self, buf: &mut Line) {
        self.first.line(buf);
    }
}

// Shows a verdict, and returns whether all was written.
fn is_shown(panel: &mut Panel, con: &mut MemConsole, row: u64, sign: Sign, by: By) -> bool {
    let v = Verdict {
        sign,
        by,
        wide: 3,
        calls: 1,
    };
    panel.show(row, &v, con, Port::Out).is_ok()
}

// Writes the last lines, and returns whether all was written.
fn is_closed(panel: Panel, con: &mut MemConsole, port: Port) -> bool {
    panel.close(con, port).is_ok()
}

// A watcher that holds this between one of signs and one of deciders.
fn around(alloc: Global, held: &Rc<Cell<u64>>) -> Result<Vec<Box<dyn Watch>>, NoMemory> {
    let holding = HoldingWatch {
        first: FirstWatch::new(1),
        _held: held.clone()?,
    };
    let mut boxes: Vec<Box<dyn Watch>> = Vec::new(alloc);
    boxes.push(Box::new(alloc, SignWatch::new())?)?;
    boxes.push(Box::new(alloc, holding)?)?;
    boxes.push(Box::new(alloc, DeciderWatch::new())?)?;
    Ok(boxes)
}

// Is the watcher between the others dropped at once with its line, and do the others see two verdicts?
fn leaves(alloc: Global) -> Result<bool, NoMemory> {
    let mut con = MemConsole::new(alloc, 400, 100, Vec::new(alloc))?;
    let held = Rc::new(alloc, Cell::new(0u64))?;
    let mut panel = Panel::new(around(alloc, &held)?);
    let holds = Rc::strong_count(&held) == 2;
    let first = is_shown(&mut panel, &mut con, 7, Sign::Plus, By::Stage(4));
    let leaves = Rc::strong_count(&held) == 1 && con.bytes(Port::Out) == b"first 7\n".as_slice();
    let second = is_shown(&mut panel, &mut con, 8, Sign::Minus, By::Stage(0));
    let stays = con.bytes(Port::Out) == b"first 7\n".as_slice();
    let closed = is_closed(panel, &mut con, Port::Out);
    let lines =
        b"first 7\nsigns + 1 0 0 - 1\ndeciders filter 0 plain 1 stages 1 none 0 deepest 4\n";
    let put = con.bytes(Port::Out) == lines.as_slice() && con.bytes(Port::Err).is_empty();
    Ok(holds && first && leaves && second && stays && closed && put)
}

#[test]
fn a_box_leaves_between_two_that_stay(rt: HostRuntime) -> Result<(), Fail> {
    assert!(rt; leaves(rt.alloc())?);
    Ok(())
}

// Three watchers of the first perturbed rows, and two of signs.
const FIVE: &[Kind] = &[
    Kind::First,
    Kind::FirstTwo,
    Kind::First,
    Kind::Signs,
    Kind::Signs,
];

// Does the write of the first line that comes third fail, and that of the last line, and are those before them there?
fn are_cut(alloc: Global) -> Result<bool, NoMemory> {
    let mut con = MemConsole::new(alloc, 400, 100, Vec::from_slice(alloc, &[3, 8])?)?;
    let mut panel = Panel::new(boxes(alloc, FIVE)?);
    let first = is_shown(&mut panel, &mut con, 5, Sign::Plus, By::Stage(1));
    let left = panel.watchers.len();
    let second = is_shown(&mut panel, &mut con, 6, Sign::Plus, By::Filter);
    let closed = is_closed(panel, &mut con, Port::Err);
    let out = con.bytes(Port::Out) == b"first 5\n".as_slice();
    let err = con.bytes(Port::Err) == b"first 5\nsigns + 1 0 0 - 0\n".as_slice();
    Ok(!first && left == 3 && second && !closed && out && err)
}

#[test]
fn later_boxes_see_nothing_behind_a_put_that_fails(rt: HostRuntime) -> Result<(), Fail> {
    assert!(rt; are_cut(rt.alloc())?);
    Ok(())
}

//! Watchers that see the records.
ghost use Rattle.std.specs.Prelude.{◌≡◌, [], true, ◌<◌, ◌+◌, ◌^◌};
ghost use Rattle.ln_top.specs.Frame.Lines.{WroteBoth, WroteOn};
ghost use Rattle.ln_top.specs.Frame.Said.{OnConsole};
ghost use Rattle.ln_top.specs.Signs.Watching.{next, next_lines, watching};
ghost use Rattle.ln_watch.specs.Panel.{left_after, lines_at, states_of};

use crate::signs::panel::Panel;
use ln_base::{Console, Port};
use ln_code::Verdict;
use ln_watch::Watch;
use std::alloc::Global;

/// Returns no watcher.
pub(crate) fn no_watchers(alloc: Global) -> Vec<Box<dyn Watch>>
    ensures { states_of kind_of tally_of result.items ≡ [] }
{
    Vec::new(alloc)
}

/// A panel, and how many records have come.
#[derive(Drop)]
pub(crate) struct Viewers {
    pub seen: u64,
    pub panel: Panel,
}

/// Shows a verdict to the watchers, and returns whether all that was to be written was written.
pub(crate) fn show<C: Console>(
    con: &mut C,
    port: Port,
    panel: &mut Panel,
    row: u64,
    v: &Verdict,
) -> bool
    ensures wrote { OnConsole C.faults C.shown con.old result con.new
        (WroteOn port (lines_at row v.now (states_of kind_of tally_of panel.old.watchers.items))) }
    ensures left { result ≡ true → states_of kind_of tally_of panel.new.watchers.items
        ≡ left_after row v.now (states_of kind_of tally_of panel.old.watchers.items) }
{
    match panel.show(row, v, con, port) {
        Ok(()) => true,
        Err(_) => false,
    }
}

/// Shows the verdict on the next record, if it has one, to the watchers, and returns whether all that was to be written to Err was written.
pub(crate) fn view<C: Console>(con: &mut C, viewers: &mut Viewers, shown: Option<Verdict>) -> bool
    requires { viewers.old.seen + 1 < 2 ^ 32 }
    ensures wrote { OnConsole C.faults C.shown con.old result con.new (WroteBoth []
        (next_lines shown (watching viewers.old.seen (states_of kind_of tally_of viewers.old.panel.watchers.items)))) }
    ensures left { result ≡ true → watching viewers.new.seen (states_of kind_of tally_of viewers.new.panel.watchers.items)
        ≡ next shown (watching viewers.old.seen (states_of kind_of tally_of viewers.old.panel.watchers.items)) }
    ensures seen { viewers.new.seen ≡ viewers.old.seen + 1 }
{
    viewers.seen += 1;
    match shown {
        Some(v) => show(con, Port::Err, &mut viewers.panel, viewers.seen, &v),
        None => true,
    }
}

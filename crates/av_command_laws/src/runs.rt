//! The runs of `maps`.

ghost use Rattle.std.specs.Prelude.{◌≡◌, List};
ghost use Rattle.av_trace.specs.declared.row.Row.{Row};
ghost use Rattle.av_plain.specs.Report.{AreMaps};
ghost use Rattle.av_plain.specs.World.{Process};

/// The longest runs of the same pages are the same, and so are their rows.
pub fn the_runs_are_one()
    ensures { (q : Process) (rows others : List Row) → AreMaps q rows → AreMaps q others
        → rows ≡ others }
{}

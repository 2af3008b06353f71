// The areas of a plan, and single places of its sheets.
ghost use Rattle.std.specs.Prelude.{◌≡◌, map};
ghost use Rattle.piece_rates.specs.Sheets.{sheet_of};
ghost use Rattle.climbing.specs.Lines.{cells};
ghost use Rattle.quoting.specs.Areas.{is_into};
ghost use Rattle.quoting.specs.Places.{cell_at};

use crate::lines::Direction;
use holders::Records;
use rates::kind::Rate;
use sheets::{ROW, SHEET, rate_at};

// The number of terminals, and the areas that a plan's records, lanes and sheets stand in. That a plan is in order is a premise of
// promises and no invariant: areas of any content are read safely.
#[derive(Clone, Copy)]
pub struct Areas<'a, R> {
    pub n: usize,
    pub records: Records<'a>,
    pub lanes: &'a [R],
    pub sheets: &'a [R],
}

impl<R: Rate> Areas<'_, R> {
    // The rate in the sheet of the piece p at the row i and the column j; none past the end of the sheet.
    fn sheet_rate(self, p: u16, i: usize, j: usize) -> R
        ensures { R.means result ≡ cells R.kind (sheet_of R.kind (map R.means self.entry.sheets.now) p) i j }
    {
        if i >= ROW || j >= SHEET - ROW * i {
            return R::none();
        }
        rate_at(self.sheets, SHEET * p as usize + ROW * i + j)
    }

    // The rate in the sheet of the piece p from its edge terminal i to its edge terminal j, or from j into i.
    pub(crate) fn cell(self, p: u16, direction: Direction, i: usize, j: usize) -> R
        ensures { R.means result ≡ cell_at R.kind (map R.means self.entry.sheets.now) p (is_into direction) i j }
    {
        match direction {
            Direction::From => self.sheet_rate(p, i, j),
            Direction::Into => self.sheet_rate(p, j, i),
        }
    }
}

// The advance divided: whole parts, and what each division leaves.
ghost use Rattle.fill.specs.Sharing.{weight_in, MayDivide, Divided};

use crate::missing::weight;
use store::column::Column;

// A period's part of the advance: whole Wh, and what the division leaves.
#[derive(Clone, Copy)]
pub struct Part {
    pub whole: u64,
    pub remainder: u64,
}

// `sum` is that of the missing periods' values. A part is written for each period; the answer is the Wh left over.
pub fn divide(
    cells: &[u64],
    column: Column,
    date: u64,
    missing: &[u8],
    sum: u64,
    advance: u64,
    parts: &mut [Part],
) -> u64
    requires { MayDivide cells.now column date missing.now sum advance parts.old }
    ensures { Divided column.periods (weight_in column cells.now date missing.now) advance parts.new result }
{
    let mut left = advance;
    for (k, part) in parts.iter_mut().enumerate() {
        let product = advance * weight(cells, column, date, k as u64, missing[k]);
        let whole = product / sum;
        *part = Part {
            whole,
            remainder: product % sum,
        };
        left -= whole;
    }
    left
}

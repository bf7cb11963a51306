// How many pixels a length stands for: a pixel of a slanted line is longer than one of a row.
ghost use Rattle.std.specs.Prelude.{◌≡◌, ℕ, suc, ◌+◌, ◌≤◌};
ghost use lib.ListN;
ghost use Rattle.lists.specs.Tables.{table};
ghost use Rattle.answer.specs.Limits.{longest, widest, steepest};
ghost use Rattle.frame.specs.Length.{square, reaches, count_for};

fn square(n: usize) -> usize
    requires { n ≤ widest }
    ensures { result ≡ square n }
{
    n * n
}

// A direction without its signs: how many columns it goes for how many rows.
#[derive(Clone, Copy)]
pub(crate) struct Steps {
    pub columns: usize,
    pub rows: usize,
    ghost few_columns: { columns ≤ steepest },
    ghost few_rows: { rows ≤ steepest },
}

impl Steps {
    // Whether `count` pixels of such a direction are at least as long as `length` pixels along a row.
    fn is_long(self, length: usize, count: usize) -> bool
        requires { (1 ≤ length) × (length ≤ longest + 1) × (1 ≤ count) × (count ≤ length) }
        ensures { result ≡ reaches self.columns self.rows length count }
    {
        square(length - 1) * square(self.columns.max(self.rows))
            <= square(count - 1) * (square(self.columns) + square(self.rows))
    }

    // The smallest count that is long enough: `high` is, `low` is not, and each step halves what lies between them.
    // A `while`, since the library's search by halves, `partition_point`, goes over a slice, and no slice holds these counts.
    pub(crate) fn count_for(self, length: usize) -> usize
        requires { (1 ≤ length) × (length ≤ longest + 1) }
        ensures { result ≡ count_for self.columns self.rows length }
    {
        let mut low = 0;
        let mut high = length;
        while low + 1 < high {
            let middle = (low + high) / 2;
            if self.is_long(length, middle) {
                high = middle;
            } else {
                low = middle;
            }
        }
        high
    }

    // The count of the next length: the same, or one more.
    fn next_count(self, length: usize, count: usize) -> usize
        requires { (length ≤ longest) × (count ≡ count_for self.columns self.rows length) }
        ensures { result ≡ count_for self.columns self.rows (suc length) }
    {
        if self.is_long(length + 1, count) {
            count
        } else {
            count + 1
        }
    }

    // The counts of the lengths from 1 up.
    pub(crate) fn count_each(self, counts: &mut [u16])
        requires { lib.ListN.length counts.old ≤ longest + 1 }
        ensures { counts.new ≡ table (λ (i : ℕ). count_for self.columns self.rows (suc i)) (lib.ListN.length counts.old) }
    {
        let mut count = 1;
        for (i, entry) in counts.iter_mut().enumerate() {
            count = self.next_count(i, count);
            *entry = count as u16;
        }
    }
}

//! Numbers written in decimal into a lent buffer.

ghost use Rattle.std.specs.Prelude.{◌≡◌, ◌≤◌, length};
ghost use Rattle.text.specs.Decimal.{decimal, figures_text, row_text};
ghost use Rattle.text.specs.Buffer.{Wrote};

/// TEXT-1: how many digits n has.
#[tactic(auto, using(crate::proofs::DigitLaws::length_from_log))]
fn digit_count(n: u64) -> usize
    ensures { result ≡ length (decimal n) }
{
    n.checked_ilog10().unwrap_or(0) as usize + 1
}

/// TEXT-1: writes a number to the start of a buffer that has room for it; answers how many bytes it wrote.
/// Its digits come from the last to the first, as the divisions leave them: `los` takes 2 % longer with a
/// `for` over the places.
#[tactic(auto, using(crate::proofs::RowLaws::filling))]
pub fn put_number(n: u64, out: &mut [u8]) -> usize
    requires { length (decimal n) ≤ length out.old }
    ensures { Wrote (decimal n) out.old out.new result }
{
    let count = digit_count(n);
    let mut rest = n;
    let mut place = count;
    while rest > 9 {
        place -= 1;
        out[place] = b'0' + (rest % 10) as u8;
        rest /= 10;
    }
    out[0] = b'0' + rest as u8;
    count
}

/// TEXT-2: writes each number of a slice after a tab to the start of a buffer that has room for them; answers
/// how many bytes it wrote.
#[tactic(auto, using(crate::proofs::RowLaws::pieces))]
pub fn put_figures(figures: &[u64], out: &mut [u8]) -> usize
    requires { length (figures_text figures.now) ≤ length out.old }
    ensures { Wrote (figures_text figures.now) out.old out.new result }
{
    let mut count = 0;
    for figure in figures {
        out[count] = b'\t';
        count += 1;
        count += put_number(*figure, &mut out[count..]);
    }
    count
}

/// TEXT-2, TEXT-3: writes a byte, each number after a tab, and a newline to the start of a buffer that has
/// room for them; answers how many bytes it wrote.
#[tactic(auto, using(crate::proofs::RowLaws::pieces))]
pub fn put_row(first: u8, figures: &[u64], out: &mut [u8]) -> usize
    requires { length (row_text first figures.now) ≤ length out.old }
    ensures { Wrote (row_text first figures.now) out.old out.new result }
{
    out[0] = first;
    let count = 1 + put_figures(figures, &mut out[1..]);
    out[count] = b'\n';
    count + 1
}

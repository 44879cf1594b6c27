//! The fields of a line, read in turn.

ghost use Rattle.std.specs.Prelude.{◌≡◌, ◌==◌, ◌≤◌, ◌||◌, not, ℕ, List, length, option_map};
ghost use Rattle.text.specs.Bytes.{bytes_of};
ghost use Rattle.lines.specs.Fields.{digits, letters, leading_zero};
ghost use Rattle.lines.specs.Reading.{kind_byte, way_byte, median_byte, terrain_byte};
ghost use Rattle.lines.specs.ReadSoFar.{left, letter_among, ReadsOne};

use curve::kind::Kind;
use road::{Median, Terrain, Way};

/// LINE-2: the most digits of a number.
const MOST_DIGITS: usize = 5;

/// LINE-2: the most digits of the demand.
const MOST_DEMAND_DIGITS: usize = 6;

/// LINE-2: whether digits are a number: there is one at least, and no zero before another.
fn is_number(digits: &[u8]) -> bool
    ensures { result ≡ not (length digits.now == 0 || leading_zero digits.now) }
{
    match digits {
        [] | [b'0', _, ..] => false,
        _ => true,
    }
}

/// LINE-3: a type whose values stand on a line as one letter each, out of an alphabet.
pub(crate) trait Lettered: Sized {
    ghost alphabet: { List ℕ };

    ghost byte: { Self → ℕ };

    fn of_byte(b: u8) -> Option<Self>
        ensures { option_map byte result ≡ letter_among alphabet b };
}

impl Lettered for Kind {
    ghost alphabet = { bytes_of "FM" };

    ghost byte = { kind_byte };

    fn of_byte(b: u8) -> Option<Kind> {
        match b {
            b'F' => Some(Kind::Freeway),
            b'M' => Some(Kind::Multilane),
            _ => None,
        }
    }
}

impl Lettered for Way {
    ghost alphabet = { bytes_of "EG" };

    ghost byte = { way_byte };

    fn of_byte(b: u8) -> Option<Way> {
        match b {
            b'E' => Some(Way::Estimated),
            b'G' => Some(Way::Given),
            _ => None,
        }
    }
}

impl Lettered for Median {
    ghost alphabet = { bytes_of "UDT" };

    ghost byte = { median_byte };

    fn of_byte(b: u8) -> Option<Median> {
        match b {
            b'U' => Some(Median::Undivided),
            b'D' => Some(Median::Divided),
            b'T' => Some(Median::TwoWayLeftTurnLane),
            _ => None,
        }
    }
}

impl Lettered for Terrain {
    ghost alphabet = { bytes_of "LR" };

    ghost byte = { terrain_byte };

    fn of_byte(b: u8) -> Option<Terrain> {
        match b {
            b'L' => Some(Terrain::Level),
            b'R' => Some(Terrain::Rolling),
            _ => None,
        }
    }
}

/// LINE-1: what is left of a line, its fields parted by tabs; none where no field is left. The readers are
/// inlined, so that it stays in registers.
#[derive(Drop)]
pub(crate) struct Fields<'a> {
    pub(crate) rest: Option<&'a [u8]>,
}

impl<'a> Fields<'a> {
    /// LINE-2: the first field that is left, a number of one to so many digits, in one pass over its bytes;
    /// none where it is malformed.
    #[inline(always)]
    fn number_up_to(&mut self, most_digits: usize) -> Option<u64>
        requires fits { most_digits ≤ 19 }
        ensures { ReadsOne (digits most_digits) result (left self.old) (left self.new) }
    {
        let line = self.rest.take()?;
        let mut value = 0;
        let mut length = 0;
        for &b in line {
            if b == b'\t' {
                self.rest = Some(&line[length + 1..]);
                break;
            }
            if !b.is_ascii_digit() || length == most_digits {
                return None;
            }
            value = 10 * value + u64::from(b - b'0');
            length += 1;
        }
        is_number(&line[..length]).then_some(value)
    }

    /// LINE-2: a number of one to five digits.
    #[inline(always)]
    pub(crate) fn number(&mut self) -> Option<u64>
        ensures { ReadsOne (digits 5) result (left self.old) (left self.new) }
    {
        self.number_up_to(MOST_DIGITS)
    }

    /// LINE-2: the demand, a number of one to six digits.
    #[inline(always)]
    pub(crate) fn demand(&mut self) -> Option<u64>
        ensures { ReadsOne (digits 6) result (left self.old) (left self.new) }
    {
        self.number_up_to(MOST_DEMAND_DIGITS)
    }

    /// LINE-3: a letter, as a value of the type that is asked for.
    #[inline(always)]
    pub(crate) fn letter<T: Lettered>(&mut self) -> Option<T>
        ensures { ReadsOne (letters T.alphabet) (option_map T.byte result) (left self.old) (left self.new) }
    {
        match self.rest.take()? {
            [b] if *b != b'\t' => T::of_byte(*b),
            [b, b'\t', rest @ ..] if *b != b'\t' => {
                self.rest = Some(rest);
                T::of_byte(*b)
            }
            _ => None,
        }
    }
}

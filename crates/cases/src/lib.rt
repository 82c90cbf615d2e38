// What the programs over kept cases share: the cases that their arguments name, and how a record's text and a refusal are printed.
#![tactic(auto)]

ghost use Rattle.std.specs.Prelude.{Some};
ghost use Rattle.cases.specs.Answers.{Argument, Contents, Each};
ghost use Rattle.cases.specs.Printed.{refusal_text};

use framing::Refusal;
use std::alloc::Allocator;
use std::io::Read;
use std::rt::Files;
use std::{fmt, fs, io, str};

/// The most bytes that are read of a kept file.
pub const MOST_FILE: u64 = 8192;

// The most bytes of an argument.
const MOST_ARGUMENT: usize = 4096;

// No argument from this one on names a file.
const END: usize = 1000;

/// Text that is printed byte for byte. What is no UTF-8 is refused.
#[derive(Clone, Copy)]
pub struct Text<'a>(pub &'a [u8]);

impl fmt::Display for Text<'_> {
    ghost output = { λ t. Some t.0.now };

    fn fmt<W: fmt::Write>(&self, f: &mut fmt::Formatter<W>) -> fmt::Result {
        match str::from_utf8(self.0) {
            Ok(text) => f.write_str(text),
            Err(_) => Err(fmt::Error),
        }
    }
}

/// A refusal, as its number and its record are printed.
#[derive(Clone, Copy)]
pub struct Refused(pub Refusal);

impl fmt::Display for Refused {
    ghost output = { λ r. Some (refusal_text r.0) };

    fn fmt<W: fmt::Write>(&self, f: &mut fmt::Formatter<W>) -> fmt::Result {
        write!(f, "{} {}", self.0.reason.number(), self.0.record)
    }
}

/// An argument by its number; empty where it is missing or too long.
pub fn argument(args: &[String], k: usize) -> &str
    ensures { Argument args.now k result.now }
{
    match args.get(k) {
        Some(text) if text.len() <= MOST_ARGUMENT => text.as_str(),
        _ => "",
    }
}

/// At most so many bytes of a reader, which is closed.
pub fn contents<A: Allocator, R: Read + Drop>(
    alloc: A,
    reader: R,
    most: u64,
) -> io::Result<Vec<u8, A>>
    ensures { Contents (R.remaining reader) most result }
{
    let mut bytes = Vec::new(alloc);
    reader.take(most).read_to_end(&mut bytes)?;
    Ok(bytes)
}

/// Does the work on each case in turn: on the path of its file, the argument after it, and the open file. Ends before the first that has no file. How many were done.
/// As many arguments as `words` name a case, and at least its path.
pub fn each<R: Eprint + Files, F: FnMut(&str, &str, R::File) -> io::Result<()>>(
    rt: &R,
    args: &[String],
    words: usize,
    mut work: F,
) -> io::Result<usize>
    requires { F.IsAlwaysCallable work }
    ensures { Each args.now words (λ p a b file r q. F.step p a b file r q) work result }
{
    let step = words.max(1);
    let mut done = 0;
    // By number and not in chunks: the last case may have arguments past `END`.
    for k in (1..END).step_by(step) {
        let path = argument(args, k);
        if path.is_empty() {
            break;
        }
        let file = match fs::open(rt, path) {
            Ok(file) => file,
            Err(error) => {
                eprintln!(rt; "{path}: {error}")?;
                break;
            }
        };
        work(path, argument(args, k + 1), file)?;
        done += 1;
    }
    Ok(done)
}

#[cfg(test)]
mod tests {
    use super::*;
    use framing::Reason;
    use std::test::Fail;

    #[test]
    fn contents_are_cut(rt: HostRuntime) -> Result<(), Fail> {
        let all = contents(rt.alloc(), &b"crownhazel"[..], 10)?;
        assert_eq!(rt; all.as_slice(), b"crownhazel".as_slice());
        let some = contents(rt.alloc(), &b"crownhazel"[..], 5)?;
        assert_eq!(rt; some.as_slice(), b"crown".as_slice());
        Ok(())
    }

    #[test]
    fn a_refusal_is_two_numbers(rt: HostRuntime) -> Result<(), Fail> {
        let line = format!(in rt.alloc(); "{}", Refused(Reason::NoSpan.at(3)))?;
        assert_eq!(rt; line.as_str(), "27 3");
        Ok(())
    }

    #[test]
    fn no_case_is_none_done(rt: HostRuntime) -> Result<(), Fail> {
        let done = each(&rt, &[], 2, |_, _, _| Ok(()))?;
        assert_eq!(rt; done, 0);
        Ok(())
    }
}

// What a caller in C gets of `writer`: an archive of its one function, with the answer as a struct of three numbers.
#![tactic(auto)]

ghost use Rattle.std.specs.Prelude.{◌≡◌};
ghost use Rattle.writer.specs.Answers.{paper_write};
ghost use Rattle.writer_c.specs.Answers.{in_paper, WriteStatementInC};

use contents::Head;
use fields::Movement;
use framing::Refusal;

// Number and record of a refusal, both 0 where there is none; then the number of bytes written, 0 with a refusal. Beside `TableAnswer` a struct of its own: the C headers name their fields apart.
#[repr(C)]
#[derive(Clone, Copy)]
pub struct WriteAnswer {
    pub number: u64,
    pub record: u64,
    pub bytes: usize,
}

impl From<Result<usize, Refusal>> for WriteAnswer {
    ghost from_gives = { λ answer r. in_paper r ≡ paper_write answer };

    fn from(answer: Result<usize, Refusal>) -> WriteAnswer {
        match answer {
            Ok(bytes) => WriteAnswer {
                number: 0,
                record: 0,
                bytes,
            },
            Err(refusal) => WriteAnswer {
                number: refusal.reason.number(),
                record: refusal.record,
                bytes: 0,
            },
        }
    }
}

#[unsafe(no_mangle)]
pub extern "C" fn write_statement(
    head: Head,
    table: &[Movement],
    complements: &[u8],
    out: &mut [u8],
) -> WriteAnswer
    ensures { WriteStatementInC head table.now complements.now out.old result out.new }
{
    WriteAnswer::from(writer::write_statement(head, table, complements, out))
}

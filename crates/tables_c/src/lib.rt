// What a caller in C gets of `tables`: an archive of its one function, with the answer as a struct of three numbers.
#![tactic(auto)]

ghost use Rattle.std.specs.Prelude.{◌≡◌};
ghost use Rattle.tables.specs.Answers.{paper_table};
ghost use Rattle.tables_c.specs.Answers.{in_paper, MovementsInC};

use fields::Movement;
use framing::{Form, Refusal};

// Number and record of a refusal, both 0 where there is none; then the number of movements, which is that of the rows filled, 0 with a refusal. Beside `WriteAnswer` a struct of its own: the C headers name their fields apart.
#[repr(C)]
#[derive(Clone, Copy)]
pub struct TableAnswer {
    pub number: u64,
    pub record: u64,
    pub movements: u64,
}

impl From<Result<u64, Refusal>> for TableAnswer {
    ghost from_gives = { λ answer r. in_paper r ≡ paper_table answer };

    fn from(answer: Result<u64, Refusal>) -> TableAnswer {
        match answer {
            Ok(movements) => TableAnswer {
                number: 0,
                record: 0,
                movements,
            },
            Err(refusal) => TableAnswer {
                number: refusal.reason.number(),
                record: refusal.record,
                movements: 0,
            },
        }
    }
}

#[unsafe(no_mangle)]
pub extern "C" fn movements(form: Form, file: &[u8], k: u64, table: &mut [Movement]) -> TableAnswer
    ensures { MovementsInC form file.now k table.old result table.new }
{
    TableAnswer::from(tables::movements(form, file, k, table))
}
